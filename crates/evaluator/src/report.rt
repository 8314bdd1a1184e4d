use evaluation::Ending;

/// How a run ended, its number, and the steps that it made. The number is 0 unless the run ended in one:
/// it stands beside the ending, since whoever tells of a run tells a number at every ending.
#[derive(Clone, Copy)]
pub struct Report<K> {
    pub ending: Ending,
    pub number: K,
    pub steps: usize,
}
