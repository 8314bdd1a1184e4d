/// The first question that is answered no, and the row that it is answered no for.
#[derive(Clone, Copy, Debug, PartialEq, Eq)]
pub struct Refusal<Q> {
    pub question: Q,
    pub row: usize,
}
