ghost use Rattle.std.specs.Prelude.{◌≡◌};
ghost use Rattle.evaluation.specs.Endings.{number_of};

/// Why a run stopped before its root had a value.
#[derive(Clone, Copy, Debug, PartialEq, Eq)]
pub enum Stop {
    /// No step is left.
    FuelSpent,
    /// No place is left for a pending node.
    PendingFull,
    /// No place is left for a binding.
    BindingsFull,
    /// No place is left for a fresh cell.
    CellsFull,
    /// A value had the wrong form for this node.
    Stuck { node: usize },
}

/// How a run ended.
#[derive(Clone, Copy, Debug, PartialEq, Eq)]
pub enum Ending {
    /// Its root has a number as its value.
    Number,
    Stopped(Stop),
    /// Its root has a value that is no number.
    NoNumber,
}

impl Ending {
    /// The number by which the ending is known.
    pub fn number(self) -> u8
        ensures { result ≡ number_of self }
    {
        match self {
            Ending::Number => 0,
            Ending::Stopped(Stop::FuelSpent) => 1,
            Ending::Stopped(Stop::PendingFull) => 2,
            Ending::Stopped(Stop::BindingsFull) => 3,
            Ending::Stopped(Stop::CellsFull) => 4,
            Ending::Stopped(Stop::Stuck { node: _ }) => 5,
            Ending::NoNumber => 6,
        }
    }
}
