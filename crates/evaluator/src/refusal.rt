ghost use Rattle.std.specs.Prelude.{◌≡◌};
ghost use Rattle.evaluator.specs.Trials.{«number_of»};

use thiserror::Error;

/// What a trial is refused for, in this order.
#[derive(Clone, Copy, PartialEq, Eq, Debug, Error)]
pub enum Refusal {
    #[error("the sheet has no such entry")]
    Entry,
    #[error("fuel is 1 to 1,000,000 steps")]
    Fuel,
    #[error("a work area is too short")]
    Areas,
}

impl Refusal {
    /// The number that a refusal gives.
    pub fn number(self) -> u8
        ensures { result ≡ number_of self }
    {
        match self {
            Refusal::Entry => 42,
            Refusal::Fuel => 44,
            Refusal::Areas => 45,
        }
    }
}
