ghost use Rattle.std.specs.Prelude.{◌≡◌};
ghost use Rattle.station.specs.Calls.{number_of};

use thiserror::Error;

/// What a call is asked, in this order, as far as it has the thing.
#[derive(Clone, Copy, PartialEq, Eq, Debug, Error)]
pub enum Question {
    /// Is the channel area long enough: a place for each site?
    #[error("the channel area has not a place for each site")]
    ChannelArea,
    /// Does the channel or the entry exist?
    #[error("the sheet has no such channel or entry (a fresh site is no channel)")]
    Target,
    /// Is the seat its label?
    #[error("the channel or entry is not this seat's")]
    Seat,
    /// Is the fuel 1 to 1,000,000?
    #[error("fuel is 1 to 1,000,000 steps")]
    Fuel,
    /// Have the work areas at least 1,024, 1,024 and 544 places?
    #[error("a work area is too short")]
    WorkAreas,
}

impl Question {
    /// The number that a refusal gives.
    pub fn number(self) -> u8
        ensures { result ≡ number_of self }
    {
        match self {
            Question::ChannelArea => 41,
            Question::Target => 42,
            Question::Seat => 43,
            Question::Fuel => 44,
            Question::WorkAreas => 45,
        }
    }
}
