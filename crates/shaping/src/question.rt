ghost use Rattle.std.specs.Prelude.{◌≡◌};
ghost use Rattle.shaping.specs.Verdict.{number_of};

use thiserror::Error;

/// What shaping asks, in this order.
#[derive(Clone, Copy, Debug, PartialEq, Eq, Error)]
pub enum Question {
    #[error("rows come in the order T, S, N, E, and have no other letter; this row breaks that order")]
    Letters,
    #[error("a sheet has 1 to 128 types, 1 to 32 sites, 1 to 512 nodes and 1 to 32 entries")]
    Counts,
    #[error("this type is not lawful: its form is 0, 1 or 2, its sets are from 0 to 2^32 - 1 and name only sites that exist, its parts are types of lower number, unused fields are 0, and types nest at most eight deep")]
    Types,
    #[error("this site is not lawful: its label is 0 to 31, its type exists, its flag is 0 or 1, a channel holds a number, and unused fields are 0")]
    Sites,
    #[error("this node is not lawful: its kind is 0 to 9, its type exists, its control set is from 0 to 2^32 - 1, its argument suits its kind, and its size counts it and all its parts")]
    Nodes,
    #[error("this variable does not stand in the body of the function node that it names")]
    Variables,
    #[error("an entry has a label 0 to 31, a root that exists, unused fields 0 and a tree that it shares with no other entry, and every node is in some entry's tree")]
    Entries,
}

impl Question {
    /// The number that a refusal gives.
    pub fn number(self) -> u8
        ensures { result ≡ number_of self }
    {
        match self {
            Question::Letters => 21,
            Question::Counts => 22,
            Question::Types => 23,
            Question::Sites => 24,
            Question::Nodes => 25,
            Question::Variables => 26,
            Question::Entries => 27,
        }
    }
}
