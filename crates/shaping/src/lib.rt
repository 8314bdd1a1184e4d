//! Shaping: the questions 21 to 27 that a draft is asked, and the sheet that they all answer yes.
#![tactic(auto)]

pub mod counts;
pub mod entries;
pub mod guarantees;
pub mod letters;
pub mod nodes;
pub mod question;
pub mod sites;
pub mod states;
pub mod steps;
pub mod types;

pub use counts::Counts;
pub use question::Question;
pub use states::{Draft, Shaped};
