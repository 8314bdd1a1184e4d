//! Admission: the questions 31 to 37 that a shaped sheet is asked under a flow policy, and the sheet
//! that they all answer yes.
#![tactic(auto)]

pub mod entries;
pub mod flow;
pub mod guarantees;
pub mod labels;
pub mod nodes;
pub mod question;
pub mod sites;
pub mod states;
pub mod steps;

pub use question::Question;
pub use states::Admitted;
pub use steps::{admit, check};
