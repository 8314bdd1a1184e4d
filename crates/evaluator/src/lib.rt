//! Runs and trials of the entries of a sheet, over work areas that the caller lends.
#![tactic(auto)]

pub mod examples;
pub mod refusal;
pub mod report;
pub mod runs;
pub mod trials;

pub use refusal::Refusal;
pub use report::Report;
pub use runs::evaluate;
pub use trials::{is_lawful_fuel, trial};
