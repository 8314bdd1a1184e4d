//! What a run of an entry is, by definition: values, stores, the evaluation of a node, endings.
#![tactic(auto)]

pub mod ending;
pub mod laws;

pub use ending::{Ending, Stop};
