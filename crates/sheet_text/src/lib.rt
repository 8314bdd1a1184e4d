//! Sheets as text: rows of six fields, as RFC 4180 has them.
#![tactic(auto)]

mod field;
pub mod laws;
mod line;
mod read;
mod reader;
pub mod refusal;
mod scan;

pub use read::read_sheet;
pub use refusal::{Question, Refusal};
