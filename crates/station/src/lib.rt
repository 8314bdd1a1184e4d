//! The station: the calls of the seats of an admitted sheet, and what no history of them shows.
#![tactic(auto)]

pub mod calls;
pub mod promise;
pub mod question;
pub mod state;

pub use question::Question;
pub use state::Station;
