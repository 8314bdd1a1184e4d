//! A sheet of formulas: its rows as they are handed in, the sheet read off them, sets, and the one
//! loop that asks a question of each type, site, node or entry.
#![tactic(auto)]

pub mod decode;
pub mod decoded;
pub mod property;
pub mod refusal;
pub mod row;
pub mod section;
pub mod sets;
pub mod table;

pub use decoded::{EntryRow, Flag, Form, Kind, NodeRow, Operator, SiteRow, TypeRow};
pub use refusal::Refusal;
pub use row::Row;
pub use section::Section;
pub use table::Table;
