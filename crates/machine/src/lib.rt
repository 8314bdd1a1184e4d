//! The evaluation of a node as a loop over three bounded stacks: pending nodes, bindings and cells.
#![tactic(auto)]

pub mod areas;
pub mod runs;
pub mod steps;
pub mod values;

pub use areas::{MOST_BINDINGS, MOST_CELLS, MOST_FRESH, MOST_PENDING, WorkAreas};
pub use runs::run;
pub use values::{Binding, Cell, Frame, Next, Outcome, Stage, Value};
