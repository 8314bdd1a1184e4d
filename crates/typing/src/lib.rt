//! The rules of types and control: what fits what, and what each kind of node asks of its parts.
#![tactic(auto)]

mod clauses;
pub mod fitting;
pub mod guarantees;
pub mod rules;
