//! A bounded stack over a lent slice, for elements of any type.
#![tactic(auto)]

ghost use Rattle.std.specs.Prelude.{◌≤◌, length};

pub mod methods;

pub use methods::last_in_first_out;

/// The first `count` places of the slice hold the stack, the last pushed at the highest place.
// It has no `impl Model`: clauses name the slice's lender by `items.ghost_name`, which a view would hide.
#[derive(Drop)]
pub struct BoundedStack<'a, T> {
    items: &'a mut [T],
    count: usize,
    ghost fits: { count ≤ length items.now },
}
