//! Policies given pair by pair.
ghost use Rattle.std.specs.Prelude.{◌≤◌};

use super::pair_set::PairSet;

pub mod calls;

/// Each label flows to itself and along the pairs that were allowed.
#[derive(Drop)]
pub struct PairList {
    count: u32,
    allowed: PairSet,
    ghost counted: { (1 ≤ count) × (count ≤ 32) },
}
