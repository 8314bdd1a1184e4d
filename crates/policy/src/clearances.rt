//! Policies by clearance.
ghost use Rattle.std.specs.Prelude.{◌≤◌};

pub mod calls;

// The clearance of one label.
#[derive(Clone, Copy)]
struct Clearance {
    rank: u8,
    compartments: u32,
}

/// Each label has a rank and a set of compartments, member k adding 2^k. One label flows to another
/// when its rank is at most the other's and its compartments are among the other's. There is no heap here,
/// so an array of the most labels holds them, and `count` tells how many there are.
#[derive(Drop)]
pub struct Clearances {
    count: u32,
    clearances: [Clearance; 32],
    ghost counted: { (1 ≤ count) × (count ≤ 32) },
}
