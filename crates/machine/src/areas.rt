ghost use Rattle.std.specs.Prelude.{◌≡◌, length};
ghost use Rattle.machine.specs.Areas.{enough};

use super::values::{Binding, Cell, Frame};

/// The most nodes that a run may have pending.
pub const MOST_PENDING: usize = 1024;

/// The most bindings that a run may make.
pub const MOST_BINDINGS: usize = 1024;

/// The most cells that a run may make beside those of the sites.
pub const MOST_FRESH: usize = 512;

/// The most cells that a run of any sheet may have: for 32 sites, and the fresh ones.
pub const MOST_CELLS: usize = 544;

/// The places that a run works in, for pending nodes, bindings and cells. They are lent, and what they
/// hold before a run sways nothing.
#[derive(Drop)]
pub struct WorkAreas<'a, K> {
    pub pending: &'a mut [Frame<K>],
    pub bound: &'a mut [Binding<K>],
    pub held: &'a mut [Cell<K>],
}

impl<'a, K> WorkAreas<'a, K> {
    /// Whether each area has the places that a run of any sheet may need.
    pub fn are_enough(&self) -> bool
        ensures { result ≡ enough (length self.now.pending.now) (length self.now.bound.now) (length self.now.held.now) }
    {
        self.pending.len() >= MOST_PENDING
            && self.bound.len() >= MOST_BINDINGS
            && self.held.len() >= MOST_CELLS
    }
}
