// A set of ordered pairs of numbers below 32: place b of row a says whether it has (a, b). Here and at
// clearances a label is an index by `as`: std has no From<u32> for usize.
ghost use Rattle.std.specs.Prelude.{◌≡◌, ℕ, ◌<◌, false, ◌||◌, ◌==◌, slice_index_or};
ghost use Rattle.policy.specs.PairSets.{holds};
ghost use Rattle.policy.specs.Relations.{pairs_in, with_pair};

#[derive(Drop)]
pub(super) struct PairSet {
    rows: [[bool; 32]; 32],
}

impl PairSet {
    // The empty set.
    pub(super) fn new() -> PairSet
        ensures pairs { (x y : ℕ) → holds result x y ≡ false }
        ensures count { pairs_in (holds result) ≡ 0 }
    {
        PairSet {
            rows: [[false; 32]; 32],
        }
    }

    // Whether it has (a, b).
    pub(super) fn has(&self, a: u32, b: u32) -> bool
        ensures { result ≡ holds self.now a b }
    {
        a < 32 && b < 32 && self.rows[a as usize][b as usize]
    }

    // Puts (a, b) into it.
    pub(super) fn insert(&mut self, a: u32, b: u32)
        requires { (a < 32) × (b < 32) }
        ensures { (x y : ℕ) → holds self.new x y ≡ with_pair (holds self.old) a b x y }
    {
        mark(&mut self.rows[a as usize], b);
    }
}

// Sets place `b` of a row.
#[tactic(auto, using(crate::proofs::Filled::set_true))]
fn mark(row: &mut [bool; 32], b: u32)
    requires { b < 32 }
    ensures { (y : ℕ) → slice_index_or row.new y false ≡ (y == b || slice_index_or row.old y false) }
{
    row[b as usize] = true;
}
