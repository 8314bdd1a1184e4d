//! Policies less some pairs.
ghost use Rattle.std.specs.Prelude.{◌≡◌, ℕ, ◌≤◌, false};
ghost use Rattle.policy.specs.PairSets.{holds};
ghost use Rattle.policy.specs.Relations.{pairs_in};

use super::pair_set::PairSet;

pub mod calls;

/// A policy less the pairs that were revoked, at most 32; `taken` counts them. The limit is this policy's and
/// not the set's, so the count stands here.
#[derive(Drop)]
pub struct Narrowed<P> {
    inner: P,
    taken: u32,
    revoked: PairSet,
    ghost room: { taken ≤ 32 },
    ghost tally: { taken ≡ pairs_in (holds revoked) },
    ghost apart: { (k : ℕ) → holds revoked k k ≡ false },
}
