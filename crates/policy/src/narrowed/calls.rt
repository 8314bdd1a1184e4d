ghost use Rattle.std.specs.Prelude.{◌≡◌, ℕ, ◌<◌, false, MatchResult, ◌≢◌};
ghost use Rattle.policy.specs.Narrowing.{Revokes, inner_of, narrowed_flows, narrowed_size, revoked_of, taken_of};
ghost use Rattle.policy.specs.Refusals.{revoke_answer};
ghost use Rattle.std.proofs.Common.{rules};

use super::Narrowed;
use crate::pair_set::PairSet;
use crate::{Policy, Refusal, check_label};

impl<P: Policy> Narrowed<P> {
    /// The inner policy, with no pair revoked yet.
    pub fn new(inner: P) -> Narrowed<P>
        ensures inner { inner_of result ≡ inner }
        ensures size { narrowed_size P.Policy.size result ≡ P.Policy.size inner }
        ensures taken { taken_of result ≡ 0 }
        ensures revoked { (x y : ℕ) → revoked_of result x y ≡ false }
        ensures relation { (x y : ℕ) → narrowed_flows P.Policy.flows result x y ≡ P.Policy.flows inner x y }
    {
        Narrowed {
            inner,
            taken: 0,
            revoked: PairSet::new(),
        }
    }

    /// From here on a may not flow to b.
    pub fn revoke(&mut self, a: u32, b: u32) -> Result<(), Refusal>
        ensures answer { result ≡ revoke_answer (narrowed_size P.Policy.size self.old) (taken_of self.old) (revoked_of self.old a b) a b }
        ensures size { narrowed_size P.Policy.size self.new ≡ narrowed_size P.Policy.size self.old }
        ensures change { MatchResult result (λ _. Revokes P.Policy.flows self.old self.new a b) (λ _. self.new ≡ self.old) }
    {
        let n = self.inner.labels();
        check_label(a, n)?;
        check_label(b, n)?;
        if a == b {
            return Err(Refusal::ReflexivePair);
        }
        if self.revoked.has(a, b) {
            return Ok(());
        }
        if self.taken >= 32 {
            return Err(Refusal::RevocationsFull);
        }
        self.take_place(a, b);
        Ok(())
    }

    // Revokes a pair of two labels that has not been revoked yet, where a place is free.
    fn take_place(&mut self, a: u32, b: u32)
        requires labels { (a < 32) × (b < 32) }
        requires different { a ≢ b }
        requires fresh { revoked_of self.old a b ≡ false }
        requires free { taken_of self.old < 32 }
        ensures { Revokes P.Policy.flows self.old self.new a b }
    {
        self.revoked.insert(a, b);
        self.taken += 1;
    }
}

impl<P: Policy> Policy for Narrowed<P> {
    ghost size = { narrowed_size P.Policy.size };

    ghost flows = { narrowed_flows P.Policy.flows };

    ghost counted = { Prim.search rules };

    ghost reflexive = { Prim.search rules };

    ghost sources = { Prim.search rules };

    ghost targets = { Prim.search rules };

    fn labels(&self) -> u32 {
        self.inner.labels()
    }

    fn may_flow(&self, a: u32, b: u32) -> bool {
        self.inner.may_flow(a, b) && !self.revoked.has(a, b)
    }
}
