//! What holds of every policy of a kind. A function here carries a theorem in its contract.
ghost use Rattle.policy.specs.Narrowing.{AddsNoPair, Commutes, CountsPairs, Idempotent};
ghost use Rattle.policy.specs.Theorems.{AddsOnePair, ClearancesAreTransitive, RemovesOnePair, TwoSteps};
ghost use Rattle.std.specs.Result.{MatchResult};

use super::{PairList, Policy, Refusal};

/// Ranks and sets of compartments are ordered, so a clearance policy needs no completing.
pub fn clearances_are_transitive()
    ensures { ClearancesAreTransitive }
{}

/// A pair that is allowed adds itself and nothing else; a label with itself adds nothing.
pub fn allowing_adds_one_pair()
    ensures { AddsOnePair }
{}

/// The pair list over three labels with (0, 1) and (1, 2): label 0 does not flow to label 2.
pub fn two_steps() -> Result<PairList, Refusal>
    ensures { MatchResult result (λ p. TwoSteps p) (λ _. ⊥) }
{
    let mut p = PairList::new(3)?;
    p.allow(0, 1)?;
    p.allow(1, 2)?;
    Ok(p)
}

/// A pair that is revoked is gone, and nothing else is.
pub fn revoking_removes_one_pair()
    ensures { RemovesOnePair }
{}

/// A narrowed policy has no pair that the policy inside it lacks, and lacks at most 32 that it has.
pub fn narrowing_adds_no_pair<P: Policy>()
    ensures pairs { AddsNoPair P.Policy.flows }
    ensures places { CountsPairs P }
{}

/// Two granted revocations leave the same in either order, and one granted again changes nothing.
pub fn revoking_commutes<P: Policy>()
    ensures commutes { Commutes P.Policy.flows }
    ensures idempotent { Idempotent P.Policy.flows }
{}
