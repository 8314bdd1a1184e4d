ghost use Rattle.std.specs.Prelude.{◌≡◌, ℕ, IfOk, MatchResult};
ghost use Rattle.policy.specs.Clearances.{Compartmented, Ranked, clearances_flows, clearances_size, compartments_of, rank_of};
ghost use Rattle.policy.specs.Refusals.{label_answer, new_answer, outcome};
ghost use Rattle.policy.specs.Relations.{every_pair};
ghost use Rattle.std.proofs.lemmas.Bool.Decides.{nat_tests};
ghost use Rattle.std.specs.Int.Bits.{and_self};
ghost use Rattle.std.proofs.Common.{arith, rules};

use super::{Clearance, Clearances};
use crate::{Policy, Refusal, check_count, check_label};

impl Clearances {
    /// n labels of rank 0 with no compartment, so that each flows to each.
    pub fn new(n: u32) -> Result<Clearances, Refusal>
        ensures answer { outcome result ≡ new_answer n }
        ensures size { IfOk result (λ p. clearances_size p ≡ n) }
        ensures clearances { IfOk result (λ p. (x : ℕ) → (rank_of p x ≡ 0) × (compartments_of p x ≡ 0)) }
        ensures relation { IfOk result (λ p. (x y : ℕ) → clearances_flows p x y ≡ every_pair n x y) }
    {
        check_count(n)?;
        Ok(Clearances {
            count: n,
            clearances: [Clearance {
                rank: 0,
                compartments: 0,
            }; 32],
        })
    }

    /// Gives a label another rank.
    pub fn set_rank(&mut self, label: u32, rank: u8) -> Result<(), Refusal>
        ensures answer { result ≡ label_answer (clearances_size self.old) label }
        ensures size { clearances_size self.new ≡ clearances_size self.old }
        ensures change { MatchResult result (λ _. Ranked self.old self.new label rank) (λ _. self.new ≡ self.old) }
    {
        check_label(label, self.count)?;
        self.clearances[label as usize].rank = rank;
        Ok(())
    }

    /// Gives a label another set of compartments.
    pub fn set_compartments(&mut self, label: u32, set: u32) -> Result<(), Refusal>
        ensures answer { result ≡ label_answer (clearances_size self.old) label }
        ensures size { clearances_size self.new ≡ clearances_size self.old }
        ensures change { MatchResult result (λ _. Compartmented self.old self.new label set) (λ _. self.new ≡ self.old) }
    {
        check_label(label, self.count)?;
        self.clearances[label as usize].compartments = set;
        Ok(())
    }
}

impl Policy for Clearances {
    ghost size = { clearances_size };

    ghost flows = { clearances_flows };

    ghost counted = { Prim.search rules };

    ghost reflexive = { λ p a h. let own = and_self (compartments_of p a) in Prim.grind (arith, nat_tests) };

    ghost sources = { Prim.search rules };

    ghost targets = { Prim.search rules };

    fn labels(&self) -> u32 {
        self.count
    }

    fn may_flow(&self, a: u32, b: u32) -> bool {
        if a >= self.count || b >= self.count {
            return false;
        }
        let (from, to) = (self.clearances[a as usize], self.clearances[b as usize]);
        from.rank <= to.rank && from.compartments & to.compartments == from.compartments
    }
}
