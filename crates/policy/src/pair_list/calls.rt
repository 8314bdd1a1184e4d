ghost use Rattle.std.specs.Prelude.{◌≡◌, ℕ, IfOk, MatchResult};
ghost use Rattle.policy.specs.PairLists.{pair_list_flows, pair_list_size};
ghost use Rattle.policy.specs.Refusals.{allow_answer, new_answer, outcome};
ghost use Rattle.policy.specs.Relations.{only_self, with_pair};
ghost use Rattle.std.proofs.Common.{rules};

use super::PairList;
use crate::pair_set::PairSet;
use crate::{Policy, Refusal, check_count, check_label};

impl PairList {
    /// n labels, and no label flows to another yet.
    pub fn new(n: u32) -> Result<PairList, Refusal>
        ensures answer { outcome result ≡ new_answer n }
        ensures size { IfOk result (λ p. pair_list_size p ≡ n) }
        ensures relation { IfOk result (λ p. (x y : ℕ) → pair_list_flows p x y ≡ only_self n x y) }
    {
        check_count(n)?;
        Ok(PairList {
            count: n,
            allowed: PairSet::new(),
        })
    }

    /// From here on a may flow to b.
    pub fn allow(&mut self, a: u32, b: u32) -> Result<(), Refusal>
        ensures answer { result ≡ allow_answer (pair_list_size self.old) a b }
        ensures size { pair_list_size self.new ≡ pair_list_size self.old }
        ensures relation { MatchResult result (λ _. (x y : ℕ) → pair_list_flows self.new x y ≡ with_pair (pair_list_flows self.old) a b x y) (λ _. self.new ≡ self.old) }
    {
        check_label(a, self.count)?;
        check_label(b, self.count)?;
        self.allowed.insert(a, b);
        Ok(())
    }
}

impl Policy for PairList {
    ghost size = { pair_list_size };

    ghost flows = { pair_list_flows };

    ghost counted = { Prim.search rules };

    ghost reflexive = { Prim.search rules };

    ghost sources = { Prim.search rules };

    ghost targets = { Prim.search rules };

    fn labels(&self) -> u32 {
        self.count
    }

    fn may_flow(&self, a: u32, b: u32) -> bool {
        a < self.count && b < self.count && (a == b || self.allowed.has(a, b))
    }
}
