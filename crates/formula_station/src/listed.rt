// A policy as the first lines of its file list it.
ghost use Rattle.formula_station.specs.Listed.{listed_flows, listed_size};
ghost use Rattle.formula_station.specs.declared.listed.Listed.TheVariants.{Clearances, Pairs};
ghost use Rattle.policy.specs.Clearances.{compartments_of};
ghost use Rattle.std.proofs.Common.{arith, rules};
ghost use Rattle.std.proofs.lemmas.Bool.Decides.{nat_tests};
ghost use Rattle.std.specs.Int.Bits.{and_self};

use policy::{Clearances, PairList, Policy};

// A pair list, or clearances.
#[derive(Drop)]
pub(crate) enum Listed {
    Pairs(PairList),
    Clearances(Clearances),
}

impl Policy for Listed {
    ghost size = { listed_size };

    ghost flows = { listed_flows };

    ghost counted = { elim [ Pairs p ↦ Prim.search rules | Clearances c ↦ Prim.search rules ] };

    ghost reflexive = { elim [ Pairs p ↦ Prim.search rules | Clearances c ↦ λ a h. let own = and_self (compartments_of c a) in Prim.grind (arith, nat_tests) ] };

    ghost sources = { elim [ Pairs p ↦ Prim.search rules | Clearances c ↦ Prim.search rules ] };

    ghost targets = { elim [ Pairs p ↦ Prim.search rules | Clearances c ↦ Prim.search rules ] };

    fn labels(&self) -> u32 {
        match self {
            Listed::Pairs(pairs) => pairs.labels(),
            Listed::Clearances(clearances) => clearances.labels(),
        }
    }

    fn may_flow(&self, a: u32, b: u32) -> bool {
        match self {
            Listed::Pairs(pairs) => pairs.may_flow(a, b),
            Listed::Clearances(clearances) => clearances.may_flow(a, b),
        }
    }
}
