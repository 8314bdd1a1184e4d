//! What the rules promise of the runs of an admitted sheet: theorems, each on a function's contract.
//! They hold for every kind of numbers and every relation between labels, transitive or not.
#![tactic(auto)]

ghost use Rattle.guarantees.specs.Promises.{OfAdmitted, Soundness, Confinement, TwoRuns, Parties};
ghost use Rattle.guarantees.specs.Derivations.{EntriesDerived, DerivedPasses};

use number::Number;

/// Whatever the channels hold, no run is stuck, and a run that is done ends in a number.
pub fn runs_are_sound<K: Number>()
    ensures { OfAdmitted (λ _. Soundness K.Number.kind) }
{}

/// A run under a label that may not flow to b changes no channel that b may see.
pub fn runs_are_confined<K: Number>()
    ensures { OfAdmitted (Confinement K.Number.kind) }
{}

/// Two runs of one entry from channels that are the same to b leave channels that are the same to b,
/// and give the same number if b may see it.
pub fn runs_agree<K: Number>()
    ensures { OfAdmitted (TwoRuns K.Number.kind) }
{}

/// An entry of a party that may not reach b changes no channel of b's, and b's own entries give the
/// same number whatever b may not see.
pub fn parties_are_unswayed<K: Number>()
    ensures { OfAdmitted (Parties K.Number.kind) }
{}

/// Every entry of an admitted sheet has a derivation by the type rules.
pub fn entries_are_derived()
    ensures { OfAdmitted (λ _. EntriesDerived) }
{}

/// A shaped sheet whose entries have derivations passes the questions of the type rule and the
/// control rule.
pub fn derivations_pass()
    ensures { DerivedPasses }
{}
