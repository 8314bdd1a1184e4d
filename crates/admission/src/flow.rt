//! The one place where the policy is asked.
ghost use Rattle.std.specs.Prelude.{◌≡◌};
ghost use Rattle.admission.specs.Questions.{all_flow, flows_if};

use policy::Policy;
use sheet::property::all;
use sheet::sets::has;

// Label a may flow to label b; a number past every label flows nowhere.
fn may_flow<P: Policy>(policy: &P, a: usize, b: usize) -> bool
    ensures { result ≡ P.Policy.flows policy.now a b }
{
    match (u32::try_from(a), u32::try_from(b)) {
        (Ok(a), Ok(b)) => policy.may_flow(a, b),
        _ => false,
    }
}

// Label a, where it is in the set, flows to a label.
fn flows_if<P: Policy>(policy: &P, set: usize, to: usize, a: usize) -> bool
    ensures { result ≡ flows_if (P.Policy.flows policy.now) set to a }
{
    !has(a, set) || may_flow(policy, a, to)
}

// Every label of the set flows to a label.
pub(crate) fn all_flow<P: Policy>(policy: &P, set: usize, to: usize) -> bool
    ensures { result ≡ all_flow (P.Policy.flows policy.now) set to }
{
    all(32, |a| flows_if(policy, set, to, a))
}
