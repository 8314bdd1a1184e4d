//! From a shaped sheet to an admitted one: a check that moves nothing, and then a move that cannot
//! refuse.
ghost use Rattle.std.specs.Prelude.{◌≡◌, true};
ghost use Rattle.sheet.specs.Asked.{passed};
ghost use Rattle.sheet.specs.Sheet.{view};
ghost use Rattle.admission.specs.Verdict.{admission_verdict};

use super::entries::check_entries;
use super::labels::check_labels;
use super::nodes::check_nodes;
use super::question::Question;
use super::sites::check_sites;
use super::states::Admitted;
use policy::Policy;
use shaping::Shaped;
use sheet::Refusal;

/// Asks the questions 31 to 37 of the sheet under the policy, up to the first no.
pub fn check<P: Policy>(sheet: &Shaped, policy: &P) -> Result<(), Refusal<Question>>
    ensures { result ≡ admission_verdict (P.Policy.size policy.now) (P.Policy.flows policy.now) (view sheet.now.table.rows.now) }
{
    let table = &sheet.table;
    check_labels(table, policy.labels() as usize)?; // std has no From<u32> for usize
    check_sites(table, policy)?;
    check_nodes(table)?;
    check_entries(table, policy)
}

/// The admitted sheet. The check must have said yes under this policy.
pub fn admit<'a, P: Policy>(sheet: Shaped<'a>, policy: &P) -> Admitted<'a>
    requires { passed (admission_verdict (P.Policy.size policy.now) (P.Policy.flows policy.now) (view sheet.table.rows.now)) ≡ true }
    ensures { result.shaped.table.rows.now ≡ sheet.entry.table.rows.now }
{
    Admitted { shaped: sheet }
}
