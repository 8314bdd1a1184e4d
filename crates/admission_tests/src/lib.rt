//! A table of sheets with the verdicts of admission, worked out by hand.
#![tactic(auto)]

ghost use Rattle.std.specs.Prelude.{◌≡◌, length};
ghost use Rattle.sheet.specs.Sheet.{view};
ghost use Rattle.admission.specs.Verdict.{admission_verdict};
ghost use Rattle.admission_tests.specs.Counted.{counted};

use admission::{Question, admit, check};
use policy::Policy;
use shaping::Shaped;
use sheet::Refusal;

/// Checks and then admits: how many rows the admitted sheet has, or its refusal.
pub fn admitted_rows<P: Policy>(sheet: Shaped, policy: &P) -> Result<usize, Refusal<Question>>
    ensures { result ≡ counted (admission_verdict (P.Policy.size policy.now) (P.Policy.flows policy.now) (view sheet.entry.table.rows.now)) (length sheet.entry.table.rows.now) }
{
    check(&sheet, policy)?;
    let admitted = admit(sheet, policy);
    Ok(admitted.shaped.table.rows.len())
}

#[cfg(test)]
mod tests;
