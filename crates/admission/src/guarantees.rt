//! Theorems about admitted sheets. Each function only carries its contract.
ghost use Rattle.sheet.specs.Sheet.{view};
ghost use Rattle.admission.specs.Meaning.{AdmittedExactly, AdmittedKeepsRules, FitsPreorder, Keeps};
ghost use Rattle.admission.specs.Worked.{WorkedSheets};

use super::states::Admitted;

/// A sheet is admitted exactly when each question holds of each row that it is about.
pub fn admitted_exactly()
    ensures { AdmittedExactly }
{}

/// A shaped sheet that a policy admits keeps the rules of types and control, and what its sites and
/// entries show goes only where that policy lets it.
pub fn admitted_keeps_rules()
    ensures { AdmittedKeepsRules }
{}

/// Fitting is a preorder on the types of a shaped sheet.
pub fn fits_preorder()
    ensures { FitsPreorder }
{}

/// Four sheets worked through, by the definitions.
pub fn worked_sheets()
    ensures { WorkedSheets }
{}

/// What an admitted sheet carries: there is a policy under which it keeps the rules.
pub fn keeps_rules(sheet: &Admitted)
    ensures { ∥ Keeps (view sheet.now.shaped.table.rows.now) ∥₁ }
{}
