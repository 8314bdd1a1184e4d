ghost use Rattle.sheet.specs.Sheet.{view};
ghost use Rattle.admission.specs.Meaning.{SomePolicyAdmits};

use shaping::Shaped;

/// A shaped sheet that every question of admission was answered yes for under some policy. Nothing of
/// the policy is kept but that there was one.
#[derive(Drop)]
pub struct Admitted<'a> {
    pub shaped: Shaped<'a>,
    ghost admitted: { ∥ SomePolicyAdmits (view shaped.table.rows.now) ∥₁ },
}
