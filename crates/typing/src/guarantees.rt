//! Theorems about the rules. Each function only carries its contract.
ghost use Rattle.typing.specs.Meaning.{FitsExactly, FitsTransitive, RulesExactly};

/// The test of fitting says what fitting is.
pub fn fits_exactly()
    ensures { FitsExactly }
{}

/// Fitting is transitive.
pub fn fits_transitive()
    ensures { FitsTransitive }
{}

/// The tests of questions 34 and 35 say what the type rule and the control rule are.
pub fn rules_exactly()
    ensures { RulesExactly }
{}
