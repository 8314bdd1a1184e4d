//! A table of sheets with the verdicts of shaping, worked out by hand.
#![tactic(auto)]

ghost use Rattle.std.specs.Prelude.{◌≡◌};
ghost use Rattle.sheet.specs.Sheet.{view};
ghost use Rattle.shaping.specs.Verdict.{shape_verdict, counts_of};
ghost use Rattle.sheet_tests.specs.Counted.{counted};
ghost use Rattle.sheet_tests.specs.Sheets.{Worked};

use shaping::{Counts, Draft, Question};
use sheet::{Refusal, Row};

/// Checks and then shapes: how many types, sites, nodes and entries the sheet has, or its refusal.
pub fn shaped_counts(rows: &[Row]) -> Result<Counts, Refusal<Question>>
    ensures { result ≡ counted (shape_verdict rows.now) (counts_of (view rows.now)) }
{
    let draft = Draft::new(rows);
    draft.check()?;
    let shaped = draft.shape();
    Ok(shaped.counts())
}

/// Sheets worked through, of the definitions.
pub fn worked_sheets()
    ensures { Worked }
{}

#[cfg(test)]
mod tests;
