//! A trial of an entry: a run with every channel at 0, of which nothing is kept.
ghost use Rattle.std.specs.Prelude.{◌≡◌, length};
ghost use Rattle.sheet.specs.Sheet.{view};
ghost use Rattle.machine.specs.Areas.{SameLoans, LeftAlone};
ghost use Rattle.evaluator.specs.Trials.{lawful_fuel, trial_verdict, trial_answer, answered};

use super::refusal::Refusal;
use super::report::Report;
use super::runs::run_entry;
use machine::WorkAreas;
use number::Number;
use shaping::Shaped;
use sheet::Table;

/// Whether a run may have this fuel.
pub fn is_lawful_fuel(fuel: usize) -> bool
    ensures { result ≡ lawful_fuel fuel }
{
    1 <= fuel && fuel <= 1000000
}

// The first question that is answered no.
fn check<K>(table: &Table, entry: usize, fuel: usize, areas: &WorkAreas<K>) -> Result<(), Refusal>
    ensures { result ≡ trial_verdict (view table.now.rows.now) entry fuel (length areas.now.pending.now) (length areas.now.bound.now) (length areas.now.held.now) }
{
    if entry >= table.entries {
        return Err(Refusal::Entry);
    }
    if !is_lawful_fuel(fuel) {
        return Err(Refusal::Fuel);
    }
    if !areas.are_enough() {
        return Err(Refusal::Areas);
    }
    Ok(())
}

/// Tries an entry of a shaped sheet. The answer depends on nothing that the work areas held before; a
/// refused trial leaves them as they were.
pub fn trial<K: Number>(
    sheet: &Shaped,
    entry: usize,
    fuel: usize,
    areas: &mut WorkAreas<K>,
) -> Result<Report<K>, Refusal>
    ensures answer { answered K.Number.value result ≡ trial_answer K.Number.kind (view sheet.now.table.rows.now) entry fuel (length areas.old.pending.now) (length areas.old.bound.now) (length areas.old.held.now) }
    ensures areas_left { LeftAlone result areas.old areas.new }
    ensures loans { SameLoans areas.old areas.new }
{
    check(&sheet.table, entry, fuel, areas)?;
    Ok(run_entry(sheet, &mut [], areas, entry, fuel))
}
