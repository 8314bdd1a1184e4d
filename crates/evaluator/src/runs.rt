//! A run of an entry: copies of the channels' numbers go into the cells of the sites, the machine runs
//! over them, and the numbers go back only where the run ended in a number.
ghost use Rattle.std.specs.Prelude.{◌≡◌, ◌≤◌, [], map, length, pos};
ghost use Rattle.stack.specs.Live.{live, room, SameArea};
ghost use Rattle.sheet.specs.Sheet.{view};
ghost use Rattle.evaluation.specs.Runs.{run as outcome, run_report, «numbers_after»};
ghost use Rattle.machine.specs.Areas.{SameLoans};
ghost use Rattle.evaluator.specs.Runs.{reported, concluded, opened, padded, HasRoom, «number_in», taken, kept};

use super::report::Report;
use evaluation::Ending;
use machine::{Cell, MOST_BINDINGS, MOST_FRESH, MOST_PENDING, Outcome, Value, WorkAreas, run};
use number::Number;
use shaping::Shaped;
use stack::BoundedStack;

// A cell for each site, with the site's number; the sites past the numbers begin at `zero`.
fn load<K: Number>(cells: &mut BoundedStack<Cell<K>>, sites: usize, numbers: &[K], zero: K)
    requires { (live cells.old ≡ []) × (sites ≤ room cells.old) }
    ensures area { SameArea cells.old cells.new }
    ensures held { live cells.new ≡ opened 0 (padded sites zero numbers.now) }
{
    for site in 0..sites {
        let number = numbers.get(site).copied().unwrap_or(zero);
        let _ = cells.push(Cell {
            site,
            value: Value::Number(number),
        });
    }
}

// The number that a cell holds, or the one that was there before.
fn number_in<K: Number>(value: Value<K>, old: K) -> K
    ensures { result ≡ number_in value old }
{
    match value {
        Value::Number(number) => number,
        _ => old,
    }
}

// The numbers in the cells of the sites go back.
fn take<K: Number>(cells: &BoundedStack<Cell<K>>, numbers: &mut [K])
    ensures { numbers.new ≡ taken (live cells.now) numbers.old }
{
    // A `zip` with the cells hides from the proof what is written through it, so the sites are counted.
    for (site, number) in numbers.iter_mut().enumerate() {
        if let Some(cell) = cells.get(site) {
            *number = number_in(cell.value, *number);
        }
    }
}

// What is kept of a run: nothing, unless it ended in a number.
fn keep<K: Number>(outcome: Outcome<K>, cells: &BoundedStack<Cell<K>>, numbers: &mut [K])
    ensures { numbers.new ≡ kept outcome (live cells.now) numbers.old }
{
    if let Ok(Value::Number(_)) = outcome.answer {
        take(cells, numbers);
    }
}

/// What is told of a run.
pub fn conclude<K: Number>(outcome: Outcome<K>) -> Report<K>
    ensures { reported K.Number.value result ≡ concluded K.Number.value (K.Number.kind.whole (pos 0)) outcome }
{
    let zero = K::from_whole(0);
    let (ending, number) = match outcome.answer {
        Ok(Value::Number(number)) => (Ending::Number, number),
        Ok(_) => (Ending::NoNumber, zero),
        Err(stop) => (Ending::Stopped(stop), zero),
    };
    Report {
        ending,
        number,
        steps: outcome.steps,
    }
}

// Runs an entry of a shaped sheet whose first sites hold the numbers given, and whose others hold 0.
pub(crate) fn run_entry<K: Number>(
    sheet: &Shaped,
    numbers: &mut [K],
    areas: &mut WorkAreas<K>,
    entry: usize,
    fuel: usize,
) -> Report<K>
    requires areas { HasRoom (view sheet.now.table.rows.now) areas.old }
    ensures answer { let S = view sheet.now.table.rows.now in let ns = padded S.sites (K.Number.kind.whole (pos 0)) (map K.Number.value numbers.old) in reported K.Number.value result ≡ run_report K.Number.kind S fuel entry ns }
    ensures left { let S = view sheet.now.table.rows.now in let ns = padded S.sites (K.Number.kind.whole (pos 0)) (map K.Number.value numbers.old) in map K.Number.value numbers.new ≡ numbers_after (outcome K.Number.kind S fuel entry ns) (map K.Number.value numbers.old) }
    ensures loans { SameLoans areas.old areas.new }
{
    let table = &sheet.table;
    let root = table.entry_at(entry).root;
    let mut frames = BoundedStack::new(&mut areas.pending[0..MOST_PENDING]);
    let mut bindings = BoundedStack::new(&mut areas.bound[0..MOST_BINDINGS]);
    let mut cells = BoundedStack::new(&mut areas.held[0..table.sites + MOST_FRESH]);
    load(&mut cells, table.sites, numbers, K::from_whole(0));
    let outcome = run(table, &mut frames, &mut bindings, &mut cells, root, fuel);
    keep(outcome, &cells, numbers);
    conclude(outcome)
}

/// Runs an entry of a shaped sheet whose sites hold the numbers given: what the run tells, and what the
/// sites hold after it, is what the definition says. Both depend on the sheet, the entry, the fuel and
/// the numbers alone, so on nothing that the work areas held before.
// Entry and fuel stay two numbers, as in the calls of a history: a struct of them would be taken apart at once.
pub fn evaluate<K: Number>(
    sheet: &Shaped,
    numbers: &mut [K],
    areas: &mut WorkAreas<K>,
    entry: usize,
    fuel: usize,
) -> Report<K>
    requires numbers { length numbers.old ≡ (view sheet.now.table.rows.now).sites }
    requires areas { HasRoom (view sheet.now.table.rows.now) areas.old }
    ensures answer { reported K.Number.value result ≡ run_report K.Number.kind (view sheet.now.table.rows.now) fuel entry (map K.Number.value numbers.old) }
    ensures left { map K.Number.value numbers.new ≡ numbers_after (outcome K.Number.kind (view sheet.now.table.rows.now) fuel entry (map K.Number.value numbers.old)) (map K.Number.value numbers.old) }
    ensures loans { SameLoans areas.old areas.new }
{
    run_entry(sheet, numbers, areas, entry, fuel)
}
