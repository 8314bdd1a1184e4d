//! The loop.
ghost use Rattle.std.specs.Prelude.{◌≡◌, []};
ghost use Rattle.stack.specs.Live.{live, room};
ghost use Rattle.sheet.specs.Sheet.{view};
ghost use Rattle.machine.specs.Does.{Evaluated};
ghost use Rattle.machine.specs.Steps.{may_start};

use super::steps::{resume, start};
use super::values::{Binding, Cell, Frame, Next, Outcome, Value};
use evaluation::Stop;
use number::Number;
use sheet::Table;
use stack::BoundedStack;

// Whether a node can be started: fuel is tested first, then the places for pending nodes.
fn may_start(spent: bool, full: bool) -> Result<(), Stop>
    ensures { result ≡ may_start spent full }
{
    if spent {
        return Err(Stop::FuelSpent);
    }
    if full {
        return Err(Stop::PendingFull);
    }
    Ok(())
}

// Steps until the root has a value, or the run stops, and counts the steps behind a reference, so that errors
// go by `?`.
fn value_of<K: Number>(
    table: &Table,
    frames: &mut BoundedStack<Frame<K>>,
    bindings: &mut BoundedStack<Binding<K>>,
    cells: &mut BoundedStack<Cell<K>>,
    root: usize,
    fuel: usize,
    steps: &mut usize,
) -> Result<Value<K>, Stop>
    requires empty { live frames.old ≡ [] }
    requires fresh { steps.old ≡ 0 }
    ensures { Evaluated K.Number.kind K.Number.value (view table.now.rows.now) (record { bindings = room bindings.entry.now; cells = room cells.old }) fuel (room frames.old) root (live bindings.entry.now) (live cells.old) (record { answer = result; steps = steps.new }) (live bindings.exit.now) (live cells.new) }
{
    let mut next: Next<K> = Next::Start {
        node: root,
        scope: 0,
    };
    loop {
        next = match next {
            Next::Start { node, scope } => {
                may_start(*steps == fuel, frames.is_full())?;
                *steps += 1;
                start(table, frames, bindings, node, scope)?
            }
            Next::Return(value) => match frames.pop() {
                Some(frame) => resume(table, frames, bindings, cells, frame, value)?,
                None => return Ok(value),
            },
        };
    }
}

/// Evaluates node `root` with at most `fuel` steps. As many nodes can be pending, and as many bindings
/// and cells made, as the stacks have places.
pub fn run<K: Number>(
    table: &Table,
    frames: &mut BoundedStack<Frame<K>>,
    bindings: &mut BoundedStack<Binding<K>>,
    cells: &mut BoundedStack<Cell<K>>,
    root: usize,
    fuel: usize,
) -> Outcome<K>
    requires { live frames.old ≡ [] }
    ensures { Evaluated K.Number.kind K.Number.value (view table.now.rows.now) (record { bindings = room bindings.entry.now; cells = room cells.old }) fuel (room frames.old) root (live bindings.entry.now) (live cells.old) result (live bindings.exit.now) (live cells.new) }
{
    let mut steps = 0;
    let answer = value_of(table, frames, bindings, cells, root, fuel, &mut steps);
    Outcome { answer, steps }
}
