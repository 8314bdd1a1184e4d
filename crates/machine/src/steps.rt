//! One step of the machine: a node is started, or a value comes back to the node that waits for it.
//! The stacks are passed one by one and not as one struct: what a function is not given, it need not say
//! that it leaves alone.
ghost use Rattle.std.specs.Prelude.{◌≡◌, ℕ, List, [], ◌∷◌, ◌++◌, if◌then◌else◌};
ghost use Rattle.stack.specs.Live.{live, room, SameArea};
ghost use Rattle.number.specs.Millimetre.{clamp};
ghost use Rattle.sheet.specs.Sheet.{view, last_part, part};
ghost use Rattle.evaluation.specs.Evaluation.{operate_as};
ghost use Rattle.machine.specs.Flat.{seek};
ghost use Rattle.machine.specs.Seen.{found, bindings as bound};
ghost use Rattle.machine.specs.Does.{HasPlace, Chosen, Created, ReadOut, Written, Applied, Combined, Started, Resumed};

use super::values::{Binding, Cell, Frame, Next, Stage, Value};
use evaluation::Stop;
use number::Number;
use sheet::{Kind, Operator, Table};
use stack::BoundedStack;

// The whole number of 32 bits that is nearest to a literal.
fn whole_of(literal: i64) -> i32
    ensures { result ≡ clamp literal }
{
    literal.clamp(i64::from(i32::MIN), i64::from(i32::MAX)) as i32
}

// The last part of node i.
fn last_of(i: usize) -> usize
    ensures { result ≡ last_part i }
{
    i.saturating_sub(1)
}

// The part before the last part of node i.
fn middle_of(table: &Table, i: usize) -> usize
    ensures { result ≡ part (view table.now.rows.now) i 1 }
{
    table.part_before(last_of(i))
}

// The part before that one.
fn first_of(table: &Table, i: usize) -> usize
    ensures { result ≡ part (view table.now.rows.now) i 2 }
{
    table.part_before(middle_of(table, i))
}

// Node `node` waits while its part is evaluated.
fn pend<K: Number>(
    frames: &mut BoundedStack<Frame<K>>,
    node: usize,
    scope: usize,
    stage: Stage<K>,
    part: usize,
) -> Next<K>
    requires { HasPlace frames.old }
    ensures area { SameArea frames.old frames.new }
    ensures next { result ≡ Next.Start part scope }
    ensures held { live frames.new ≡ live frames.old ++ record { node = node; scope = scope; stage = stage } ∷ [] }
{
    let _ = frames.push(Frame { node, scope, stage });
    Next::Start { node: part, scope }
}

// The value of the innermost binding of `function` in the environment at place `scope`.
fn look_up<K: Number>(
    bindings: &BoundedStack<Binding<K>>,
    function: usize,
    scope: usize,
) -> Option<Value<K>>
    ensures { found K.Number.value result ≡ seek scope (bound K.Number.value (live bindings.now)) function scope }
{
    let mut place = scope;
    // The place around a binding is lower than its own, so the walk has at most `scope` steps.
    for _ in 0..scope {
        // `checked_sub(1)?` was measured slower: 1.51 times the time of plain Rust, and this test 1.47.
        if place == 0 {
            return None;
        }
        let binding = bindings.get(place - 1)?;
        if binding.function == function {
            return Some(binding.value);
        }
        place = binding.outer;
    }
    None
}

// The branch that a choice takes: the third part where the condition is zero, else the second.
fn branch<K: Number>(table: &Table, node: usize, n: K) -> usize
    ensures { result ≡ (if K.Number.kind.is_zero (K.Number.value n) then part (view table.now.rows.now) node 0 else part (view table.now.rows.now) node 1) }
{
    if n.is_zero() {
        last_of(node)
    } else {
        middle_of(table, node)
    }
}

// The condition of a choice is known: the branch comes next.
fn choose<K: Number>(
    table: &Table,
    frames: &mut BoundedStack<Frame<K>>,
    node: usize,
    scope: usize,
    value: Value<K>,
) -> Result<Next<K>, Stop>
    requires { HasPlace frames.old }
    ensures area { SameArea frames.old frames.new }
    ensures step { Chosen K.Number.kind K.Number.value (view table.now.rows.now) node scope value (live frames.old) result (live frames.new) }
{
    let part = branch(table, node, value.number_for(node)?);
    Ok(pend(frames, node, scope, Stage::Passes, part))
}

// A new cell holds the value; its address is the value of the node.
fn create<K: Number>(
    table: &Table,
    cells: &mut BoundedStack<Cell<K>>,
    node: usize,
    value: Value<K>,
) -> Result<Next<K>, Stop>
    ensures area { SameArea cells.old cells.new }
    ensures step { Created K.Number.kind K.Number.value (view table.now.rows.now) (room cells.old) node value (live cells.old) result (live cells.new) }
{
    let address = cells.len();
    let site = table.node_at(node).argument;
    if !cells.push(Cell { site, value }) {
        return Err(Stop::CellsFull);
    }
    Ok(Next::Return(Value::Reference(address)))
}

// Reads through a reference.
fn read<K: Number>(
    cells: &BoundedStack<Cell<K>>,
    node: usize,
    value: Value<K>,
) -> Result<Next<K>, Stop>
    ensures { ReadOut K.Number.kind K.Number.value node value (live cells.now) result }
{
    let address = value.address_for(node)?;
    let cell = cells.get(address).ok_or(Stop::Stuck { node })?;
    Ok(Next::Return(cell.value))
}

// Writes through a reference; the value written is the value of the node.
fn write<K: Number>(
    cells: &mut BoundedStack<Cell<K>>,
    node: usize,
    target: Value<K>,
    value: Value<K>,
) -> Result<Next<K>, Stop>
    ensures area { SameArea cells.old cells.new }
    ensures step { Written K.Number.kind K.Number.value node target value (live cells.old) result (live cells.new) }
{
    let address = target.address_for(node)?;
    let cell = cells.get(address).ok_or(Stop::Stuck { node })?;
    let _ = cells.set(address, Cell { value, ..cell });
    Ok(Next::Return(value)) // the value written
}

// The body of the function comes next, with its argument bound.
fn apply<K: Number>(
    frames: &mut BoundedStack<Frame<K>>,
    bindings: &mut BoundedStack<Binding<K>>,
    node: usize,
    callee: Value<K>,
    value: Value<K>,
) -> Result<Next<K>, Stop>
    requires { HasPlace frames.old }
    ensures frames_area { SameArea frames.old frames.new }
    ensures bindings_area { SameArea bindings.old bindings.new }
    ensures step { Applied K.Number.kind K.Number.value (room bindings.old) node callee value (live frames.old) (live bindings.old) result (live frames.new) (live bindings.new) }
{
    let Value::Closure {
        node: function,
        scope: outer,
    } = callee
    else {
        return Err(Stop::Stuck { node });
    };
    if !bindings.push(Binding {
        function,
        value,
        outer,
    }) {
        return Err(Stop::BindingsFull);
    }
    let scope = bindings.len();
    Ok(pend(frames, node, scope, Stage::Passes, last_of(function)))
}

// What the operator makes of two numbers.
fn operate<K: Number>(operator: Operator, a: K, b: K) -> K
    ensures { K.Number.value result ≡ operate_as K.Number.kind operator (K.Number.value a) (K.Number.value b) }
{
    match operator {
        Operator::Add => a.add(b),
        Operator::Subtract => a.subtract(b),
        Operator::Multiply => a.multiply(b),
        Operator::Divide => a.divide(b),
        Operator::Less => a.less(b),
        Operator::Equal => a.equal(b),
    }
}

// Both parts of an operation are known.
fn combine<K: Number>(
    table: &Table,
    node: usize,
    left: Value<K>,
    right: Value<K>,
) -> Result<Next<K>, Stop>
    ensures { Combined K.Number.kind K.Number.value (view table.now.rows.now) node left right result }
{
    let a = left.number_for(node)?;
    let b = right.number_for(node)?;
    let operator = Operator::from(table.node_at(node).argument);
    Ok(Next::Return(Value::Number(operate(operator, a, b))))
}

/// A node is started.
pub fn start<K: Number>(
    table: &Table,
    frames: &mut BoundedStack<Frame<K>>,
    bindings: &BoundedStack<Binding<K>>,
    node: usize,
    scope: usize,
) -> Result<Next<K>, Stop>
    requires { HasPlace frames.old }
    ensures area { SameArea frames.old frames.new }
    ensures step { Started K.Number.kind K.Number.value (view table.now.rows.now) node scope (live frames.old) (live bindings.now) result (live frames.new) }
{
    let row = table.node_at(node);
    match row.kind {
        Kind::Literal => Ok(Next::Return(Value::Number(K::from_whole(whole_of(row.literal))))),
        Kind::Variable => {
            let value = look_up(bindings, row.argument, scope).ok_or(Stop::Stuck { node })?;
            Ok(Next::Return(value))
        }
        Kind::Lambda => Ok(Next::Return(Value::Closure { node, scope })),
        Kind::Application => Ok(pend(frames, node, scope, Stage::Calls, middle_of(table, node))),
        Kind::New => Ok(pend(frames, node, scope, Stage::Creates, last_of(node))),
        Kind::Channel => Ok(Next::Return(Value::Reference(row.argument))),
        Kind::Read => Ok(pend(frames, node, scope, Stage::Reads, last_of(node))),
        Kind::Write => Ok(pend(frames, node, scope, Stage::Targets, middle_of(table, node))),
        Kind::Choice => Ok(pend(frames, node, scope, Stage::Chooses, first_of(table, node))),
        Kind::Operation => Ok(pend(frames, node, scope, Stage::Operates, middle_of(table, node))),
        Kind::Unknown => Err(Stop::Stuck { node }),
    }
}

/// A value comes back to the node that waits for it.
pub fn resume<K: Number>(
    table: &Table,
    frames: &mut BoundedStack<Frame<K>>,
    bindings: &mut BoundedStack<Binding<K>>,
    cells: &mut BoundedStack<Cell<K>>,
    frame: Frame<K>,
    value: Value<K>,
) -> Result<Next<K>, Stop>
    requires { HasPlace frames.old }
    ensures frames_area { SameArea frames.old frames.new }
    ensures bindings_area { SameArea bindings.old bindings.new }
    ensures cells_area { SameArea cells.old cells.new }
    ensures step { Resumed K.Number.kind K.Number.value (view table.now.rows.now) (record { bindings = room bindings.entry.now; cells = room cells.old }) frame value (live frames.old) (live bindings.entry.now) (live cells.old) result (live frames.new) (live bindings.exit.now) (live cells.new) }
{
    let Frame { node, scope, stage } = frame;
    match stage {
        Stage::Chooses => choose(table, frames, node, scope, value),
        Stage::Creates => create(table, cells, node, value),
        Stage::Reads => read(cells, node, value),
        Stage::Calls => Ok(pend(frames, node, scope, Stage::Applies(value), last_of(node))),
        Stage::Applies(callee) => apply(frames, bindings, node, callee, value),
        Stage::Targets => Ok(pend(frames, node, scope, Stage::Writes(value), last_of(node))),
        Stage::Writes(target) => write(cells, node, target, value),
        Stage::Operates => Ok(pend(frames, node, scope, Stage::Combines(value), last_of(node))),
        Stage::Combines(left) => combine(table, node, left, value),
        Stage::Passes => Ok(Next::Return(value)),
    }
}
