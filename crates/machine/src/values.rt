//! What the machine holds. The machine owns no heap, so an environment is a place in the stack of bindings:
//! place 0 is the empty one, and place k + 1 is the one whose innermost binding is binding k.
ghost use Rattle.std.specs.Prelude.{◌≡◌};
ghost use Rattle.machine.specs.Wanted.{number_for, address_for};

use evaluation::Stop;

/// A number, a function node with the environment that it was made in, or the address of a cell.
#[derive(Clone, Copy)]
pub enum Value<K> {
    Number(K),
    Closure { node: usize, scope: usize },
    Reference(usize),
}

impl<K: Copy> Value<K> {
    // The number, where node `node` waits for one.
    pub(crate) fn number_for(self, node: usize) -> Result<K, Stop>
        ensures { result ≡ number_for node self }
    {
        match self {
            Value::Number(n) => Ok(n),
            _ => Err(Stop::Stuck { node }),
        }
    }

    // The address, where node `node` waits for one.
    pub(crate) fn address_for(self, node: usize) -> Result<usize, Stop>
        ensures { result ≡ address_for node self }
    {
        match self {
            Value::Reference(address) => Ok(address),
            _ => Err(Stop::Stuck { node }),
        }
    }
}

/// The value of a function's argument, and the environment around it.
#[derive(Clone, Copy)]
pub struct Binding<K> {
    pub function: usize,
    pub value: Value<K>,
    pub outer: usize,
}

/// The site that the cell was made at, and what it holds.
#[derive(Clone, Copy)]
pub struct Cell<K> {
    pub site: usize,
    pub value: Value<K>,
}

/// What a pending node does with the value that it waits for. A closure in its place would own what it
/// captured, and the stack of pending nodes is fixed memory: so what is captured is a field here.
#[derive(Clone, Copy)]
pub enum Stage<K> {
    Chooses,
    Creates,
    Reads,
    Calls,
    Applies(Value<K>),
    Targets,
    Writes(Value<K>),
    Operates,
    Combines(Value<K>),
    Passes,
}

/// A pending node, and the environment that it was started in.
#[derive(Clone, Copy)]
pub struct Frame<K> {
    pub node: usize,
    pub scope: usize,
    pub stage: Stage<K>,
}

/// What the machine does next, unless it stops.
#[derive(Clone, Copy)]
pub enum Next<K> {
    Start { node: usize, scope: usize },
    Return(Value<K>),
}

/// What a run comes to, with the steps that it made.
#[derive(Clone, Copy)]
pub struct Outcome<K> {
    pub answer: Result<Value<K>, Stop>,
    pub steps: usize,
}
