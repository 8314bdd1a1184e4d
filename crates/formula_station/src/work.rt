// Work areas of full size for runs, and what a run tells.
use evaluation::{Ending, Stop};
use evaluator::Report;
use machine::{
    Binding, Cell, Frame, MOST_BINDINGS, MOST_CELLS, MOST_PENDING, Stage, Value, WorkAreas,
};
use number::Number;
use std::alloc::{AllocError, Global};
use std::fmt::Display;
use std::io;

// The work areas of a run.
#[derive(Drop)]
pub(crate) struct Areas<K> {
    pending: Vec<Frame<K>>,
    bound: Vec<Binding<K>>,
    held: Vec<Cell<K>>,
}

impl<K> Areas<K> {
    // The areas as a run takes them.
    pub(crate) fn lent(&mut self) -> WorkAreas<'_, K> {
        WorkAreas {
            pending: &mut self.pending,
            bound: &mut self.bound,
            held: &mut self.held,
        }
    }
}

// Work areas of the lengths that are enough for every sheet. What they hold at first is anybody's choice: no
// answer depends on it.
pub(crate) fn new_areas<K: Number>(heap: Global) -> Result<Areas<K>, AllocError> {
    let frame = Frame {
        node: 0,
        scope: 0,
        stage: Stage::Passes,
    };
    let value = Value::Number(K::from_whole(0));
    let binding = Binding {
        function: 0,
        value,
        outer: 0,
    };
    Ok(Areas {
        pending: vec![in heap; frame; MOST_PENDING]?,
        bound: vec![in heap; binding; MOST_BINDINGS]?,
        held: vec![in heap; Cell { site: 0, value }; MOST_CELLS]?,
    })
}

// Tells how a run ended.
pub(crate) fn tell_report<K: Number + Display>(
    rt: &HostRuntime,
    report: Report<K>,
) -> io::Result<()> {
    // The text is the program's own, and is printed at this one place.
    let ending = report.ending.number();
    let number = report.number;
    let steps = report.steps;
    match report.ending {
        Ending::Stopped(Stop::Stuck { node }) => {
            println!(rt; "ended {ending} node {node} number {number} steps {steps}")
        }
        _ => println!(rt; "ended {ending} number {number} steps {steps}"),
    }
}
