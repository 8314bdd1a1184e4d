//! A hundred trials of one sheet: how many steps they make, and to standard error how many nanoseconds
//! the shortest of them took.
#![tactic(auto)]

use evaluator::trial;
use machine::{
    Binding, Cell, Frame, MOST_BINDINGS, MOST_CELLS, MOST_PENDING, Stage, Value, WorkAreas,
};
use number::Millimetres;
use shaping::{Draft, Shaped};
use std::io;
use std::time::Instant;

mod table;

// The steps of one trial, and how many nanoseconds it took; making the work areas is not counted.
fn timed_trial(rt: &HostRuntime, sheet: &Shaped) -> io::Result<(usize, u128)> {
    let value: Value<Millimetres> = Value::Reference(0);
    let stage: Stage<Millimetres> = Stage::Passes;
    let mut pending = [Frame {
        node: 0,
        scope: 0,
        stage,
    }; MOST_PENDING];
    let mut bound = [Binding {
        function: 0,
        value,
        outer: 0,
    }; MOST_BINDINGS];
    let mut held = [Cell { site: 0, value }; MOST_CELLS];
    let mut areas = WorkAreas {
        pending: &mut pending,
        bound: &mut bound,
        held: &mut held,
    };
    let start = Instant::now(rt)?;
    let answer = trial(sheet, 0, 1000000, &mut areas);
    let spent = start.elapsed(rt)?.as_nanos();
    match answer {
        Ok(report) => Ok((report.steps, spent)),
        Err(_) => Ok((0, spent)),
    }
}

// The steps of a hundred trials, and the shortest of them.
fn measure(rt: &HostRuntime, sheet: &Shaped) -> io::Result<()> {
    let (mut steps, mut shortest) = timed_trial(rt, sheet)?;
    for _ in 1..100 {
        let (made, spent) = timed_trial(rt, sheet)?;
        steps = steps.saturating_add(made);
        shortest = shortest.min(spent);
    }
    println!(rt; "{steps} steps")?;
    eprintln!(rt; "one trial: {shortest} ns")
}

fn main(rt: HostRuntime) -> io::Result<()> {
    let rows = table::rows();
    let draft = Draft::new(&rows);
    if let Err(refusal) = draft.check() {
        let row = refusal.row;
        return println!(rt; "refused at row {row}");
    }
    let sheet = draft.shape();
    measure(&rt, &sheet)
}
