use super::sheets;
use evaluation::{Ending, Stop};
use evaluator::{Report, trial};
use machine::{Binding, Cell, Frame, Stage, Value, WorkAreas};
use number::{Metres, Millimetres};
use shaping::Draft;
use sheet::Row;
use std::process::Abort;
use std::test::Fail;

// What a run came to: the number of its ending, its number, its steps, and the node that it is stuck
// at, where it is stuck.
type Ran = (u8, i32, usize, Option<usize>);

// What a trial came to, or the number of its refusal.
type Told = Result<Ran, u8>;

fn node_of(ending: Ending) -> Option<usize> {
    match ending {
        Ending::Stopped(Stop::Stuck { node }) => Some(node),
        _ => None,
    }
}

fn ran(report: Report<Millimetres>) -> Ran {
    (
        report.ending.number(),
        report.number.count,
        report.steps,
        node_of(report.ending),
    )
}

// A trial in millimetres, with as many places for pending nodes as asked for, at most 1,030.
fn tried_with(rows: &[Row], entry: usize, fuel: usize, places: usize) -> Result<Told, Fail> {
    let draft = Draft::new(rows);
    draft.check()?;
    let sheet = draft.shape();
    let value: Value<Millimetres> = Value::Reference(0);
    let stage: Stage<Millimetres> = Stage::Passes;
    let mut pending = [Frame {
        node: 0,
        scope: 0,
        stage,
    }; 1030];
    let mut bound = [Binding {
        function: 0,
        value,
        outer: 0,
    }; 1030];
    let mut held = [Cell { site: 0, value }; 550];
    let mut areas = WorkAreas {
        pending: &mut pending[0..places.min(1030)],
        bound: &mut bound,
        held: &mut held,
    };
    Ok(match trial(&sheet, entry, fuel, &mut areas) {
        Ok(report) => Ok(ran(report)),
        Err(refusal) => Err(refusal.number()),
    })
}

// One trial, and what it must come to.
fn expect(
    rt: &impl Abort,
    rows: &[Row],
    entry: usize,
    fuel: usize,
    answer: Told,
) -> Result<(), Fail> {
    assert_eq!(rt; tried_with(rows, entry, fuel, 1030)?, answer);
    Ok(())
}

// One trial whose run is not stuck: the number of its ending, its number and its steps.
pub(crate) fn ends(
    rt: &impl Abort,
    rows: &[Row],
    entry: usize,
    fuel: usize,
    (ending, count, steps): (u8, i32, usize),
) -> Result<(), Fail> {
    expect(rt, rows, entry, fuel, Ok((ending, count, steps, None)))
}

#[test]
fn a_literal_is_one_step(rt: HostRuntime) -> Result<(), Fail> {
    ends(&rt, &sheets::number(), 0, 1, (0, 7, 1))?;
    ends(&rt, &sheets::negative(), 0, 1, (0, -7, 1))
}

#[test]
fn parts_are_evaluated_first_to_last(rt: HostRuntime) -> Result<(), Fail> {
    ends(&rt, &sheets::difference(), 0, 100, (0, 42, 9))?;
    ends(&rt, &sheets::quotient(), 0, 100, (0, 3, 3))?;
    ends(&rt, &sheets::write_then_read(), 0, 100, (0, 4, 7))
}

#[test]
fn a_function_binds_its_argument(rt: HostRuntime) -> Result<(), Fail> {
    ends(&rt, &sheets::double(), 0, 100, (0, 42, 6))?;
    ends(&rt, &sheets::stored_function(), 0, 100, (0, 60, 12))
}

#[test]
fn a_choice_takes_one_branch(rt: HostRuntime) -> Result<(), Fail> {
    ends(&rt, &sheets::choice_zero(), 0, 100, (0, 2, 3))?;
    ends(&rt, &sheets::choice_one(), 0, 100, (0, 1, 3))
}

#[test]
fn cells_are_made_read_and_written(rt: HostRuntime) -> Result<(), Fail> {
    ends(&rt, &sheets::read_new(), 0, 100, (0, 9, 3))?;
    ends(&rt, &sheets::write_channel(), 0, 100, (0, 4, 3))
}

#[test]
fn other_values_than_numbers_are_told_as_such(rt: HostRuntime) -> Result<(), Fail> {
    ends(&rt, &sheets::function(), 0, 100, (6, 0, 1))?;
    ends(&rt, &sheets::reference(), 0, 100, (6, 0, 1))
}

#[test]
fn a_wrong_form_is_stuck_at_its_node(rt: HostRuntime) -> Result<(), Fail> {
    expect(
        &rt,
        &sheets::applied_number(),
        0,
        100,
        Ok((5, 0, 3, Some(2))),
    )?;
    expect(&rt, &sheets::read_number(), 0, 100, Ok((5, 0, 2, Some(1))))?;
    expect(&rt, &sheets::write_number(), 0, 100, Ok((5, 0, 3, Some(2))))?;
    expect(
        &rt,
        &sheets::choice_of_function(),
        0,
        100,
        Ok((5, 0, 2, Some(4))),
    )?;
    expect(
        &rt,
        &sheets::sum_with_reference(),
        0,
        100,
        Ok((5, 0, 3, Some(2))),
    )
}

#[test]
fn questions_are_asked_in_order(rt: HostRuntime) -> Result<(), Fail> {
    expect(&rt, &sheets::number(), 1, 0, Err(42))?;
    expect(&rt, &sheets::number(), 0, 0, Err(44))?;
    ends(&rt, &sheets::number(), 0, 1000000, (0, 7, 1))?;
    expect(&rt, &sheets::number(), 0, 1000001, Err(44))?;
    assert_eq!(rt; tried_with(&sheets::number(), 0, 1, 1023)?, Err(45));
    assert_eq!(rt;
        tried_with(&sheets::number(), 0, 1, 1024)?,
        Ok((0, 7, 1, None))
    );
    Ok(())
}

// A trial in metres: the length that it comes to.
fn length_of(rows: &[Row]) -> Result<f64, Fail> {
    let draft = Draft::new(rows);
    draft.check()?;
    let sheet = draft.shape();
    let value: Value<Metres> = Value::Reference(0);
    let stage: Stage<Metres> = Stage::Passes;
    let mut pending = [Frame {
        node: 0,
        scope: 0,
        stage,
    }; 1024];
    let mut bound = [Binding {
        function: 0,
        value,
        outer: 0,
    }; 1024];
    let mut held = [Cell { site: 0, value }; 544];
    let mut areas = WorkAreas {
        pending: &mut pending,
        bound: &mut bound,
        held: &mut held,
    };
    let report = trial(&sheet, 0, 100, &mut areas)?;
    Ok(report.number.length)
}

#[test]
fn metres_keep_the_fraction(rt: HostRuntime) -> Result<(), Fail> {
    let length = length_of(&sheets::quotient())?;
    assert!(rt; length == 3.5);
    Ok(())
}
