// Plays a script of calls over a station, and holds each answer to the one expected.
use admission::{admit, check as check_admission};
use machine::{Binding, Cell, Frame, Stage, Value, WorkAreas};
use number::Millimetres;
use policy::PairList;
use shaping::Draft;
use sheet::Row;
use station::{Question, Station};
use std::process::Abort;
use std::test::*;

// A call of a seat; a run has so many places for pending nodes, bindings and cells.
#[derive(Clone, Copy)]
pub(crate) enum Call {
    Post(usize, usize, i32),
    Read(usize, usize),
    Run(usize, usize, usize, (usize, usize, usize)),
}

// What a call tells where it is granted: of a read the count; of a run the number of its ending, its
// count and its steps.
#[derive(Clone, Copy, Debug, PartialEq, Eq)]
pub(crate) enum Told {
    Posted,
    Held(i32),
    Ran(u8, i32, usize),
}

// What a call tells, or the number of the question that it is refused for.
pub(crate) type Answer = Result<Told, u8>;

// The same stands in other crates of tests: a crate between them would need a contract for it.
fn row(letter: char, a: i64, b: i64, c: i64, d: i64, e: i64) -> Row {
    Row {
        letter,
        a,
        b,
        c,
        d,
        e,
    }
}

// Channel 0 is seat 1's, channel 1 seat 2's, and site 2 is a fresh one. Entry 0, seat 1's, sets channel
// 1 to what channel 0 holds; entry 1, seat 2's, reads channel 1.
pub(crate) fn sheet() -> [Row; 15] {
    [
        row('T', 0, 6, 0, 0, 0),
        row('T', 0, 2, 0, 0, 0),
        row('T', 2, 0, 1, 0, 0),
        row('T', 2, 0, 2, 0, 0),
        row('S', 1, 1, 1, 0, 0),
        row('S', 2, 0, 1, 0, 0),
        row('S', 2, 0, 0, 0, 0),
        row('N', 5, 1, 3, 2, 1),
        row('N', 5, 1, 2, 2, 0),
        row('N', 6, 2, 1, 2, 0),
        row('N', 7, 4, 1, 2, 0),
        row('N', 5, 1, 3, 4, 1),
        row('N', 6, 2, 0, 4, 0),
        row('E', 1, 3, 0, 0, 0),
        row('E', 2, 5, 0, 0, 0),
    ]
}

// Labels 0, 1 and 2: 0 flows to 1, and 1 to 2.
pub(crate) fn in_steps() -> Result<PairList, Fail> {
    let mut policy = PairList::new(3)?;
    policy.allow(0, 1)?;
    policy.allow(1, 2)?;
    Ok(policy)
}

// The number of the question that a call was refused for, where it was refused.
pub(crate) fn refused<T: Drop>(answer: Result<T, Question>) -> Option<u8> {
    answer.err().map(|question| question.number())
}

// Makes a call with work areas of at most the places lent. The three slices come apart, since parts of
// them that are lent out of the fields of one struct get no proof.
fn made(
    station: &mut Station<Millimetres>,
    call: Call,
    pending: &mut [Frame<Millimetres>],
    bound: &mut [Binding<Millimetres>],
    held: &mut [Cell<Millimetres>],
) -> Result<Told, Question> {
    Ok(match call {
        Call::Post(seat, channel, count) => {
            station.post(seat, channel, Millimetres { count })?;
            Told::Posted
        }
        Call::Read(seat, channel) => Told::Held(station.read(seat, channel)?.count),
        Call::Run(seat, entry, fuel, (p, b, c)) => {
            let (p, b) = (p.min(pending.len()), b.min(bound.len()));
            let c = c.min(held.len());
            let mut lent = WorkAreas {
                pending: &mut pending[0..p],
                bound: &mut bound[0..b],
                held: &mut held[0..c],
            };
            let report = station.run(seat, entry, fuel, &mut lent)?;
            Told::Ran(report.ending.number(), report.number.count, report.steps)
        }
    })
}

// Makes calls one by one: each must answer what stands beside it.
fn walk(
    rt: &impl Abort,
    station: &mut Station<Millimetres>,
    calls: &[(Call, Answer)],
    pending: &mut [Frame<Millimetres>],
    bound: &mut [Binding<Millimetres>],
    held: &mut [Cell<Millimetres>],
) -> Result<(), Fail> {
    for (call, answer) in calls {
        let told = made(station, *call, pending, bound, held);
        assert_eq!(rt; told.map_err(|question| question.number()), *answer);
    }
    Ok(())
}

// Makes the calls one by one, over work areas of its own.
pub(crate) fn script(
    rt: &impl Abort,
    station: &mut Station<Millimetres>,
    calls: &[(Call, Answer)],
) -> Result<(), Fail> {
    let value: Value<Millimetres> = Value::Reference(0);
    let stage: Stage<Millimetres> = Stage::Passes;
    let mut pending = [Frame {
        node: 0,
        scope: 0,
        stage,
    }; 1030];
    let mut bound = [Binding {
        function: 0,
        value,
        outer: 0,
    }; 1030];
    let mut held = [Cell { site: 0, value }; 550];
    walk(rt, station, calls, &mut pending, &mut bound, &mut held)
}

// Opens a station over the sheet and plays the scenario: the number of the question that the opening
// is refused for, where it is refused.
pub(crate) fn play<F: FnOnce(&mut Station<Millimetres>) -> Result<(), Fail>>(
    channels: &mut [Millimetres],
    scenario: F,
) -> Result<Option<u8>, Fail>
    requires { F.IsAlwaysCallable scenario }
{
    let rows = sheet();
    let policy = in_steps()?;
    let draft = Draft::new(&rows);
    draft.check()?;
    let shaped = draft.shape();
    check_admission(&shaped, &policy)?;
    let admitted = admit(shaped, &policy);
    if let Err(question) = Station::check(&admitted, channels) {
        return Ok(Some(question.number()));
    }
    let mut station = Station::open(admitted, channels);
    scenario(&mut station)?;
    Ok(None)
}
