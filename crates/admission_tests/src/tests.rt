use super::admitted_rows;
use policy::{PairList, Policy};
use shaping::Draft;
use sheet::Row;
use std::process::Abort;
use std::test::Fail;

mod cells;
mod choices;
mod entries;
mod fitting;
mod functions;
mod labels;
mod operations;
mod sites;
mod worked;

// Stands in sheet_tests too: a crate between would need contracts for what tests alone use.
fn row(letter: char, a: i64, b: i64, c: i64, d: i64, e: i64) -> Row {
    Row {
        letter,
        a,
        b,
        c,
        d,
        e,
    }
}

// Labels 0, 1 and 2: 0 flows to 1, and 1 to 2.
fn in_steps() -> Result<PairList, Fail> {
    let mut policy = PairList::new(3)?;
    policy.allow(0, 1)?;
    policy.allow(1, 2)?;
    Ok(policy)
}

// The three types stand in sheet_tests too: a crate between would need contracts for what tests alone use.
// The fields of a row.
type Fields = (char, i64, i64, i64, i64, i64);

// The number of the first question that is answered no, and the row that it names.
type Verdict = Result<(), (u8, usize)>;

// A row's number, what is put there, and the verdict on the sheet.
type Change = (usize, Fields, Verdict);

// Shapes and admits a sheet.
fn verdict<P: Policy>(rows: &[Row], policy: &P) -> Verdict {
    let draft = Draft::new(rows);
    if let Err(e) = draft.check() {
        return Err((e.question.number(), e.row));
    }
    match admitted_rows(draft.shape(), policy) {
        Ok(_) => Ok(()),
        Err(e) => Err((e.question.number(), e.row)),
    }
}

// Stands in sheet_tests too: a crate between would need contracts for what tests alone use.
fn put(rows: &mut [Row], change: &Change) {
    let (letter, a, b, c, d, e) = change.1;
    if let Some(place) = rows.get_mut(change.0) {
        *place = row(letter, a, b, c, d, e);
    }
}

// Each change is made to the sheet as it stands.
fn run<const N: usize>(rt: &impl Abort, sheet: [Row; N], changes: &[Change]) -> Result<(), Fail> {
    let policy = in_steps()?;
    for c in changes {
        let mut rows = sheet;
        put(&mut rows, c);
        assert_eq!(rt; verdict(&rows, &policy), c.2);
    }
    Ok(())
}

// The changes are made one after the other.
fn walk<const N: usize>(rt: &impl Abort, sheet: [Row; N], changes: &[Change]) -> Result<(), Fail> {
    let policy = in_steps()?;
    let mut rows = sheet;
    for c in changes {
        put(&mut rows, c);
        assert_eq!(rt; verdict(&rows, &policy), c.2);
    }
    Ok(())
}

// The worked sheet: channel 1 is set to what channel 0 holds.
fn sheet_a() -> [Row; 11] {
    [
        row('T', 0, 6, 0, 0, 0),
        row('T', 0, 2, 0, 0, 0),
        row('T', 2, 0, 1, 0, 0),
        row('T', 2, 0, 2, 0, 0),
        row('S', 1, 1, 1, 0, 0),
        row('S', 2, 0, 1, 0, 0),
        row('N', 5, 1, 3, 2, 1),
        row('N', 5, 1, 2, 2, 0),
        row('N', 6, 2, 1, 2, 0),
        row('N', 7, 4, 1, 2, 0),
        row('E', 1, 3, 0, 0, 0),
    ]
}
