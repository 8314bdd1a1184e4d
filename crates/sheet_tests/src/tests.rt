use super::shaped_counts;
use shaping::Counts;
use sheet::Row;
use std::alloc::Global;
use std::process::Abort;
use std::test::Fail;

mod entries;
mod letters;
mod nodes;
mod sites;
mod types;

// Stands in admission_tests too: a crate between would need contracts for what tests alone use.
fn row(letter: char, a: i64, b: i64, c: i64, d: i64, e: i64) -> Row {
    Row {
        letter,
        a,
        b,
        c,
        d,
        e,
    }
}

// The worked sheet: channel 1 is set to what channel 0 holds.
fn sheet_a() -> [Row; 11] {
    [
        row('T', 0, 6, 0, 0, 0),
        row('T', 0, 2, 0, 0, 0),
        row('T', 2, 0, 1, 0, 0),
        row('T', 2, 0, 2, 0, 0),
        row('S', 1, 1, 1, 0, 0),
        row('S', 2, 0, 1, 0, 0),
        row('N', 5, 1, 3, 2, 1),
        row('N', 5, 1, 2, 2, 0),
        row('N', 6, 2, 1, 2, 0),
        row('N', 7, 4, 1, 2, 0),
        row('E', 1, 3, 0, 0, 0),
    ]
}

// The three types stand in admission_tests too: a crate between would need contracts for what tests alone use.
// The fields of a row.
type Fields = (char, i64, i64, i64, i64, i64);

// The number of the first question that is answered no, and the row that it names.
type Verdict = Result<(), (u8, usize)>;

// A row's number, what is put there, and the verdict on the sheet.
type Change = (usize, Fields, Verdict);

fn verdict(rows: &[Row]) -> Verdict {
    match shaped_counts(rows) {
        Ok(_) => Ok(()),
        Err(e) => Err((e.question.number(), e.row)),
    }
}

// Stands in admission_tests too: a crate between would need contracts for what tests alone use.
fn put(rows: &mut [Row], change: &Change) {
    let (letter, a, b, c, d, e) = change.1;
    if let Some(place) = rows.get_mut(change.0) {
        *place = row(letter, a, b, c, d, e);
    }
}

// Each change is made to the worked sheet.
fn run(rt: &impl Abort, changes: &[Change]) {
    for c in changes {
        let mut rows = sheet_a();
        put(&mut rows, c);
        assert_eq!(rt; verdict(&rows), c.2);
    }
}

// The changes are made one after the other.
fn walk(rt: &impl Abort, changes: &[Change]) {
    let mut rows = sheet_a();
    for c in changes {
        put(&mut rows, c);
        assert_eq!(rt; verdict(&rows), c.2);
    }
}

#[test]
fn worked_sheet(rt: HostRuntime) -> Result<(), Fail> {
    let counts = Counts {
        types: 4,
        sites: 2,
        nodes: 4,
        entries: 1,
    };
    let rows = sheet_a();
    match shaped_counts(&rows) {
        Ok(c) => {
            assert_eq!(rt; c, counts);
            Ok(())
        },
        Err(_) => Err(Fail::new("refused")),
    }
}
