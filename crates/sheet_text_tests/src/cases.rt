// How a case is tried.
use sheet::Row;
use sheet_text::{Refusal, read_sheet};
use std::alloc::Global;
use std::process::Abort;
use std::test::Fail;

// The letter and the five numbers of a row.
pub(crate) type Fields = (char, [i64; 5]);

// How many places a table has where the number does not matter: one more than the longest text of
// the tables has rows.
pub(crate) const PLACES: usize = 12;

// What stands in every place before a text is read; no text says such a row.
const UNTOUCHED: Fields = ('?', [-1, -2, -3, -4, -5]);

// The row of these fields.
fn row_of((letter, [a, b, c, d, e]): Fields) -> Row {
    Row {
        letter,
        a,
        b,
        c,
        d,
        e,
    }
}

// Compares a table with the rows at its front and, past them, with what stood there before.
fn check_table(rt: &impl Abort, name: &str, table: &[Row], rows: &[Fields]) {
    for (i, row) in table.iter().enumerate() {
        let fields = rows.get(i).copied().unwrap_or(UNTOUCHED);
        assert_eq!(rt; *row, row_of(fields), "{name}, place {i}");
    }
}

// Reads a text into a table of `room` places: the answer has to be this one, and the table has to
// hold these rows and be untouched past them. The name is told where they differ.
pub(crate) fn check_reading(
    rt: &impl Abort,
    name: &str,
    heap: Global,
    text: &[u8],
    room: usize,
    answer: Result<usize, Refusal>,
    rows: &[Fields],
) -> Result<(), Fail> {
    let mut table = vec![in heap; row_of(UNTOUCHED); room]?;
    assert_eq!(rt; read_sheet(text, table.as_mut_slice()), answer, "{name}");
    assert_eq!(rt; table.len(), room, "{name}");
    check_table(rt, name, table.as_slice(), rows);
    Ok(())
}
