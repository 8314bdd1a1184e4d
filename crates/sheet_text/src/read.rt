ghost use Rattle.std.specs.Prelude.{◌≡◌, length};
ghost use Rattle.sheet_text.specs.Symbols.{symbols};
ghost use Rattle.sheet_text.specs.Grammar.{rows};
ghost use Rattle.sheet_text.specs.Questions.{judged, filled, reading, table_after};
ghost use Rattle.sheet_text.specs.Rows.{faults_with, faults_verdict};

use super::line::Line;
use super::reader::Reader;
use super::refusal::{Question, Refusal};
use sheet::Row;

// The most bytes that a text may have.
const LONGEST: usize = 60_000;

// The first row at fault so far, by question.
#[derive(Clone, Copy, Default)]
struct Faults {
    field_count: Option<usize>,
    letter: Option<usize>,
    number: Option<usize>,
}

impl Faults {
    // With what is asked of one row more.
    fn with(self, line: Line, row: usize) -> Faults
        ensures { result ≡ faults_with self line row }
    {
        Faults {
            field_count: self.field_count.or((line.fields != 6).then_some(row)),
            letter: self.letter.or(line.letter.is_none().then_some(row)),
            number: self.number.or((!line.numeric).then_some(row)),
        }
    }

    // The first question that a row was at fault in, else how many rows there are.
    fn verdict(self, rows: usize) -> Result<usize, Refusal>
        ensures { result ≡ faults_verdict self rows }
    {
        Question::FieldCount.ask(self.field_count)?;
        Question::Letter.ask(self.letter)?;
        Question::Number.ask(self.number)?;
        Ok(rows)
    }
}

// Asks what is asked of the rows, and counts them.
fn survey(input: &[u8]) -> Result<usize, Refusal>
    ensures { result ≡ judged (rows (symbols input.now)) }
{
    let mut reader = Reader::new(input);
    let mut faults = Faults::default();
    while let Some(row) = reader.read_row() {
        let Ok(line) = row else {
            return Err(Question::Quoting.refused_at(reader.rows_read() + 1));
        };
        faults = faults.with(line, reader.rows_read());
    }
    faults.verdict(reader.rows_read())
}

// Writes the rows over the first places of the table.
fn fill(input: &[u8], table: &mut [Row])
    ensures { table.new ≡ filled table.old (rows (symbols input.now)) }
{
    let mut reader = Reader::new(input);
    for place in table.iter_mut() {
        let Some(Ok(line)) = reader.read_row() else {
            return;
        };
        *place = line.row();
    }
}

/// Reads a sheet's text into a table: how many rows it has, or the first question that is answered
/// no and its row. A refused reading leaves the table as it was, and a granted one leaves the places
/// past the rows as they were.
pub fn read_sheet(input: &[u8], table: &mut [Row]) -> Result<usize, Refusal>
    ensures answer { result ≡ reading (length table.old) input.now }
    ensures after { table.new ≡ table_after table.old input.now }
{
    if input.len() > LONGEST {
        return Err(Question::Length.refused_at(1));
    }
    let count = survey(input)?;
    let room = table.len();
    if count > room {
        return Err(Question::Room.refused_at(room + 1));
    }
    fill(input, table);
    Ok(count)
}
