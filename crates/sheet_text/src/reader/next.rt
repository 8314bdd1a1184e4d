ghost use Rattle.std.specs.Prelude.{◌≡◌, ◌+◌, ◌^◌, ◌<◌, length};
ghost use Rattle.sheet_text.specs.declared.reader.Misquoted.{Misquoted};
ghost use Rattle.sheet_text.specs.Symbols.{symbols};
ghost use Rattle.sheet_text.specs.Grammar.{rows};
ghost use Rattle.sheet_text.specs.Rows.{rows_from, next as what_comes, after, rows_read, RowRead};

use super::{Misquoted, Reader};
use crate::line::Line;
use crate::scan::{Mark, next_field};

// Reads the fields of the row that begins at `start`: what they say, and where the next row begins.
fn read_fields(input: &[u8], start: usize) -> Result<(Line, usize), Misquoted>
    requires { start < length input.now }
    ensures { RowRead input.now start result }
{
    let mut line = Line::blank();
    // a place and not a slice that gets shorter, since each field tells its place in the input
    let mut at = start;
    loop {
        let step = next_field(&input[at..], at).ok_or(Misquoted)?;
        line.take(step.field.bytes());
        at += step.size;
        if let Mark::RowEnd = step.mark {
            return Ok((line, at));
        }
    }
}

impl<'a> Reader<'a> {
    // At the beginning of the text.
    pub(crate) fn new(input: &'a [u8]) -> Reader<'a>
        ensures rest { rows_from result ≡ rows (symbols input.now) }
        ensures row { result.row ≡ 0 }
    {
        Reader {
            input,
            pos: 0,
            row: 0,
        }
    }

    // How many rows have been read.
    pub(crate) fn rows_read(&self) -> usize
        ensures { result ≡ self.now.row }
    {
        self.row
    }

    // Reads the next row. Where its quoting is wrong, the reader stays before it: it has no end that
    // an `Iterator` could promise, since it gives that answer again at each call.
    pub(crate) fn read_row(&mut self) -> Option<Result<Line, Misquoted>>
        ensures value { result ≡ what_comes (rows_from self.old) }
        ensures rest { rows_from self.new ≡ after (rows_from self.old) }
        ensures row { self.new.row ≡ self.old.row + rows_read result }
        ensures room { (m : Misquoted) → result ≡ Some (Err m) → self.new.row + 1 < 2 ^ 64 }
    {
        if self.pos >= self.input.len() {
            return None;
        }
        match read_fields(self.input, self.pos) {
            Ok((line, end)) => {
                self.pos = end;
                self.row += 1;
                Some(Ok(line))
            }
            Err(misquoted) => Some(Err(misquoted)),
        }
    }
}
