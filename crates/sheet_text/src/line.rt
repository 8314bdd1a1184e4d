ghost use Rattle.std.specs.Prelude.{◌≡◌};
ghost use Rattle.sheet_text.specs.Rows.{blank as no_fields, taken, row_in};

use super::field::{letter_of, number_of};
use sheet::Row;

// What the fields of a row say, as they are read one by one. A row may be at fault in several ways, each of
// which is asked of all rows before the next, so what is known of each stands beside the others. There is no
// heap here, so the values are an array.
#[derive(Clone, Copy)]
pub(crate) struct Line {
    // how many fields there are; seven stands for more than six
    pub(crate) fields: usize,
    // the letter that the first one is
    pub(crate) letter: Option<char>,
    // whether each of the others is a number
    pub(crate) numeric: bool,
    // the numbers of the five after the first
    values: [i64; 5],
}

impl Line {
    // No field yet.
    pub(crate) fn blank() -> Line
        ensures { result ≡ no_fields }
    {
        Line {
            fields: 0,
            letter: None,
            numeric: true,
            values: [0; 5],
        }
    }

    // Takes one field more.
    pub(crate) fn take(&mut self, field: &[u8])
        ensures { self.new ≡ taken self.old field.now }
    {
        let fields = self.fields;
        if fields == 0 {
            self.letter = letter_of(field);
            self.fields = 1;
            return;
        }
        let number = number_of(field);
        self.numeric &= number.is_some();
        self.fields = fields.min(6) + 1;
        // by index, since of what `get_mut` lends a proof knows no element afterwards
        if fields <= self.values.len() {
            self.values[fields - 1] = number.unwrap_or(0);
        }
    }

    // The row that the fields say.
    pub(crate) fn row(&self) -> Row
        ensures { result ≡ row_in self.now }
    {
        let [a, b, c, d, e] = self.values;
        Row {
            letter: self.letter.unwrap_or('\0'),
            a,
            b,
            c,
            d,
            e,
        }
    }
}
