ghost use Rattle.std.specs.Prelude.{◌≡◌, MatchOption};
ghost use Rattle.sheet_text.specs.Questions.{number_of};

use thiserror::Error;

/// What is asked of a text, in this order, each over all its rows before the next.
#[derive(Clone, Copy, PartialEq, Eq, Debug, Error)]
pub enum Question {
    /// Has it at most 60,000 bytes?
    #[error("the text has more than 60,000 bytes")]
    Length,
    /// Is quoting as RFC 4180 has it?
    #[error("quoting is wrong in this row: a quotation mark stands inside a bare field, a byte follows a closing one, or the last one is never closed")]
    Quoting,
    /// Has each row six fields?
    #[error("this row has not six fields: a letter and five numbers, with commas between them")]
    FieldCount,
    /// Is each row's first field one of the single letters T, S, N, E?
    #[error("the first field of this row is not one of the letters T, S, N, E")]
    Letter,
    /// Is every other field a whole number from -2^31 to 2^32 - 1, in at most ten digits?
    #[error("a field of this row is no whole number from -2147483648 to 4294967295 in at most ten digits")]
    Number,
    /// Does the table hold all rows?
    #[error("this row is the first one too many: a sheet has at most 1,024 rows here")]
    Room,
}

impl Question {
    // The number by which the question is known.
    pub fn number(self) -> u8
        ensures { result ≡ number_of self }
    {
        match self {
            Question::Length => 10,
            Question::Quoting => 11,
            Question::FieldCount => 12,
            Question::Letter => 13,
            Question::Number => 14,
            Question::Room => 16,
        }
    }

    // Refuses at this row.
    pub(crate) fn refused_at(self, row: usize) -> Refusal
        ensures { result ≡ record { question = self; row = row } }
    {
        Refusal {
            question: self,
            row,
        }
    }

    // Refuses at the row that was answered no, where there is one.
    pub(crate) fn ask(self, row: Option<usize>) -> Result<(), Refusal>
        ensures { MatchOption row (result ≡ Ok tt) (λ k. result ≡ Err (record { question = self; row = k })) }
    {
        row.map_or(Ok(()), |row| Err(self.refused_at(row)))
    }
}

/// A question that was answered no, and the row that it was answered no for, counted from 1 as a text's lines
/// are (a sheet's rows are counted from 0).
#[derive(Clone, Copy, PartialEq, Eq, Debug, Error)]
#[error("question {number} at row {row}", number = self.question.number())]
pub struct Refusal {
    pub question: Question,
    pub row: usize,
}
