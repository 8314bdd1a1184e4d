// The kinds of numbers, as words.
use std::io;
use std::str::FromStr;
use thiserror::Error;

// Which kind of numbers a command asks for.
#[derive(Clone, Copy)]
pub(crate) enum Kind {
    Millimetres,
    Metres,
}

// A word names no kind of numbers.
#[derive(Debug, Drop, Error)]
#[error("the kind of numbers is mm or m")]
pub(crate) struct UnknownKind;

impl FromStr for Kind {
    type Err = UnknownKind;

    fn from_str(word: &str) -> Result<Kind, UnknownKind> {
        match word {
            "mm" => Ok(Kind::Millimetres),
            "m" => Ok(Kind::Metres),
            _ => Err(UnknownKind),
        }
    }
}

// The kind that a command's word names; none where it names none, and why is told.
pub(crate) fn asked_kind(rt: &HostRuntime, word: &str) -> io::Result<Option<Kind>> {
    match word.parse::<Kind>() {
        Ok(kind) => Ok(Some(kind)),
        Err(error) => {
            eprintln!(rt; "formula_station: {error}")?;
            Ok(None)
        }
    }
}
