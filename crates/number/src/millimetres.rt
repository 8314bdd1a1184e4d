//! Whole millimetres, in 32 bits with a sign. A result out of range is brought to its nearest end.
ghost use Rattle.std.specs.Prelude.{◌≡◌, Some};
ghost use Rattle.std.specs.Fmt.{signed_decimal, styled_signed_decimal};
ghost use Rattle.number.specs.Millimetre.{millimetre_kind, divided};

use crate::Number;
use std::fmt;
use std::num::ParseIntError;
use std::str::FromStr;

/// A length in whole millimetres.
#[derive(Clone, Copy, Debug, PartialEq, Eq)]
pub struct Millimetres {
    pub count: i32,
}

impl Number for Millimetres {
    ghost kind = { millimetre_kind };

    ghost value = { λ m. m.count };

    fn from_whole(n: i32) -> Millimetres {
        Millimetres { count: n }
    }

    fn is_zero(self) -> bool {
        self.count == 0
    }

    fn add(self, other: Millimetres) -> Millimetres {
        Millimetres {
            count: self.count.saturating_add(other.count),
        }
    }

    fn subtract(self, other: Millimetres) -> Millimetres {
        Millimetres {
            count: self.count.saturating_sub(other.count),
        }
    }

    fn multiply(self, other: Millimetres) -> Millimetres {
        Millimetres {
            count: self.count.saturating_mul(other.count),
        }
    }

    fn divide(self, other: Millimetres) -> Millimetres {
        Millimetres {
            count: quotient(self.count, other.count),
        }
    }

    fn less(self, other: Millimetres) -> Millimetres {
        Millimetres {
            count: i32::from(self.count < other.count),
        }
    }

    fn equal(self, other: Millimetres) -> Millimetres {
        Millimetres {
            count: i32::from(self.count == other.count),
        }
    }
}

/// The count in decimal digits, after a minus where it is negative.
impl fmt::Display for Millimetres {
    ghost output = { λ m. Some (signed_decimal m.count) };

    ghost styled_output = { λ m spec. Some (styled_signed_decimal spec m.count) };

    fn fmt<W: fmt::Write>(&self, f: &mut fmt::Formatter<W>) -> fmt::Result {
        self.count.fmt(f)
    }
}

/// Reads a count as `i32` does.
impl FromStr for Millimetres {
    type Err = ParseIntError;

    ghost use Rattle.std.specs.Str.Parse.{ExplainsSignedError};
    ghost use Rattle.number.specs.Words.{ParsesMillimetres};

    ghost from_str_gives = { λ word r. ParsesMillimetres word r × ExplainsSignedError 10 word r };

    fn from_str(word: &str) -> Result<Millimetres, ParseIntError> {
        word.parse::<i32>().map(|count| Millimetres { count })
    }
}

// The quotient without its fraction, and 0 where the divisor is 0.
fn quotient(a: i32, b: i32) -> i32
    ensures { result ≡ divided a b }
{
    if b == 0 {
        return 0;
    }
    a.saturating_div(b)
}
