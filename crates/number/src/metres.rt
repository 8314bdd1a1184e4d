//! Metres, as binary64 numbers of IEEE 754: each operation is the exact result, rounded once.
ghost use Rattle.std.specs.Prelude.{◌≡◌};
ghost use Rattle.number.specs.Metre.{metre_kind};

use crate::Number;
use std::fmt;
use std::num::ParseFloatError;
use std::str::FromStr;

/// A length in metres. `==` is that of IEEE 754: 0 and -0 are equal, and not-a-number equals nothing.
#[derive(Clone, Copy, Debug, PartialEq)]
pub struct Metres {
    pub length: f64,
}

impl Number for Metres {
    ghost kind = { metre_kind };

    ghost value = { λ m. m.length };

    fn from_whole(n: i32) -> Metres {
        Metres {
            length: f64::from(n),
        }
    }

    #[tactic(auto, using(crate::proofs::Floats::equals_zero_lem))]
    fn is_zero(self) -> bool {
        self.length == 0.0
    }

    fn add(self, other: Metres) -> Metres {
        Metres {
            length: self.length + other.length,
        }
    }

    fn subtract(self, other: Metres) -> Metres {
        Metres {
            length: self.length - other.length,
        }
    }

    fn multiply(self, other: Metres) -> Metres {
        Metres {
            length: self.length * other.length,
        }
    }

    fn divide(self, other: Metres) -> Metres {
        Metres {
            length: self.length / other.length,
        }
    }

    #[tactic(auto, using(crate::proofs::Floats::whole_of_bool))]
    fn less(self, other: Metres) -> Metres {
        Metres {
            length: f64::from(self.length < other.length),
        }
    }

    #[tactic(auto, using(crate::proofs::Floats::whole_of_bool))]
    fn equal(self, other: Metres) -> Metres {
        Metres {
            length: f64::from(self.length == other.length),
        }
    }
}

/// The length in decimal digits, as `f64` writes it. No clause states the text, since `f64`'s states none.
impl fmt::Display for Metres {
    fn fmt<W: fmt::Write>(&self, f: &mut fmt::Formatter<W>) -> fmt::Result {
        self.length.fmt(f)
    }
}

/// Reads a length as `f64` does.
impl FromStr for Metres {
    type Err = ParseFloatError;

    ghost use Rattle.number.specs.Words.{ParsesMetres};

    ghost from_str_gives = { ParsesMetres };

    fn from_str(word: &str) -> Result<Metres, ParseFloatError> {
        word.parse::<f64>().map(|length| Metres { length })
    }
}
