// The lines of standard input that a station takes: calls of its seats.
use super::numerals::natural;
use std::str::FromStr;
use thiserror::Error;

// A call of a seat.
#[derive(Clone, Copy)]
pub(crate) enum Call<K> {
    Post {
        seat: usize,
        channel: usize,
        number: K,
    },
    Read {
        seat: usize,
        channel: usize,
    },
    Run {
        seat: usize,
        entry: usize,
        fuel: usize,
    },
}

// A text says no call of a seat.
#[derive(Debug, Drop, Error)]
#[error("no call of a seat")]
pub(crate) struct NoCall;

impl<K: FromStr> FromStr for Call<K>
where
    K::Err: Drop,
{
    type Err = NoCall;

    // The call that a text says.
    fn from_str(text: &str) -> Result<Call<K>, NoCall> {
        let mut words = text.split_whitespace();
        let name = words.next().ok_or(NoCall)?;
        let seat = words.next().and_then(natural).ok_or(NoCall)?;
        let target = words.next().and_then(natural).ok_or(NoCall)?;
        match (name, words.next(), words.next()) {
            ("post", Some(number), None) => Ok(Call::Post {
                seat,
                channel: target,
                number: number.parse().map_err(|_| NoCall)?,
            }),
            ("read", None, None) => Ok(Call::Read {
                seat,
                channel: target,
            }),
            ("run", Some(fuel), None) => Ok(Call::Run {
                seat,
                entry: target,
                fuel: natural(fuel).ok_or(NoCall)?,
            }),
            _ => Err(NoCall),
        }
    }
}
