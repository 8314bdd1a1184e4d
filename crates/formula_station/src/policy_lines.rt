// The lines of a policy's file.
use super::numerals::natural;
use std::str::FromStr;
use thiserror::Error;

// A line of the file.
#[derive(Clone, Copy)]
pub(crate) enum Line {
    Pairs { labels: u32 },
    Clearances { labels: u32 },
    Flow { from: u32, to: u32 },
    Rank { label: u32, rank: u8 },
    Compartments { label: u32, set: u32 },
    Revoke { from: u32, to: u32 },
}

// A text is no line of a policy.
#[derive(Debug, Drop, Error)]
#[error("no line of a policy")]
pub(crate) struct NoLine;

// A label, or how many there are: the largest, which is past every limit, where it is past 32 bits.
fn label_of(n: usize) -> u32 {
    u32::try_from(n).unwrap_or(u32::MAX)
}

// The line that a keyword and its numbers say.
fn line_of(keyword: &str, first: usize, second: Option<usize>) -> Result<Line, NoLine> {
    let first = label_of(first);
    match (keyword, second) {
        ("pairs", None) => Ok(Line::Pairs { labels: first }),
        ("clearances", None) => Ok(Line::Clearances { labels: first }),
        ("flow", Some(to)) => Ok(Line::Flow {
            from: first,
            to: label_of(to),
        }),
        ("revoke", Some(to)) => Ok(Line::Revoke {
            from: first,
            to: label_of(to),
        }),
        ("rank", Some(rank)) => Ok(Line::Rank {
            label: first,
            rank: u8::try_from(rank).map_err(|_| NoLine)?,
        }),
        ("compartments", Some(set)) => Ok(Line::Compartments {
            label: first,
            set: u32::try_from(set).map_err(|_| NoLine)?,
        }),
        _ => Err(NoLine),
    }
}

impl FromStr for Line {
    type Err = NoLine;

    // The line that this text is.
    fn from_str(text: &str) -> Result<Line, NoLine> {
        let mut words = text.split_whitespace();
        let keyword = words.next().ok_or(NoLine)?;
        let first = words.next().and_then(natural).ok_or(NoLine)?;
        match (words.next(), words.next()) {
            (None, _) => line_of(keyword, first, None),
            (Some(second), None) => {
                let second = natural(second).ok_or(NoLine)?;
                line_of(keyword, first, Some(second))
            }
            _ => Err(NoLine),
        }
    }
}
