// Trials of a shaped sheet's entries, a line each.
use super::kinds::{Kind, asked_kind};
use super::numerals::natural;
use super::sheet_file;
use super::work::{new_areas, tell_report};
use evaluator::trial;
use machine::WorkAreas;
use number::{Metres, Millimetres, Number};
use shaping::Shaped;
use std::fmt::Display;
use std::io;
use std::io::{BufRead, BufReader};
use std::str::FromStr;
use thiserror::Error;

// A trial of an entry, as a line 'trial ENTRY FUEL' says it.
#[derive(Clone, Copy)]
struct Trial {
    entry: usize,
    fuel: usize,
}

// A text says no trial of an entry.
#[derive(Debug, Drop, Error)]
#[error("no trial of an entry")]
struct NoTrial;

impl FromStr for Trial {
    type Err = NoTrial;

    // The trial that a text says.
    fn from_str(text: &str) -> Result<Trial, NoTrial> {
        let mut words = text.split_whitespace();
        match (words.next(), words.next(), words.next(), words.next()) {
            (Some("trial"), Some(entry), Some(fuel), None) => Ok(Trial {
                entry: natural(entry).ok_or(NoTrial)?,
                fuel: natural(fuel).ok_or(NoTrial)?,
            }),
            _ => Err(NoTrial),
        }
    }
}

// Answers one line.
fn answer<K: Number + Display>(
    rt: &HostRuntime,
    shaped: &Shaped,
    areas: &mut WorkAreas<K>,
    line: &str,
) -> io::Result<()> {
    let Ok(Trial { entry, fuel }) = line.parse::<Trial>() else {
        println!(rt; "malformed")?;
        return eprintln!(rt; "a trial is 'trial ENTRY FUEL': {line}");
    };
    match trial(shaped, entry, fuel, areas) {
        Ok(report) => tell_report(rt, report),
        Err(refusal) => {
            let number = refusal.number();
            println!(rt; "refused {number}")?;
            eprintln!(rt; "question {number}: {refusal}")
        }
    }
}

// Answers the lines of the input.
fn answers<K: Number + Display + Drop>(rt: &HostRuntime, shaped: &Shaped) -> anyhow::Result<()> {
    let mut areas = new_areas::<K>(rt.alloc())?;
    let mut areas = areas.lent();
    for line in BufReader::new(rt.alloc(), rt.stdin())?.lines(rt.alloc()) {
        let line = line?;
        if !line.trim().is_empty() {
            answer(rt, shaped, &mut areas, &line)?;
        }
    }
    Ok(())
}

// Reads and shapes a sheet, and tries its entries as the input says: whether the sheet was granted.
pub(crate) fn run(rt: &HostRuntime, path: &str, kind: &str) -> anyhow::Result<bool> {
    let Some(kind) = asked_kind(rt, kind)? else {
        return Ok(false);
    };
    let Some(rows) = sheet_file::read(rt, path)? else {
        return Ok(false);
    };
    let Some(shaped) = sheet_file::shape(rt, &rows)? else {
        return Ok(false);
    };
    // This match stands in sheet_file too: each arm calls another instance of a generic function.
    match kind {
        Kind::Millimetres => answers::<Millimetres>(rt, &shaped)?,
        Kind::Metres => answers::<Metres>(rt, &shaped)?,
    }
    Ok(true)
}
