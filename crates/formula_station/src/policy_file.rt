// A policy's file: 'pairs N' or 'clearances N' first, then 'flow A B' lines of a pair list, or
// 'rank LABEL RANK' and 'compartments LABEL SET' lines of clearances, and 'revoke A B' lines last.
use super::files::read_or_tell;
use super::listed::Listed;
use super::policy_lines::Line;
use policy::{Clearances, Narrowed, PairList, Refusal};
use std::{fs, io};
use thiserror::Error;

// Why a line was not taken, as the answer says it.
#[derive(Debug, Drop, Error)]
enum Fault {
    #[error("malformed")]
    Malformed,
    #[error("refused {}", .0.number())]
    Refused(#[from] Refusal),
}

// A policy as far as its file has been read: no more is listed after the first line that revokes.
#[derive(Drop)]
enum Reading {
    Listing(Listed),
    Revoking(Narrowed<Listed>),
}

// A policy from its first line.
fn begun(line: Line) -> Result<Listed, Fault> {
    match line {
        Line::Pairs { labels } => Ok(Listed::Pairs(PairList::new(labels)?)),
        Line::Clearances { labels } => Ok(Listed::Clearances(Clearances::new(labels)?)),
        _ => Err(Fault::Malformed),
    }
}

// Lists what one line more says.
fn list(listed: &mut Listed, line: Line) -> Result<(), Fault> {
    match (listed, line) {
        (Listed::Pairs(pairs), Line::Flow { from, to }) => pairs.allow(from, to)?,
        (Listed::Clearances(clearances), Line::Rank { label, rank }) => {
            clearances.set_rank(label, rank)?
        }
        (Listed::Clearances(clearances), Line::Compartments { label, set }) => {
            clearances.set_compartments(label, set)?
        }
        _ => return Err(Fault::Malformed),
    }
    Ok(())
}

// Takes the pair of one line more away.
fn revoke(policy: &mut Narrowed<Listed>, line: Line) -> Result<(), Fault> {
    let Line::Revoke { from, to } = line else {
        return Err(Fault::Malformed);
    };
    policy.revoke(from, to)?;
    Ok(())
}

impl Reading {
    // From here on pairs are only revoked.
    fn narrowed(self) -> Reading {
        match self {
            Reading::Listing(listed) => Reading::Revoking(Narrowed::new(listed)),
            revoking => revoking,
        }
    }
}

// Reads one line more. The policy is changed where it lies: it has two kibibytes, and to move it at each line
// took longer than to read the line.
fn take_line(reading: &mut Option<Reading>, text: &str) -> Result<(), Fault> {
    let line = text.parse::<Line>().map_err(|_| Fault::Malformed)?;
    if let (Some(Reading::Listing(_)), Line::Revoke { from: _, to: _ }) = (&*reading, line) {
        *reading = reading.take().map(|reading| reading.narrowed());
    }
    match reading {
        None => *reading = Some(Reading::Listing(begun(line)?)),
        Some(Reading::Listing(listed)) => list(listed, line)?,
        Some(Reading::Revoking(policy)) => revoke(policy, line)?,
    }
    Ok(())
}

// Tells of a line that was not taken.
fn tell(rt: &HostRuntime, fault: Fault, number: usize, text: &str) -> io::Result<()> {
    println!(rt; "policy {fault} line {number}")?;
    match fault {
        Fault::Malformed => {
            eprintln!(rt; "line {number} of the policy is no line that may stand there: {text}")
        }
        Fault::Refused(refusal) => {
            let question = refusal.number();
            eprintln!(rt; "question {question}: {refusal} (line {number}: {text})")
        }
    }
}

// The policy that a text says; none where something is wrong with it, and what is told.
fn read(rt: &HostRuntime, text: &str) -> io::Result<Option<Narrowed<Listed>>> {
    let mut reading = None;
    for (line, number) in text.lines().zip(1..) {
        if line.trim().is_empty() {
            continue;
        }
        if let Err(fault) = take_line(&mut reading, line) {
            tell(rt, fault, number, line)?;
            return Ok(None);
        }
    }
    match reading {
        Some(Reading::Listing(listed)) => Ok(Some(Narrowed::new(listed))),
        Some(Reading::Revoking(policy)) => Ok(Some(policy)),
        None => {
            tell(rt, Fault::Malformed, 1, "")?;
            Ok(None)
        }
    }
}

// The policy of a file; none where it was not read to its end, and why is told.
pub(crate) fn open(rt: &HostRuntime, path: &str) -> io::Result<Option<Narrowed<Listed>>> {
    match read_or_tell(rt, path, fs::read_to_string(rt, path))? {
        Some(text) => read(rt, &text),
        None => Ok(None),
    }
}
