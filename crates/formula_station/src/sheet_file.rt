// A sheet's file: read to its end, shaped, held against a policy, and opened as a station.
use super::files::read_or_tell;
use super::kinds::{Kind, asked_kind};
use super::{explain, policy_file, station_lines};
use admission::{Admitted, Question as Asked};
use number::{Metres, Millimetres};
use policy::Policy;
use shaping::{Draft, Shaped};
use sheet::{Refusal, Row, Table};
use sheet_text::{Refusal as TextRefusal, read_sheet};
use std::fmt::Display;
use std::{fs, io};
use typing::rules::node_type;

// How many rows a sheet may have here.
const ROOM: usize = 1024;

// Tells that a text was refused.
fn tell_reading(rt: &HostRuntime, refusal: TextRefusal) -> io::Result<()> {
    let TextRefusal { question, row } = refusal;
    let number = question.number();
    println!(rt; "reading refused {number} row {row}")?;
    eprintln!(rt; "question {number}: {question} (row {row}, counted from 1)")
}

// A row as it would stand in a text.
fn print_text(rt: &HostRuntime, rows: &[Row], k: usize) -> io::Result<()> {
    // The text is the program's own, and is printed at this one place.
    match rows.get(k) {
        Some(row) => {
            let letter = row.letter;
            let (a, b, c) = (row.a, row.b, row.c);
            let (d, e) = (row.d, row.e);
            eprintln!(rt; "row {k}, counted from 0: {letter},{a},{b},{c},{d},{e}")
        }
        None => eprintln!(rt; "there is no row"),
    }
}

// Tells which question about a row was answered no, and shows the row.
fn tell_row<Q: Display + Drop>(
    rt: &HostRuntime,
    rows: &[Row],
    step: &str,
    number: u8,
    refusal: Refusal<Q>,
) -> io::Result<()> {
    let Refusal { question, row } = refusal;
    println!(rt; "{step} refused {number} row {row}")?;
    eprintln!(rt; "question {number}: {question}")?;
    print_text(rt, rows, row)
}

// Tells which label may not flow to which, for a question about flow.
fn tell_flow<P: Policy>(rt: &HostRuntime, policy: &P, set: usize, to: usize) -> io::Result<()> {
    match explain::barred(policy, set, to) {
        Some(from) => eprintln!(rt; "label {from} may not flow to label {to}"),
        None => Ok(()),
    }
}

// Tells what the rule wanted of the row that was refused.
fn tell_rule<P: Policy>(
    rt: &HostRuntime,
    table: &Table,
    policy: &P,
    refusal: Refusal<Asked>,
) -> io::Result<()> {
    let site = refusal.row.saturating_sub(table.types);
    let node = site.saturating_sub(table.sites);
    let entry = node.saturating_sub(table.nodes);
    match refusal.question {
        Asked::SiteFlow => {
            let x = table.site_at(site);
            tell_flow(rt, policy, table.type_at(x.content).set, x.label)
        }
        Asked::TypeRule => {
            let why = explain::type_rule(table, node);
            eprintln!(rt; "node {node}: {why}")
        }
        Asked::ControlRule => {
            let why = explain::control_rule(table, node);
            eprintln!(rt; "node {node}: {why}")
        }
        Asked::EntryFlow => {
            let x = table.entry_at(entry);
            tell_flow(rt, policy, node_type(table, x.root).set, x.label)
        }
        _ => Ok(()),
    }
}

// Tells that a sheet was not admitted.
fn tell_admission<P: Policy>(
    rt: &HostRuntime,
    table: &Table,
    policy: &P,
    refusal: Refusal<Asked>,
) -> io::Result<()> {
    let number = refusal.question.number();
    tell_row(rt, table.rows, "admission", number, refusal)?;
    tell_rule(rt, table, policy, refusal)
}

// Answers the calls of the input over an admitted sheet: whether a station was opened.
fn serve(rt: &HostRuntime, sheet: Admitted, kind: Kind) -> anyhow::Result<bool> {
    // This match stands in trial_lines too: each arm calls another instance of a generic function.
    match kind {
        Kind::Millimetres => station_lines::serve::<Millimetres>(rt, sheet),
        Kind::Metres => station_lines::serve::<Metres>(rt, sheet),
    }
}

// Tells how many types, sites, nodes and entries there are.
fn tell_counts(rt: &HostRuntime, shaped: &Shaped) -> io::Result<()> {
    // The text is the program's own, and is printed at this one place.
    let counts = shaped.counts();
    let (types, sites) = (counts.types, counts.sites);
    let (nodes, entries) = (counts.nodes, counts.entries);
    println!(rt; "shaped {types} types {sites} sites {nodes} nodes {entries} entries")
}

// The rows of a file; none where they cannot be read, and why is told.
pub(crate) fn read(rt: &HostRuntime, path: &str) -> anyhow::Result<Option<Vec<Row>>> {
    let Some(bytes) = read_or_tell(rt, path, fs::read(rt, path))? else {
        return Ok(None);
    };
    let mut table = vec![in rt.alloc(); Row::BLANK; ROOM]?;
    match read_sheet(&bytes, &mut table) {
        Ok(count) => {
            println!(rt; "read {count} rows")?;
            table.truncate(count);
            Ok(Some(table))
        }
        Err(refusal) => {
            tell_reading(rt, refusal)?;
            Ok(None)
        }
    }
}

// The sheet of the rows; none where it has no lawful shape, and why is told.
pub(crate) fn shape<'a>(rt: &HostRuntime, rows: &'a [Row]) -> io::Result<Option<Shaped<'a>>> {
    let draft = Draft::new(rows);
    if let Err(refusal) = draft.check() {
        let number = refusal.question.number();
        tell_row(rt, rows, "shaping", number, refusal)?;
        return Ok(None);
    }
    let shaped = draft.shape();
    tell_counts(rt, &shaped)?;
    Ok(Some(shaped))
}

// Reads and shapes a sheet, admits it under the policy of a file, and answers calls over it where a kind
// of numbers is given for them: whether everything was granted.
fn admit(rt: &HostRuntime, path: &str, policy: &str, calls: Option<Kind>) -> anyhow::Result<bool> {
    let Some(rows) = read(rt, path)? else {
        return Ok(false);
    };
    let Some(shaped) = shape(rt, &rows)? else {
        return Ok(false);
    };
    let Some(policy) = policy_file::open(rt, policy)? else {
        return Ok(false);
    };
    if let Err(refusal) = admission::check(&shaped, &policy) {
        tell_admission(rt, &shaped.table, &policy, refusal)?;
        return Ok(false);
    }
    let admitted = admission::admit(shaped, &policy);
    println!(rt; "admitted")?;
    match calls {
        Some(kind) => serve(rt, admitted, kind),
        None => Ok(true),
    }
}

// Reads a sheet, shapes it and holds it against a policy: whether everything was granted.
pub(crate) fn check(rt: &HostRuntime, path: &str, policy: &str) -> anyhow::Result<bool> {
    admit(rt, path, policy, None)
}

// Does what a check does, opens a station over the sheet where it is admitted, and answers the calls of
// the input: whether the sheet was granted.
pub(crate) fn run(rt: &HostRuntime, path: &str, policy: &str, kind: &str) -> anyhow::Result<bool> {
    let Some(kind) = asked_kind(rt, kind)? else {
        return Ok(false);
    };
    admit(rt, path, policy, Some(kind))
}
