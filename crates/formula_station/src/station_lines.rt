// An open station, and the answers to the calls of its seats, a line each.
use super::call_lines::Call;
use super::work::{new_areas, tell_report};
use admission::Admitted;
use evaluator::Report;
use machine::WorkAreas;
use number::Number;
use sheet::Table;
use station::{Question, Station};
use std::fmt::Display;
use std::io;
use std::io::{BufRead, BufReader};
use std::str::{FromStr, from_utf8};

// What a granted call gives.
#[derive(Clone, Copy)]
enum Granted<K> {
    Posted,
    Number(K),
    Ended(Report<K>),
}

// Tells that a line is none of those that a station takes.
fn tell_malformed(rt: &HostRuntime, line: &str) -> io::Result<()> {
    println!(rt; "malformed")?;
    eprintln!(rt;
        "a line is 'post SEAT CHANNEL NUMBER', 'read SEAT CHANNEL' or 'run SEAT ENTRY FUEL': {line}"
    )
}

// Tells which question was answered no, and of what.
fn tell_question(rt: &HostRuntime, question: Question, line: &str) -> io::Result<()> {
    let number = question.number();
    println!(rt; "refused {number}")?;
    eprintln!(rt; "question {number}: {question}: {line}")
}

// Tells what a granted call gave.
fn tell_granted<K: Number + Display>(rt: &HostRuntime, granted: Granted<K>) -> io::Result<()> {
    match granted {
        Granted::Posted => println!(rt; "granted"),
        Granted::Number(number) => println!(rt; "number {number}"),
        Granted::Ended(report) => tell_report(rt, report),
    }
}

// The label of the channel or the entry that a call names.
fn owner<K: Number>(table: &Table, call: Call<K>) -> usize {
    match call {
        Call::Post { channel, .. } | Call::Read { channel, .. } => table.site_at(channel).label,
        Call::Run { entry, .. } => table.entry_at(entry).label,
    }
}

// Tells that a call was refused; where the seat is the wrong one, which is the right one.
fn tell_refused<K: Number>(
    rt: &HostRuntime,
    table: &Table,
    call: Call<K>,
    question: Question,
    line: &str,
) -> io::Result<()> {
    tell_question(rt, question, line)?;
    if question == Question::Seat {
        let label = owner(table, call);
        eprintln!(rt; "its label is {label}")?;
    }
    Ok(())
}

// Makes a call.
fn make<K: Number>(
    station: &mut Station<K>,
    areas: &mut WorkAreas<K>,
    call: Call<K>,
) -> Result<Granted<K>, Question> {
    Ok(match call {
        Call::Post {
            seat,
            channel,
            number,
        } => {
            station.post(seat, channel, number)?;
            Granted::Posted
        }
        Call::Read { seat, channel } => Granted::Number(station.read(seat, channel)?),
        Call::Run { seat, entry, fuel } => Granted::Ended(station.run(seat, entry, fuel, areas)?),
    })
}

// Answers one line.
fn answer<K: Number + Display + FromStr>(
    rt: &HostRuntime,
    table: &Table,
    station: &mut Station<K>,
    areas: &mut WorkAreas<K>,
    line: &str,
) -> io::Result<()>
where
    K::Err: Drop,
{
    if line.trim().is_empty() {
        return Ok(());
    }
    let Ok(call) = line.parse::<Call<K>>() else {
        return tell_malformed(rt, line);
    };
    match make(station, areas, call) {
        Ok(granted) => tell_granted(rt, granted),
        Err(question) => tell_refused(rt, table, call, question, line),
    }
}

// Answers the lines of the input, each before the next is read. Bytes that are no text stand as words
// that are no call.
fn answers<K: Number + Display + FromStr + Drop>(
    rt: &HostRuntime,
    table: &Table,
    station: &mut Station<K>,
) -> anyhow::Result<()>
where
    K::Err: Drop,
{
    let mut areas = new_areas::<K>(rt.alloc())?;
    let mut areas = areas.lent();
    for line in BufReader::new(rt.alloc(), rt.stdin())?.split(rt.alloc(), b'\n') {
        let line = line?;
        let line = from_utf8(&line).unwrap_or("(no text)");
        answer(rt, table, station, &mut areas, line)?;
    }
    Ok(())
}

// Opens a station over an admitted sheet, with a place for each site, and answers the calls of the
// input: whether it was opened.
pub(crate) fn serve<K: Number + Display + FromStr + Drop>(
    rt: &HostRuntime,
    sheet: Admitted,
) -> anyhow::Result<bool>
where
    K::Err: Drop,
{
    let table = sheet.shaped.table;
    let mut channels = vec![in rt.alloc(); K::from_whole(0); table.sites]?;
    let places: &mut [K] = &mut channels;
    if let Err(question) = Station::check(&sheet, places) {
        tell_question(rt, question, "opening")?;
        return Ok(false);
    }
    let mut station = Station::open(sheet, places);
    answers(rt, &table, &mut station)?;
    Ok(true)
}
