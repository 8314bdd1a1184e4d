//! Reads sheets over and over: `reader_bench TIMES FILE..`. It writes what reading each came to, and
//! to standard error how many nanoseconds the shortest reading took. The table has 4,000 places.
#![tactic(auto)]

use anyhow::anyhow;
use sheet::Row;
use sheet_text::{Refusal, read_sheet};
use std::time::Instant;
use std::{env, fs, io};

const PLACES: usize = 4000;

// Not `Row::BLANK`: this letter is in the sum that is printed.
const BLANK: Row = Row {
    letter: '?',
    a: 0,
    b: 0,
    c: 0,
    d: 0,
    e: 0,
};

// A sum that tells tables apart.
fn table_sum(table: &[Row]) -> i64 {
    // A `flat_map` to one fold was measured: it took more than twice the time.
    table.iter().fold(0i64, |sum, row| {
        let letter = i64::from(u32::from(row.letter));
        [letter, row.a, row.b, row.c, row.d, row.e]
            .iter()
            .fold(sum, |sum, x| sum.wrapping_mul(31).wrapping_add(*x))
    })
}

// Reads a text: the answer, and how many nanoseconds it took.
fn timed_reading(
    rt: &HostRuntime,
    text: &[u8],
    table: &mut [Row],
) -> io::Result<(Result<usize, Refusal>, u128)> {
    let start = Instant::now(rt)?;
    let answer = read_sheet(text, table);
    Ok((answer, start.elapsed(rt)?.as_nanos()))
}

fn bench_file(rt: &HostRuntime, times: u32, name: &str) -> anyhow::Result<()> {
    let text = fs::read(rt, name)?;
    let mut table = vec![in rt.alloc(); BLANK; PLACES]?;
    let (mut answer, mut shortest) = timed_reading(rt, text.as_slice(), table.as_mut_slice())?;
    for _ in 1..times {
        let (again, spent) = timed_reading(rt, text.as_slice(), table.as_mut_slice())?;
        answer = again;
        shortest = shortest.min(spent);
    }
    let sum = table_sum(table.as_slice());
    match answer {
        Ok(rows) => println!(rt; "{name}: {rows} rows, table {sum}")?,
        Err(Refusal { question, row }) => {
            let number = question.number();
            println!(rt; "{name}: refused {number}, row {row}, table {sum}")?
        }
    }
    eprintln!(rt; "{name}: {shortest} ns")?;
    Ok(())
}

fn run(rt: &HostRuntime) -> anyhow::Result<()> {
    let mut words = env::args(rt)?.skip(1);
    let usage = || anyhow!("usage: reader_bench TIMES FILE..");
    let times: u32 = words.next().ok_or_else(usage)?.as_str().parse()?;
    for name in words {
        bench_file(rt, times, name.as_str())?;
    }
    Ok(())
}

fn main(rt: HostRuntime) -> anyhow::Result<()> {
    run(&rt)
}
