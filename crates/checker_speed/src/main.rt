//! Shapes and admits sheets over and over: `checker_speed TIMES FILE..`. It writes the verdict on each,
//! under clearances of 32 labels in which every label may flow to every label, and to standard error
//! how many nanoseconds the shortest check took. Reading the file is not counted.
#![tactic(auto)]

use anyhow::anyhow;
use policy::{Clearances, Policy};
use shaping::Draft;
use sheet::Row;
use sheet_text::read_sheet;
use std::time::Instant;
use std::{env, fs, io};

const PLACES: usize = 1024;

// The number of the question that refuses the sheet, and its row; none where it is admitted.
fn verdict_on<P: Policy>(rows: &[Row], policy: &P) -> Option<(u8, usize)> {
    let draft = Draft::new(rows);
    if let Err(refusal) = draft.check() {
        return Some((refusal.question.number(), refusal.row));
    }
    admission::check(&draft.shape(), policy)
        .err()
        .map(|refusal| (refusal.question.number(), refusal.row))
}

// The verdict, and how many nanoseconds it took.
fn timed_check<P: Policy>(
    rt: &HostRuntime,
    rows: &[Row],
    policy: &P,
) -> io::Result<(Option<(u8, usize)>, u128)> {
    let start = Instant::now(rt)?;
    let verdict = verdict_on(rows, policy);
    Ok((verdict, start.elapsed(rt)?.as_nanos()))
}

fn bench_file<P: Policy>(
    rt: &HostRuntime,
    times: u32,
    name: &str,
    policy: &P,
) -> anyhow::Result<()> {
    let text = fs::read(rt, name)?;
    let mut table = vec![in rt.alloc(); Row::BLANK; PLACES]?;
    let Ok(count) = read_sheet(text.as_slice(), table.as_mut_slice()) else {
        return Err(anyhow!("the sheet cannot be read"));
    };
    table.truncate(count);
    let (mut answer, mut shortest) = timed_check(rt, table.as_slice(), policy)?;
    for _ in 1..times {
        let (again, spent) = timed_check(rt, table.as_slice(), policy)?;
        answer = again;
        shortest = shortest.min(spent);
    }
    let (question, row) = answer.unwrap_or((0, 0)); // 0 says that the sheet is admitted
    println!(rt; "{name}: {count} rows, question {question}, row {row}")?;
    eprintln!(rt; "{name}: {shortest} ns")?;
    Ok(())
}

fn run(rt: &HostRuntime) -> anyhow::Result<()> {
    let mut words = env::args(rt)?;
    let _ = words.next();
    let Some(times) = words.next() else {
        return Err(anyhow!("usage: checker_speed TIMES FILE.."));
    };
    let times = times.as_str().parse::<u32>()?;
    let Ok(policy) = Clearances::new(32) else {
        return Err(anyhow!("no policy"));
    };
    for name in words {
        bench_file(rt, times, name.as_str(), &policy)?;
    }
    Ok(())
}

fn main(rt: HostRuntime) -> anyhow::Result<()> {
    run(&rt)
}
