//! The formula station as a program: reads a sheet and a policy, says what they are, and answers calls.
#![tactic(auto)]

mod call_lines;
mod explain;
mod files;
mod kinds;
mod listed;
mod matrix;
mod numerals;
mod policy_file;
mod policy_lines;
mod sheet_file;
mod station_lines;
mod trial_lines;
mod work;

use std::env;
use std::process::ExitCode;

const HELP: &str =
    "formula_station: a sheet of formulas that several parties share, under a policy of who may see whose data

  formula_station check SHEET.csv POLICY.txt
        reads the sheet, shapes it, reads the policy, and admits the sheet under it
  formula_station run SHEET.csv POLICY.txt KIND
        does the same, opens a station with every channel at 0, and then answers the lines of
        standard input as they come:
            post SEAT CHANNEL NUMBER    sets a channel of the seat's       granted
            read SEAT CHANNEL           reads a channel of the seat's      number X
            run SEAT ENTRY FUEL         runs an entry of the seat's        ended E number X steps S
        a call that is refused is answered 'refused Q', any other line 'malformed'
  formula_station trial SHEET.csv KIND
        reads and shapes the sheet, and then tries its entries with every channel at 0, as the lines
        'trial ENTRY FUEL' of standard input say
  formula_station policy POLICY.txt
        shows which label's data may reach which label
  formula_station --help
        prints this text

KIND is mm (millimetres, whole numbers of 32 bits) or m (metres, decimals of 64 bits).
Answers go to standard output, a line each; what a refusal means goes to standard error in words.
The status is 0 where everything was granted, also where a call was refused, and 1 where a sheet or
a policy was refused, a file could not be read or a command was not understood. docs/ in the
repository has the formats.";

const USAGE: &str =
    "usage: formula_station check SHEET.csv POLICY.txt | run SHEET.csv POLICY.txt KIND | trial SHEET.csv KIND | policy POLICY.txt | --help";

// What a command line asks for.
#[derive(Clone, Copy)]
enum Command<'a> {
    Help,
    Check {
        sheet: &'a str,
        policy: &'a str,
    },
    Run {
        sheet: &'a str,
        policy: &'a str,
        kind: &'a str,
    },
    Trial {
        sheet: &'a str,
        kind: &'a str,
    },
    Policy {
        policy: &'a str,
    },
}

// The command that the words after the program's name say.
fn command_of<'a>(words: &[&'a str]) -> Option<Command<'a>> {
    // No FromStr: it reads one text, and a command is several words, which it borrows.
    match *words {
        ["--help" | "-h" | "help"] => Some(Command::Help),
        ["check", sheet, policy] => Some(Command::Check { sheet, policy }),
        ["run", sheet, policy, kind] => Some(Command::Run {
            sheet,
            policy,
            kind,
        }),
        ["trial", sheet, kind] => Some(Command::Trial { sheet, kind }),
        ["policy", policy] => Some(Command::Policy { policy }),
        _ => None,
    }
}

// Carries a command out: whether everything was granted.
fn run(rt: &HostRuntime, command: Command) -> anyhow::Result<bool> {
    match command {
        Command::Help => {
            println!(rt; "{HELP}")?;
            Ok(true)
        }
        Command::Check { sheet, policy } => sheet_file::check(rt, sheet, policy),
        Command::Run {
            sheet,
            policy,
            kind,
        } => sheet_file::run(rt, sheet, policy, kind),
        Command::Trial { sheet, kind } => trial_lines::run(rt, sheet, kind),
        Command::Policy { policy } => matrix::show(rt, policy),
    }
}

// Does what its arguments ask: status 0 where everything was granted.
fn main(rt: HostRuntime) -> anyhow::Result<ExitCode> {
    // no command has five words, and of more no more is kept
    let args: Vec<String> = env::args(&rt)?.skip(1).take(5).collect(rt.alloc())?;
    let words: Vec<&str> = args.iter().map(|word| word.as_str()).collect(rt.alloc())?;
    let granted = match command_of(&words) {
        Some(command) => run(&rt, command)?,
        None => {
            eprintln!(&rt; "{USAGE}")?;
            false
        }
    };
    Ok(if granted {
        ExitCode::SUCCESS
    } else {
        ExitCode::FAILURE
    })
}
