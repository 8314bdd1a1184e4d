use super::play::Call::{Post, Read, Run};
use super::play::Told::{Held, Posted, Ran};
use super::play::{Answer, Call, play, script};
use number::Millimetres;
use std::process::Abort;
use std::test::*;

// Work areas of just enough places.
const FULL: (usize, usize, usize) = (1024, 1024, 544);

// Plays a script over an area of five places, three for the sites and two more, with 9 in each: what
// the five hold in the end.
fn left(rt: &impl Abort, calls: &[(Call, Answer)], counts: [i32; 5]) -> Result<(), Fail> {
    let mut channels = [Millimetres { count: 9 }; 5];
    assert_eq!(rt;
        play(&mut channels, |station| script(rt, station, calls))?,
        None
    );
    for (channel, count) in channels.iter().zip(counts) {
        assert_eq!(rt; channel.count, count);
    }
    Ok(())
}

// Opening sets the sites' places to 0, and leaves the extra ones.
#[test]
fn opening_clears_the_sites_places(rt: HostRuntime) -> Result<(), Fail> {
    left(&rt, &[(Read(1, 0), Ok(Held(0)))], [0, 0, 0, 9, 9])
}

// The worked example: with fuel for three of the four nodes nothing is kept; with fuel for four, it is.
#[test]
fn a_copy_wants_four_steps(rt: HostRuntime) -> Result<(), Fail> {
    left(
        &rt,
        &[
            (Post(1, 0, 250), Ok(Posted)),
            (Run(1, 0, 3, FULL), Ok(Ran(1, 0, 3))),
            (Read(2, 1), Ok(Held(0))),
            (Run(1, 0, 4, FULL), Ok(Ran(0, 250, 4))),
            (Read(2, 1), Ok(Held(250))),
            (Read(1, 1), Err(43)),
            (Run(2, 1, 2, FULL), Ok(Ran(0, 250, 2))),
            (Post(1, 0, -7), Ok(Posted)),
            (Read(2, 1), Ok(Held(250))),
        ],
        [-7, 250, 0, 9, 9],
    )
}

// 42 for what is no channel: a fresh site, and a place past the sites, though the area has it. 42 comes
// before 43: seat 0 has no channel.
#[test]
fn posts_ask_in_order(rt: HostRuntime) -> Result<(), Fail> {
    left(
        &rt,
        &[
            (Post(2, 2, 5), Err(42)),
            (Post(2, 3, 5), Err(42)),
            (Post(0, 2, 5), Err(42)),
            (Post(0, 18446744073709551615, 5), Err(42)),
            (Post(0, 0, 5), Err(43)),
            (Post(2, 0, 5), Err(43)),
            (Post(1, 1, 5), Err(43)),
            (Post(1, 0, 5), Ok(Posted)),
            (Post(2, 1, 2147483647), Ok(Posted)),
        ],
        [5, 2147483647, 0, 9, 9],
    )
}

#[test]
fn reads_ask_in_order(rt: HostRuntime) -> Result<(), Fail> {
    left(
        &rt,
        &[
            (Post(2, 1, -2147483648), Ok(Posted)),
            (Read(2, 2), Err(42)),
            (Read(2, 3), Err(42)),
            (Read(0, 2), Err(42)),
            (Read(1, 1), Err(43)),
            (Read(2, 0), Err(43)),
            (Read(2, 1), Ok(Held(-2147483648))),
        ],
        [0, -2147483648, 0, 9, 9],
    )
}

// Each run but the last fails a question and all that come after it.
#[test]
fn runs_ask_in_order(rt: HostRuntime) -> Result<(), Fail> {
    left(
        &rt,
        &[
            (Post(1, 0, 4), Ok(Posted)),
            (Run(0, 2, 0, (0, 0, 0)), Err(42)),
            (Run(0, 0, 0, (0, 0, 0)), Err(43)),
            (Run(2, 0, 0, (0, 0, 0)), Err(43)),
            (Run(1, 1, 1000001, (0, 0, 0)), Err(43)),
            (Run(1, 0, 0, (0, 0, 0)), Err(44)),
            (Run(1, 0, 1000001, (0, 0, 0)), Err(44)),
            (Run(1, 0, 1000000, (1023, 1024, 544)), Err(45)),
            (Run(1, 0, 1000000, (1024, 1023, 544)), Err(45)),
            (Run(1, 0, 1000000, (1024, 1024, 543)), Err(45)),
            (Read(2, 1), Ok(Held(0))),
            (Run(1, 0, 1000000, FULL), Ok(Ran(0, 4, 4))),
        ],
        [4, 4, 0, 9, 9],
    )
}

// Longer areas change nothing.
#[test]
fn longer_areas_do_as_well(rt: HostRuntime) -> Result<(), Fail> {
    left(
        &rt,
        &[
            (Post(1, 0, 4), Ok(Posted)),
            (Run(1, 0, 1, (1030, 1030, 550)), Ok(Ran(1, 0, 1))),
            (Run(1, 0, 100, (1030, 1030, 550)), Ok(Ran(0, 4, 4))),
        ],
        [4, 4, 0, 9, 9],
    )
}
