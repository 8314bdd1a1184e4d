// The sheets worked through, and questions 34 and 35 of channels, reads and writes.
use super::*;

#[test]
fn worked_sheets(rt: HostRuntime) -> Result<(), Fail> {
    walk(
        &rt,
        sheet_a(),
        &[
            // A
            (0, ('T', 0, 6, 0, 0, 0), Ok(())),
            // B
            (1, ('T', 0, 3, 0, 0, 0), Err((34, 9))),
            // C
            (0, ('T', 0, 7, 0, 0, 0), Err((33, 5))),
        ],
    )
}

// D: 1 does not flow to 2.
#[test]
fn revoked(rt: HostRuntime) -> Result<(), Fail> {
    let mut policy = PairList::new(3)?;
    policy.allow(0, 1)?;
    let rows = sheet_a();
    assert_eq!(rt; verdict(&rows, &policy), Err((33, 5)));
    Ok(())
}

#[test]
fn channels(rt: HostRuntime) -> Result<(), Fail> {
    run(
        &rt,
        sheet_a(),
        &[
            // not a reference
            (6, ('N', 5, 1, 0, 2, 1), Err((34, 6))),
            // a reference to another site
            (6, ('N', 5, 1, 2, 2, 1), Err((34, 6))),
            (3, ('T', 2, 0, 1, 0, 0), Err((34, 6))),
            // to no site
            (2, ('T', 2, 0, 0, 0, 0), Err((34, 7))),
            // to both
            (3, ('T', 2, 0, 3, 0, 0), Ok(())),
        ],
    )
}

#[test]
fn reads(rt: HostRuntime) -> Result<(), Fail> {
    run(
        &rt,
        sheet_a(),
        &[
            // of a number
            (7, ('N', 0, 1, 1, 2, 5), Err((34, 8))),
            // into another form
            (8, ('N', 6, 2, 2, 2, 0), Err((34, 8))),
            // the reference's set is 2's, which the node's type has not
            (2, ('T', 2, 4, 1, 0, 0), Err((34, 8))),
            (2, ('T', 2, 2, 1, 0, 0), Ok(())),
            // one of two sites holds more
            (2, ('T', 2, 0, 3, 0, 0), Err((34, 8))),
            // a wider type than the write then has
            (8, ('N', 6, 2, 0, 2, 0), Err((34, 9))),
        ],
    )
}

#[test]
fn writes(rt: HostRuntime) -> Result<(), Fail> {
    run(
        &rt,
        sheet_a(),
        &[
            // to a number
            (6, ('N', 0, 1, 1, 2, 5), Err((34, 9))),
            // the reference's set
            (3, ('T', 2, 1, 2, 0, 0), Err((34, 9))),
            (3, ('T', 2, 4, 2, 0, 0), Ok(())),
            // the node's control set
            (9, ('N', 7, 4, 1, 1, 0), Err((34, 9))),
            // the node's type
            (9, ('N', 7, 4, 3, 2, 0), Err((34, 9))),
            (9, ('N', 7, 4, 0, 2, 0), Err((37, 10))),
        ],
    )
}

// Each site of the reference is asked.
#[test]
fn two_sites(rt: HostRuntime) -> Result<(), Fail> {
    walk(
        &rt,
        sheet_a(),
        &[
            (9, ('N', 7, 4, 0, 2, 0), Err((37, 10))),
            // the value is 1's and 2's, as what site 1 holds
            (8, ('N', 6, 2, 0, 2, 0), Err((37, 10))),
            // site 0 holds what is 1's alone
            (3, ('T', 2, 0, 3, 0, 0), Err((34, 9))),
        ],
    )
}

// A channel is written to channel 1.
fn written_channel() -> [Row; 10] {
    [
        row('T', 0, 6, 0, 0, 0),
        row('T', 0, 2, 0, 0, 0),
        row('T', 2, 0, 1, 0, 0),
        row('T', 2, 0, 2, 0, 0),
        row('S', 1, 1, 1, 0, 0),
        row('S', 2, 0, 1, 0, 0),
        row('N', 5, 1, 3, 2, 1),
        row('N', 5, 1, 2, 2, 0),
        row('N', 7, 3, 2, 2, 0),
        row('E', 1, 2, 0, 0, 0),
    ]
}

#[test]
fn written_form(rt: HostRuntime) -> Result<(), Fail> {
    walk(
        &rt,
        written_channel(),
        &[
            // the value is a reference, as the node is, and the site holds a number
            (8, ('N', 7, 3, 2, 2, 0), Err((34, 8))),
            // the value is a number, and the node a reference
            (7, ('N', 0, 1, 1, 2, 5), Err((34, 8))),
            (8, ('N', 7, 3, 1, 2, 0), Ok(())),
        ],
    )
}

#[test]
fn control(rt: HostRuntime) -> Result<(), Fail> {
    run(
        &rt,
        sheet_a(),
        &[
            // of a write: its first part, its second
            (6, ('N', 5, 1, 3, 0, 1), Err((35, 9))),
            (8, ('N', 6, 2, 1, 0, 0), Err((35, 9))),
            // of a read
            (7, ('N', 5, 1, 2, 0, 0), Err((35, 8))),
            // more than asked
            (6, ('N', 5, 1, 3, 7, 1), Ok(())),
        ],
    )?;
    walk(
        &rt,
        sheet_a(),
        &[
            // each part of a write under control of two labels
            (9, ('N', 7, 4, 1, 6, 0), Err((35, 9))),
            (6, ('N', 5, 1, 3, 6, 1), Err((35, 9))),
            (8, ('N', 6, 2, 1, 6, 0), Err((35, 8))),
            (7, ('N', 5, 1, 2, 6, 0), Ok(())),
        ],
    )
}

// Both rules are asked of a node before the next node.
#[test]
fn order(rt: HostRuntime) -> Result<(), Fail> {
    walk(
        &rt,
        sheet_a(),
        &[
            // 35 of node 2 comes before 34 of node 3
            (7, ('N', 5, 1, 2, 0, 0), Err((35, 8))),
            (9, ('N', 7, 4, 3, 2, 0), Err((35, 8))),
            (7, ('N', 5, 1, 2, 2, 0), Err((34, 9))),
            // 34 of node 3 comes before its 35
            (6, ('N', 5, 1, 3, 0, 1), Err((34, 9))),
            (9, ('N', 7, 4, 1, 2, 0), Err((35, 9))),
        ],
    )
}
