// Questions 34 and 35 of a new cell.
use super::*;

// A literal is put into a new cell of site 1 and read again.
fn cell() -> [Row; 9] {
    [
        row('T', 0, 2, 0, 0, 0),
        row('T', 0, 6, 0, 0, 0),
        row('T', 2, 0, 2, 0, 0),
        row('S', 1, 0, 1, 0, 0),
        row('S', 2, 1, 0, 0, 0),
        row('N', 0, 1, 0, 6, 7),
        row('N', 4, 2, 2, 6, 1),
        row('N', 6, 3, 1, 6, 0),
        row('E', 2, 2, 0, 0, 0),
    ]
}

#[test]
fn cells(rt: HostRuntime) -> Result<(), Fail> {
    run(
        &rt,
        cell(),
        &[
            (5, ('N', 0, 1, 0, 6, 7), Ok(())),
            (5, ('N', 0, 1, 1, 6, 7), Ok(())),
            // not a reference
            (6, ('N', 4, 2, 1, 6, 1), Err((34, 6))),
            // a reference to another site
            (2, ('T', 2, 0, 1, 0, 0), Err((34, 6))),
            // the part's control set
            (5, ('N', 0, 1, 0, 2, 7), Err((35, 6))),
        ],
    )
}

#[test]
fn form(rt: HostRuntime) -> Result<(), Fail> {
    walk(
        &rt,
        cell(),
        &[
            (2, ('T', 2, 0, 3, 0, 0), Ok(())),
            // a channel is put into a cell for a number
            (5, ('N', 5, 1, 2, 6, 0), Err((34, 6))),
        ],
    )
}

#[test]
fn raised(rt: HostRuntime) -> Result<(), Fail> {
    walk(
        &rt,
        cell(),
        &[
            // the cell is 1's, and is made under control of 1 and 2
            (4, ('S', 1, 0, 0, 0, 0), Err((34, 6))),
            // of 1
            (6, ('N', 4, 2, 2, 2, 1), Err((35, 7))),
            (7, ('N', 6, 3, 1, 2, 0), Err((36, 8))),
            (8, ('E', 1, 2, 0, 0, 0), Err((37, 8))),
            (7, ('N', 6, 3, 0, 2, 0), Ok(())),
            // with a value that is 2's too
            (5, ('N', 0, 1, 1, 6, 7), Err((34, 6))),
        ],
    )
}
