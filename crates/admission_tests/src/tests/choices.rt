// Questions 34 and 35 of a choice.
use super::*;

// A choice by one literal between two.
fn choice() -> [Row; 9] {
    [
        row('T', 0, 2, 0, 0, 0),
        row('T', 0, 6, 0, 0, 0),
        row('T', 2, 0, 1, 0, 0),
        row('S', 1, 0, 1, 0, 0),
        row('N', 0, 1, 0, 2, 1),
        row('N', 0, 1, 0, 2, 5),
        row('N', 0, 1, 0, 2, 7),
        row('N', 8, 4, 0, 2, 0),
        row('E', 1, 3, 0, 0, 0),
    ]
}

#[test]
fn choices(rt: HostRuntime) -> Result<(), Fail> {
    run(
        &rt,
        choice(),
        &[
            (4, ('N', 0, 1, 0, 2, 0), Ok(())),
            // the condition is a reference
            (4, ('N', 5, 1, 2, 2, 0), Err((34, 7))),
            // either branch is 2's too
            (5, ('N', 0, 1, 1, 2, 5), Err((34, 7))),
            (6, ('N', 0, 1, 1, 2, 7), Err((34, 7))),
            // either branch is a reference
            (5, ('N', 5, 1, 2, 2, 0), Err((34, 7))),
            (6, ('N', 5, 1, 2, 2, 0), Err((34, 7))),
            // the condition is 2's too
            (4, ('N', 0, 1, 1, 2, 1), Err((34, 7))),
            // the control set of each part
            (4, ('N', 0, 1, 0, 0, 1), Err((35, 7))),
            (5, ('N', 0, 1, 0, 0, 5), Err((35, 7))),
            (6, ('N', 0, 1, 0, 0, 7), Err((35, 7))),
        ],
    )
}

// What the condition shows, the branches do under control of.
#[test]
fn branches(rt: HostRuntime) -> Result<(), Fail> {
    walk(
        &rt,
        choice(),
        &[
            (4, ('N', 0, 1, 1, 2, 1), Err((34, 7))),
            (7, ('N', 8, 4, 1, 2, 0), Err((35, 7))),
            (5, ('N', 0, 1, 0, 6, 5), Err((35, 7))),
            (6, ('N', 0, 1, 0, 6, 7), Err((37, 8))),
            (5, ('N', 0, 1, 0, 2, 5), Err((35, 7))),
            (5, ('N', 0, 1, 0, 6, 5), Err((37, 8))),
            // under control of 2 as well
            (8, ('E', 2, 3, 0, 0, 0), Err((36, 8))),
            (7, ('N', 8, 4, 1, 6, 0), Err((35, 7))),
            (4, ('N', 0, 1, 1, 6, 1), Ok(())),
        ],
    )
}
