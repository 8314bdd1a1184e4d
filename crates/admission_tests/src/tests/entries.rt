// Questions 36 and 37, and question 34 of a literal.
use super::*;

// An entry of label 1 that gives a literal.
fn literal() -> [Row; 6] {
    [
        row('T', 0, 2, 0, 0, 0),
        row('T', 0, 2, 0, 0, 0),
        row('T', 2, 0, 1, 0, 0),
        row('S', 1, 0, 1, 0, 0),
        row('N', 0, 1, 1, 2, 5),
        row('E', 1, 0, 0, 0, 0),
    ]
}

#[test]
fn roots(rt: HostRuntime) -> Result<(), Fail> {
    run(
        &rt,
        literal(),
        &[
            // the entry's label in the root's control set
            (4, ('N', 0, 1, 1, 2, 5), Ok(())),
            (4, ('N', 0, 1, 1, 0, 5), Err((36, 5))),
            (4, ('N', 0, 1, 1, 5, 5), Err((36, 5))),
            (4, ('N', 0, 1, 1, 7, 5), Ok(())),
            (5, ('E', 0, 0, 0, 0, 0), Err((36, 5))),
            (5, ('E', 2, 0, 0, 0, 0), Err((36, 5))),
            // a root that is a reference
            (4, ('N', 5, 1, 2, 2, 0), Err((36, 5))),
        ],
    )?;
    run(
        &rt,
        sheet_a(),
        &[
            (9, ('N', 7, 4, 1, 0, 0), Err((36, 10))),
            (10, ('E', 2, 3, 0, 0, 0), Err((36, 10))),
        ],
    )
}

#[test]
fn results(rt: HostRuntime) -> Result<(), Fail> {
    run(
        &rt,
        literal(),
        &[
            (1, ('T', 0, 0, 0, 0, 0), Ok(())),
            (1, ('T', 0, 3, 0, 0, 0), Ok(())),
            (1, ('T', 0, 4, 0, 0, 0), Err((37, 5))),
            (1, ('T', 0, 6, 0, 0, 0), Err((37, 5))),
            (1, ('T', 0, 7, 0, 0, 0), Err((37, 5))),
        ],
    )?;
    walk(
        &rt,
        literal(),
        &[
            // 1 does not flow to 0
            (4, ('N', 0, 1, 1, 1, 5), Err((36, 5))),
            (5, ('E', 0, 0, 0, 0, 0), Err((37, 5))),
            (1, ('T', 0, 1, 0, 0, 0), Ok(())),
            // 0 does not flow to 2
            (4, ('N', 0, 1, 1, 4, 5), Err((36, 5))),
            (5, ('E', 2, 0, 0, 0, 0), Err((37, 5))),
            (1, ('T', 0, 6, 0, 0, 0), Ok(())),
        ],
    )
}

#[test]
fn literals(rt: HostRuntime) -> Result<(), Fail> {
    run(
        &rt,
        literal(),
        &[
            // a reference
            (4, ('N', 0, 1, 2, 2, 5), Err((34, 4))),
            // a function
            (1, ('T', 1, 2, 0, 0, 0), Err((34, 4))),
        ],
    )
}
