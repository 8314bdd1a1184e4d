// Questions 34 and 35 of an operation.
use super::*;

// The sum of two literals.
fn sum() -> [Row; 8] {
    [
        row('T', 0, 2, 0, 0, 0),
        row('T', 0, 6, 0, 0, 0),
        row('T', 2, 0, 1, 0, 0),
        row('S', 1, 0, 1, 0, 0),
        row('N', 0, 1, 0, 2, 5),
        row('N', 0, 1, 0, 2, 6),
        row('N', 9, 3, 0, 2, 0),
        row('E', 1, 2, 0, 0, 0),
    ]
}

#[test]
fn operations(rt: HostRuntime) -> Result<(), Fail> {
    run(
        &rt,
        sum(),
        &[
            (6, ('N', 9, 3, 0, 2, 0), Ok(())),
            (6, ('N', 9, 3, 0, 2, 5), Ok(())),
            // an operand or the node is a reference
            (4, ('N', 5, 1, 2, 2, 0), Err((34, 6))),
            (5, ('N', 5, 1, 2, 2, 0), Err((34, 6))),
            (6, ('N', 9, 3, 2, 2, 0), Err((34, 6))),
            // an operand is 2's too
            (4, ('N', 0, 1, 1, 2, 5), Err((34, 6))),
            (5, ('N', 0, 1, 1, 2, 6), Err((34, 6))),
            (6, ('N', 9, 3, 1, 2, 0), Err((37, 7))),
            // the control set of each part
            (4, ('N', 0, 1, 0, 0, 5), Err((35, 6))),
            (5, ('N', 0, 1, 0, 0, 6), Err((35, 6))),
            (6, ('N', 9, 3, 0, 3, 0), Err((35, 6))),
        ],
    )
}
