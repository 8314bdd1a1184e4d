// Questions 34 and 35 of variables, functions and applications.
use super::*;

// A function that gives its argument, applied to a literal.
fn application() -> [Row; 10] {
    [
        row('T', 0, 2, 0, 0, 0),
        row('T', 0, 6, 0, 0, 0),
        row('T', 1, 0, 0, 0, 2),
        row('T', 2, 0, 1, 0, 0),
        row('S', 1, 0, 1, 0, 0),
        row('N', 1, 1, 0, 2, 1),
        row('N', 2, 2, 2, 2, 0),
        row('N', 0, 1, 0, 2, 5),
        row('N', 3, 4, 0, 2, 0),
        row('E', 1, 3, 0, 0, 0),
    ]
}

#[test]
fn variables(rt: HostRuntime) -> Result<(), Fail> {
    run(
        &rt,
        application(),
        &[
            (5, ('N', 1, 1, 0, 2, 1), Ok(())),
            // the named node is no function
            (6, ('N', 2, 2, 0, 2, 0), Err((34, 5))),
            // its argument is a number, and the variable a reference
            (5, ('N', 1, 1, 3, 2, 1), Err((34, 5))),
            // its argument is 2's too, and the variable is not
            (2, ('T', 1, 0, 1, 0, 2), Err((34, 5))),
        ],
    )
}

#[test]
fn functions(rt: HostRuntime) -> Result<(), Fail> {
    run(
        &rt,
        application(),
        &[
            // the body is 2's too, and the result is not
            (5, ('N', 1, 1, 1, 2, 1), Err((34, 6))),
            // the body's control set has not the effect
            (5, ('N', 1, 1, 0, 0, 1), Err((35, 6))),
            (2, ('T', 1, 0, 0, 0, 6), Err((35, 6))),
            // the function's own control set is not asked of its body
            (6, ('N', 2, 2, 2, 6, 0), Ok(())),
        ],
    )?;
    walk(
        &rt,
        application(),
        &[
            // a function of no variable
            (5, ('N', 0, 1, 0, 2, 5), Ok(())),
            // its type is a number
            (6, ('N', 2, 2, 0, 2, 0), Err((34, 6))),
        ],
    )
}

#[test]
fn applications(rt: HostRuntime) -> Result<(), Fail> {
    run(
        &rt,
        application(),
        &[
            // the argument
            (7, ('N', 0, 1, 1, 2, 5), Err((34, 8))),
            // the function's set within its effect
            (2, ('T', 1, 4, 0, 0, 2), Err((34, 8))),
            (2, ('T', 1, 2, 0, 0, 2), Ok(())),
            // the node's control set within the function's effect
            (8, ('N', 3, 4, 0, 6, 0), Err((34, 8))),
            (2, ('T', 1, 0, 0, 0, 0), Err((34, 8))),
            // the result
            (2, ('T', 1, 0, 0, 1, 2), Err((34, 8))),
            (8, ('N', 3, 4, 3, 2, 0), Err((34, 8))),
            // the parts' control sets
            (6, ('N', 2, 2, 2, 0, 0), Err((35, 8))),
            (7, ('N', 0, 1, 0, 0, 5), Err((35, 8))),
        ],
    )
}

// The argument is a reference.
#[test]
fn applied_to_reference(rt: HostRuntime) -> Result<(), Fail> {
    run(
        &rt,
        application(),
        &[(7, ('N', 5, 1, 3, 2, 0), Err((34, 8)))],
    )
}

#[test]
fn applied_number(rt: HostRuntime) -> Result<(), Fail> {
    walk(
        &rt,
        application(),
        &[
            // the function gives a channel
            (5, ('N', 5, 1, 3, 2, 0), Err((34, 6))),
            // the channel is read, and the number applied
            (6, ('N', 6, 2, 0, 2, 0), Err((34, 8))),
        ],
    )
}

// Who chose the function shows in what it does.
#[test]
fn function_set(rt: HostRuntime) -> Result<(), Fail> {
    walk(
        &rt,
        application(),
        &[
            (8, ('N', 3, 4, 1, 2, 0), Err((37, 9))),
            // the function is 2's, and its effect is not: its result fits all the same
            (2, ('T', 1, 4, 0, 0, 2), Err((34, 8))),
            (2, ('T', 1, 4, 0, 0, 6), Err((35, 6))),
            (5, ('N', 1, 1, 0, 6, 1), Err((37, 9))),
        ],
    )
}

// Who chose the function shows in its result.
#[test]
fn raised_result(rt: HostRuntime) -> Result<(), Fail> {
    walk(
        &rt,
        application(),
        &[
            (2, ('T', 1, 1, 0, 0, 3), Err((35, 6))),
            (5, ('N', 1, 1, 0, 3, 1), Err((34, 8))),
            (1, ('T', 0, 3, 0, 0, 0), Err((34, 8))),
            (8, ('N', 3, 4, 1, 2, 0), Ok(())),
        ],
    )
}
