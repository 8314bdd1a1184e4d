// Questions 25 and 26.
use super::*;

#[test]
fn fields(rt: HostRuntime) {
    run(
        &rt,
        &[
            // the kind
            (6, ('N', 10, 1, 3, 2, 0), Err((25, 6))),
            (6, ('N', -1, 1, 3, 2, 0), Err((25, 6))),
            // the type
            (6, ('N', 5, 1, 4, 2, 1), Err((25, 6))),
            (6, ('N', 5, 1, -1, 2, 1), Err((25, 6))),
            // the control set
            (6, ('N', 5, 1, 3, 4294967295, 1), Ok(())),
            (6, ('N', 5, 1, 3, 4294967296, 1), Err((25, 6))),
            (6, ('N', 5, 1, 3, -1, 1), Err((25, 6))),
        ],
    );
}

#[test]
fn arguments(rt: HostRuntime) {
    run(
        &rt,
        &[
            // a literal
            (6, ('N', 0, 1, 3, 2, 2147483647), Ok(())),
            (6, ('N', 0, 1, 3, 2, 2147483648), Err((25, 6))),
            (6, ('N', 0, 1, 3, 2, -2147483648), Ok(())),
            (6, ('N', 0, 1, 3, 2, -2147483649), Err((25, 6))),
            (6, ('N', 0, 1, 3, 2, i64::MIN), Err((25, 6))),
            // a variable names a node
            (7, ('N', 1, 1, 2, 2, 4), Err((25, 7))),
            (7, ('N', 1, 1, 2, 2, -1), Err((25, 7))),
            // no argument
            (8, ('N', 2, 2, 1, 2, 0), Ok(())),
            (8, ('N', 2, 2, 1, 2, 1), Err((25, 8))),
            (9, ('N', 3, 4, 1, 2, 0), Ok(())),
            (9, ('N', 3, 4, 1, 2, 1), Err((25, 9))),
            (8, ('N', 6, 2, 1, 2, 1), Err((25, 8))),
            (9, ('N', 7, 4, 1, 2, -1), Err((25, 9))),
            // a site of the right flag
            (8, ('N', 4, 2, 1, 2, 0), Err((25, 8))),
            (6, ('N', 5, 1, 3, 2, 2), Err((25, 6))),
            (6, ('N', 5, 1, 3, 2, -1), Err((25, 6))),
            // an operation
            (9, ('N', 9, 4, 1, 2, 0), Ok(())),
            (9, ('N', 9, 4, 1, 2, 5), Ok(())),
            (9, ('N', 9, 4, 1, 2, 6), Err((25, 9))),
            (9, ('N', 9, 4, 1, 2, -1), Err((25, 9))),
        ],
    );
}

#[test]
fn sizes(rt: HostRuntime) {
    run(
        &rt,
        &[
            (8, ('N', 6, 1, 1, 2, 0), Err((25, 8))),
            (8, ('N', 6, 3, 1, 2, 0), Err((25, 8))),
            (8, ('N', 6, 0, 1, 2, 0), Err((25, 8))),
            (8, ('N', 6, -1, 1, 2, 0), Err((25, 8))),
            (8, ('N', 6, i64::MIN, 1, 2, 0), Err((25, 8))),
            (9, ('N', 7, 3, 1, 2, 0), Err((25, 9))),
            (9, ('N', 7, 5, 1, 2, 0), Err((25, 9))),
            (9, ('N', 7, i64::MAX, 1, 2, 0), Err((25, 9))),
            (6, ('N', 5, 0, 3, 2, 1), Err((25, 6))),
            (6, ('N', 5, 2, 3, 2, 1), Err((25, 6))),
            // No part stands before node 0.
            (6, ('N', 6, 1, 3, 2, 0), Err((25, 6))),
            (6, ('N', 6, 2, 3, 2, 0), Err((25, 6))),
            (7, ('N', 7, 2, 2, 2, 0), Err((25, 7))),
            (7, ('N', 8, 2, 2, 2, 0), Err((25, 7))),
            (9, ('N', 8, 4, 1, 2, 0), Err((25, 9))),
            (9, ('N', 8, 5, 1, 2, 0), Err((25, 9))),
        ],
    );
}

// A fresh site takes a `new`, and is no channel.
#[test]
fn fresh_site(rt: HostRuntime) {
    walk(
        &rt,
        &[
            (4, ('S', 1, 1, 0, 0, 0), Err((25, 7))),
            (7, ('N', 0, 1, 2, 2, 7), Ok(())),
            (8, ('N', 4, 2, 1, 2, 0), Ok(())),
            (8, ('N', 4, 2, 1, 2, 1), Err((25, 8))),
            (8, ('N', 4, 2, 1, 2, 2), Err((25, 8))),
            (8, ('N', 4, 1, 1, 2, 0), Err((25, 8))),
        ],
    );
}

// Three channel nodes are the parts of a choice.
#[test]
fn choice(rt: HostRuntime) {
    walk(
        &rt,
        &[
            (8, ('N', 5, 1, 2, 2, 0), Err((25, 9))),
            (9, ('N', 8, 4, 1, 2, 0), Ok(())),
            (9, ('N', 8, 4, 1, 2, 1), Err((25, 9))),
            (9, ('N', 8, 3, 1, 2, 0), Err((25, 9))),
            (9, ('N', 8, 5, 1, 2, 0), Err((25, 9))),
        ],
    );
}

#[test]
fn variables(rt: HostRuntime) {
    walk(
        &rt,
        &[
            // of a read, of itself, of a write and of a channel, which are no lambdas
            (7, ('N', 1, 1, 2, 2, 2), Err((26, 7))),
            (7, ('N', 1, 1, 2, 2, 1), Err((26, 7))),
            (7, ('N', 1, 1, 2, 2, 3), Err((26, 7))),
            (7, ('N', 1, 1, 2, 2, 0), Err((26, 7))),
            // of the lambda around it: node 2, whose body is node 1
            (8, ('N', 2, 2, 1, 2, 0), Err((26, 7))),
            (7, ('N', 1, 1, 2, 2, 2), Ok(())),
            // of a lambda that it stands just before the body of
            (6, ('N', 1, 1, 3, 2, 2), Err((26, 6))),
            // of a lambda that stands before it
            (6, ('N', 5, 1, 3, 2, 1), Ok(())),
            (9, ('N', 1, 1, 1, 2, 2), Err((26, 9))),
        ],
    );
}

// The first node of a longer body, and the node before that: node 3 is the lambda.
#[test]
fn scope(rt: HostRuntime) {
    walk(
        &rt,
        &[
            (9, ('N', 2, 4, 1, 2, 0), Err((25, 9))),
            (8, ('N', 9, 3, 1, 2, 0), Ok(())),
            (6, ('N', 1, 1, 3, 2, 3), Ok(())),
            (8, ('N', 6, 2, 1, 2, 0), Err((25, 9))),
            (9, ('N', 2, 3, 1, 2, 0), Err((26, 6))),
        ],
    );
}

// Each question is asked of all rows before the next one.
#[test]
fn in_turn(rt: HostRuntime) {
    walk(
        &rt,
        &[
            (10, ('E', 32, 3, 0, 0, 0), Err((27, 10))),
            (7, ('N', 1, 1, 2, 2, 2), Err((26, 7))),
            (9, ('N', 7, 9, 1, 2, 0), Err((25, 9))),
            (6, ('N', 11, 1, 3, 2, 1), Err((25, 6))),
            (5, ('S', 2, 0, 7, 0, 0), Err((24, 5))),
            (3, ('T', 7, 0, 0, 0, 0), Err((23, 3))),
            (10, ('N', 0, 0, 0, 0, 0), Err((22, 0))),
            (2, ('?', 0, 0, 0, 0, 0), Err((21, 2))),
        ],
    );
}
