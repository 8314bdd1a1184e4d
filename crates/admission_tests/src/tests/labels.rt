// Question 31.
use super::*;

#[test]
fn labels(rt: HostRuntime) -> Result<(), Fail> {
    run(
        &rt,
        sheet_a(),
        &[
            // a type's set
            (0, ('T', 0, 14, 0, 0, 0), Err((31, 0))),
            (0, ('T', 0, 4294967295, 0, 0, 0), Err((31, 0))),
            (1, ('T', 0, 10, 0, 0, 0), Err((31, 1))),
            (2, ('T', 2, 8, 1, 0, 0), Err((31, 2))),
            // a function's effect set
            (3, ('T', 1, 0, 1, 1, 8), Err((31, 3))),
            (3, ('T', 1, 0, 1, 1, 7), Err((34, 6))),
            // a site's label
            (4, ('S', 3, 1, 1, 0, 0), Err((31, 4))),
            (4, ('S', 31, 1, 1, 0, 0), Err((31, 4))),
            (5, ('S', 3, 0, 1, 0, 0), Err((31, 5))),
            // a node's control set
            (6, ('N', 5, 1, 3, 8, 1), Err((31, 6))),
            (9, ('N', 7, 4, 1, 10, 0), Err((31, 9))),
            (9, ('N', 7, 4, 1, 4294967295, 0), Err((31, 9))),
            // an entry's label
            (10, ('E', 3, 3, 0, 0, 0), Err((31, 10))),
            (10, ('E', 31, 3, 0, 0, 0), Err((31, 10))),
        ],
    )
}

// The first row is named, whatever its letter.
#[test]
fn order(rt: HostRuntime) -> Result<(), Fail> {
    walk(
        &rt,
        sheet_a(),
        &[
            (10, ('E', 3, 3, 0, 0, 0), Err((31, 10))),
            (9, ('N', 7, 4, 1, 8, 0), Err((31, 9))),
            (5, ('S', 3, 0, 1, 0, 0), Err((31, 5))),
            (1, ('T', 0, 8, 0, 0, 0), Err((31, 1))),
        ],
    )
}
