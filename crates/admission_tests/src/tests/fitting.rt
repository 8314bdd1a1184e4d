// When one type fits another. The entry gives a reference, so that a sheet whose nodes keep their rules
// is refused at question 36.
use super::*;

// A function of type 2 is put into a new cell for type 3.
fn function() -> [Row; 11] {
    [
        row('T', 0, 2, 0, 0, 0),
        row('T', 0, 6, 0, 0, 0),
        row('T', 1, 0, 0, 0, 2),
        row('T', 1, 2, 0, 0, 2),
        row('T', 2, 0, 2, 0, 0),
        row('S', 1, 0, 1, 0, 0),
        row('S', 1, 3, 0, 0, 0),
        row('N', 0, 1, 0, 6, 5),
        row('N', 2, 2, 2, 0, 0),
        row('N', 4, 3, 4, 0, 1),
        row('E', 1, 2, 0, 0, 0),
    ]
}

#[test]
fn functions(rt: HostRuntime) -> Result<(), Fail> {
    run(
        &rt,
        function(),
        &[
            (2, ('T', 1, 0, 0, 0, 2), Err((36, 10))),
            // the sets
            (2, ('T', 1, 2, 0, 0, 2), Err((36, 10))),
            (2, ('T', 1, 4, 0, 0, 2), Err((34, 9))),
            // it takes more than it is given, or less
            (2, ('T', 1, 0, 1, 0, 2), Err((36, 10))),
            (3, ('T', 1, 2, 1, 0, 2), Err((34, 9))),
            // it gives more than is wanted, or less
            (2, ('T', 1, 0, 0, 1, 2), Err((34, 9))),
            (3, ('T', 1, 2, 0, 1, 2), Err((36, 10))),
            // its effect set promises more than is wanted, or less
            (2, ('T', 1, 0, 0, 0, 6), Err((36, 10))),
            (3, ('T', 1, 2, 0, 0, 6), Err((34, 9))),
            // another form
            (6, ('S', 1, 0, 0, 0, 0), Err((34, 9))),
            // raised by the control set
            (9, ('N', 4, 3, 4, 4, 1), Err((34, 9))),
            (9, ('N', 4, 3, 4, 2, 1), Err((35, 9))),
        ],
    )?;
    walk(
        &rt,
        function(),
        &[
            (4, ('T', 2, 2, 2, 0, 0), Err((36, 10))),
            (6, ('S', 1, 4, 0, 0, 0), Err((34, 9))),
        ],
    )
}

// A channel of type 1 is put into a new cell for type 2.
fn reference() -> [Row; 10] {
    [
        row('T', 0, 2, 0, 0, 0),
        row('T', 2, 2, 1, 0, 0),
        row('T', 2, 2, 3, 0, 0),
        row('T', 2, 0, 4, 0, 0),
        row('S', 1, 0, 1, 0, 0),
        row('S', 1, 0, 1, 0, 0),
        row('S', 1, 2, 0, 0, 0),
        row('N', 5, 1, 1, 0, 0),
        row('N', 4, 2, 3, 0, 2),
        row('E', 1, 1, 0, 0, 0),
    ]
}

#[test]
fn references(rt: HostRuntime) -> Result<(), Fail> {
    run(
        &rt,
        reference(),
        &[
            (1, ('T', 2, 2, 1, 0, 0), Err((36, 9))),
            (1, ('T', 2, 2, 3, 0, 0), Err((36, 9))),
            (1, ('T', 2, 2, 7, 0, 0), Err((34, 8))),
            (2, ('T', 2, 2, 2, 0, 0), Err((34, 8))),
            (1, ('T', 2, 0, 1, 0, 0), Err((36, 9))),
            (1, ('T', 2, 6, 1, 0, 0), Err((34, 8))),
        ],
    )
}
