// Questions 32 and 33.
use super::*;

#[test]
fn owners(rt: HostRuntime) -> Result<(), Fail> {
    run(
        &rt,
        sheet_a(),
        &[
            (4, ('S', 0, 1, 1, 0, 0), Err((32, 4))),
            (4, ('S', 2, 1, 1, 0, 0), Err((32, 4))),
            (5, ('S', 0, 0, 1, 0, 0), Err((32, 5))),
            (1, ('T', 0, 0, 0, 0, 0), Err((32, 4))),
            (0, ('T', 0, 2, 0, 0, 0), Err((32, 5))),
        ],
    )
}

#[test]
fn contents(rt: HostRuntime) -> Result<(), Fail> {
    run(
        &rt,
        sheet_a(),
        &[
            // 2 does not flow to 1
            (1, ('T', 0, 6, 0, 0, 0), Err((33, 4))),
            (5, ('S', 1, 0, 1, 0, 0), Err((33, 5))),
            // 0 flows to 1, and 1 to 2, but not 0 to 2
            (0, ('T', 0, 7, 0, 0, 0), Err((33, 5))),
            (0, ('T', 0, 5, 0, 0, 0), Err((33, 5))),
            // 0 flows to 1, so that the write is what is refused
            (1, ('T', 0, 3, 0, 0, 0), Err((34, 9))),
        ],
    )
}

// 32 of every site comes before 33 of the first.
#[test]
fn order(rt: HostRuntime) -> Result<(), Fail> {
    walk(
        &rt,
        sheet_a(),
        &[
            (1, ('T', 0, 6, 0, 0, 0), Err((33, 4))),
            (5, ('S', 0, 0, 1, 0, 0), Err((32, 5))),
        ],
    )
}
