// Question 24.
use super::*;

#[test]
fn sites(rt: HostRuntime) {
    run(
        &rt,
        &[
            // the label
            (4, ('S', 0, 1, 1, 0, 0), Ok(())),
            (4, ('S', 31, 1, 1, 0, 0), Ok(())),
            (4, ('S', 32, 1, 1, 0, 0), Err((24, 4))),
            (4, ('S', -1, 1, 1, 0, 0), Err((24, 4))),
            // the content type
            (5, ('S', 2, 4, 1, 0, 0), Err((24, 5))),
            (5, ('S', 2, -1, 1, 0, 0), Err((24, 5))),
            (4, ('S', 1, 2, 1, 0, 0), Err((24, 4))),
            (5, ('S', 2, 3, 1, 0, 0), Err((24, 5))),
            // the flag
            (4, ('S', 1, 1, 2, 0, 0), Err((24, 4))),
            (4, ('S', 1, 1, -1, 0, 0), Err((24, 4))),
            // unused fields
            (5, ('S', 2, 0, 1, 1, 0), Err((24, 5))),
            (5, ('S', 2, 0, 1, 0, 1), Err((24, 5))),
            (5, ('S', 2, 0, 1, -1, 0), Err((24, 5))),
            // A fresh site may hold a reference; then the channel node of that site is at fault.
            (4, ('S', 1, 3, 0, 0, 0), Err((25, 7))),
            (5, ('S', 2, 0, 0, 0, 0), Err((25, 6))),
        ],
    );
}
