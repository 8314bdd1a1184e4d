// Question 27.
use super::*;

#[test]
fn one_entry(rt: HostRuntime) {
    run(
        &rt,
        &[
            // the label
            (10, ('E', 0, 3, 0, 0, 0), Ok(())),
            (10, ('E', 31, 3, 0, 0, 0), Ok(())),
            (10, ('E', 32, 3, 0, 0, 0), Err((27, 10))),
            (10, ('E', -1, 3, 0, 0, 0), Err((27, 10))),
            // the root
            (10, ('E', 1, 4, 0, 0, 0), Err((27, 10))),
            (10, ('E', 1, -1, 0, 0, 0), Err((27, 10))),
            (10, ('E', 1, i64::MAX, 0, 0, 0), Err((27, 10))),
            // unused fields
            (10, ('E', 1, 3, 1, 0, 0), Err((27, 10))),
            (10, ('E', 1, 3, 0, 1, 0), Err((27, 10))),
            (10, ('E', 1, 3, 0, 0, -1), Err((27, 10))),
            // Nodes are left over.
            (10, ('E', 1, 2, 0, 0, 0), Err((27, 10))),
            (10, ('E', 1, 0, 0, 0, 0), Err((27, 10))),
        ],
    );
}

// Three channel nodes and three entries with these roots.
fn roots(a: i64, b: i64, c: i64) -> Verdict {
    let rows = [
        row('T', 0, 0, 0, 0, 0),
        row('S', 0, 0, 1, 0, 0),
        row('N', 5, 1, 0, 0, 0),
        row('N', 5, 1, 0, 0, 0),
        row('N', 5, 1, 0, 0, 0),
        row('E', 0, a, 0, 0, 0),
        row('E', 0, b, 0, 0, 0),
        row('E', 0, c, 0, 0, 0),
    ];
    verdict(&rows)
}

#[test]
fn three_entries(rt: HostRuntime) {
    assert_eq!(rt; roots(0, 1, 2), Ok(()));
    assert_eq!(rt; roots(2, 0, 1), Ok(()));
    // The later of two that share a node is named.
    assert_eq!(rt; roots(0, 0, 2), Err((27, 6)));
    assert_eq!(rt; roots(0, 1, 0), Err((27, 7)));
    assert_eq!(rt; roots(1, 2, 2), Err((27, 7)));
    assert_eq!(rt; roots(3, 1, 1), Err((27, 5)));
}

// A literal, a read of it, a literal; two entries with these roots.
fn trees(a: i64, b: i64) -> Verdict {
    let rows = [
        row('T', 0, 0, 0, 0, 0),
        row('S', 0, 0, 1, 0, 0),
        row('N', 0, 1, 0, 0, 0),
        row('N', 6, 2, 0, 0, 0),
        row('N', 0, 1, 0, 0, 0),
        row('E', 0, a, 0, 0, 0),
        row('E', 0, b, 0, 0, 0),
    ];
    verdict(&rows)
}

#[test]
fn two_entries(rt: HostRuntime) {
    assert_eq!(rt; trees(1, 2), Ok(()));
    assert_eq!(rt; trees(2, 1), Ok(()));
    // A tree inside the other.
    assert_eq!(rt; trees(1, 0), Err((27, 6)));
    assert_eq!(rt; trees(0, 1), Err((27, 6)));
    // Node 1 is left over: the last entry is named.
    assert_eq!(rt; trees(0, 2), Err((27, 6)));
    // The first entry is at fault, before any node is left over.
    assert_eq!(rt; trees(5, 0), Err((27, 5)));
}
