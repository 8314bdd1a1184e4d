// Question 23.
use super::*;

#[test]
fn types(rt: HostRuntime) {
    run(
        &rt,
        &[
            // the form
            (0, ('T', 3, 6, 0, 0, 0), Err((23, 0))),
            (0, ('T', -1, 6, 0, 0, 0), Err((23, 0))),
            (0, ('T', i64::MAX, 6, 0, 0, 0), Err((23, 0))),
            // the label set
            (0, ('T', 0, 0, 0, 0, 0), Ok(())),
            (0, ('T', 0, 4294967295, 0, 0, 0), Ok(())),
            (0, ('T', 0, 4294967296, 0, 0, 0), Err((23, 0))),
            (0, ('T', 0, -1, 0, 0, 0), Err((23, 0))),
            (0, ('T', 0, i64::MIN, 0, 0, 0), Err((23, 0))),
            // unused fields of a number
            (1, ('T', 0, 2, 1, 0, 0), Err((23, 1))),
            (1, ('T', 0, 2, 0, 1, 0), Err((23, 1))),
            (1, ('T', 0, 2, 0, 0, 1), Err((23, 1))),
            (1, ('T', 0, 2, -1, 0, 0), Err((23, 1))),
            // a reference's sites and unused fields
            (2, ('T', 2, 0, 0, 0, 0), Ok(())),
            (2, ('T', 2, 0, 3, 0, 0), Ok(())),
            (2, ('T', 2, 0, 4, 0, 0), Err((23, 2))),
            (2, ('T', 2, 0, -1, 0, 0), Err((23, 2))),
            (2, ('T', 2, 0, 1, 1, 0), Err((23, 2))),
            (2, ('T', 2, 0, 1, 0, 1), Err((23, 2))),
            // a function's parts and effect
            (3, ('T', 1, 0, 2, 2, 4294967295), Ok(())),
            (3, ('T', 1, 0, 2, 2, 4294967296), Err((23, 3))),
            (3, ('T', 1, 0, 2, 2, -1), Err((23, 3))),
            (3, ('T', 1, 0, 3, 0, 0), Err((23, 3))),
            (3, ('T', 1, 0, 0, 3, 0), Err((23, 3))),
            (3, ('T', 1, 0, 4, 0, 0), Err((23, 3))),
            (3, ('T', 1, 0, 0, -1, 0), Err((23, 3))),
            (0, ('T', 1, 0, 0, 0, 0), Err((23, 0))),
        ],
    );
}

// A sheet of n types: a number, and functions nested in one another by their argument or result.
fn nested(heap: Global, n: i64, by_result: bool) -> Result<Verdict, Fail> {
    let mut rows = Vec::new(heap);
    rows.push(row('T', 0, 0, 0, 0, 0))?;
    for before in 0..n.saturating_sub(1) {
        if by_result {
            rows.push(row('T', 1, 0, 0, before, 0))?;
        } else {
            rows.push(row('T', 1, 0, before, 0, 0))?;
        }
    }
    rows.push(row('S', 0, 0, 0, 0, 0))?;
    rows.push(row('N', 0, 1, 0, 0, 5))?;
    rows.push(row('E', 0, 0, 0, 0, 0))?;
    Ok(verdict(&rows))
}

#[test]
fn depth(rt: HostRuntime) -> Result<(), Fail> {
    let heap = rt.alloc();
    assert_eq!(rt; nested(heap, 8, false)?, Ok(()));
    assert_eq!(rt; nested(heap, 9, false)?, Err((23, 8)));
    assert_eq!(rt; nested(heap, 8, true)?, Ok(()));
    assert_eq!(rt; nested(heap, 9, true)?, Err((23, 8)));
    assert_eq!(rt; nested(heap, 128, true)?, Err((23, 8)));
    Ok(())
}
