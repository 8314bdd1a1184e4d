// Questions 21 and 22.
use super::*;

#[test]
fn order(rt: HostRuntime) {
    run(
        &rt,
        &[
            (0, ('X', 0, 6, 0, 0, 0), Err((21, 0))),
            (2, ('t', 2, 0, 1, 0, 0), Err((21, 2))),
            (3, ('\0', 2, 0, 2, 0, 0), Err((21, 3))),
            (10, ('Ε', 1, 3, 0, 0, 0), Err((21, 10))),
            (0, ('S', 0, 6, 0, 0, 0), Err((21, 1))),
            (4, ('N', 1, 1, 1, 0, 0), Err((21, 5))),
            (6, ('E', 5, 1, 3, 2, 1), Err((21, 7))),
            (10, ('T', 1, 3, 0, 0, 0), Err((21, 10))),
            // In order: 22 and 23 have the word.
            (10, ('N', 1, 3, 0, 0, 0), Err((22, 0))),
            (5, ('N', 2, 0, 1, 0, 0), Err((23, 3))),
            (4, ('T', 1, 1, 1, 0, 0), Err((23, 3))),
        ],
    );
}

// A sheet of so many number types, fresh sites, nodes and entries. Each entry but the last has a
// literal for its tree; the last has a literal and reads around it.
fn plain(heap: Global, types: i64, sites: i64, nodes: i64, entries: i64) -> Result<Vec<Row>, Fail> {
    let mut rows = Vec::new(heap);
    for _ in 0..types {
        rows.push(row('T', 0, 0, 0, 0, 0))?;
    }
    for _ in 0..sites {
        rows.push(row('S', 0, 0, 0, 0, 0))?;
    }
    for _ in 0..nodes.min(entries) {
        rows.push(row('N', 0, 1, 0, 0, 0))?;
    }
    for size in 2..nodes.saturating_sub(entries).saturating_add(2) {
        rows.push(row('N', 6, size, 0, 0, 0))?;
    }
    for root in 0..entries.saturating_sub(1) {
        rows.push(row('E', 0, root, 0, 0, 0))?;
    }
    if entries > 0 {
        rows.push(row('E', 0, nodes.saturating_sub(1), 0, 0, 0))?;
    }
    Ok(rows)
}

fn limits(heap: Global, types: i64, sites: i64, nodes: i64, entries: i64) -> Result<Verdict, Fail> {
    let rows = plain(heap, types, sites, nodes, entries)?;
    Ok(verdict(&rows))
}

#[test]
fn no_rows(rt: HostRuntime) {
    let rows: [Row; 0] = [];
    assert_eq!(rt; verdict(&rows), Err((22, 0)));
}

#[test]
fn counts(rt: HostRuntime) -> Result<(), Fail> {
    let heap = rt.alloc();
    assert_eq!(rt; limits(heap, 1, 1, 1, 1)?, Ok(()));
    assert_eq!(rt; limits(heap, 0, 1, 1, 1)?, Err((22, 0)));
    assert_eq!(rt; limits(heap, 1, 0, 1, 1)?, Err((22, 0)));
    assert_eq!(rt; limits(heap, 1, 1, 0, 1)?, Err((22, 0)));
    assert_eq!(rt; limits(heap, 1, 1, 1, 0)?, Err((22, 0)));
    assert_eq!(rt; limits(heap, 128, 1, 1, 1)?, Ok(()));
    assert_eq!(rt; limits(heap, 129, 1, 1, 1)?, Err((22, 0)));
    assert_eq!(rt; limits(heap, 1, 32, 1, 1)?, Ok(()));
    assert_eq!(rt; limits(heap, 1, 33, 1, 1)?, Err((22, 0)));
    assert_eq!(rt; limits(heap, 1, 1, 512, 1)?, Ok(()));
    assert_eq!(rt; limits(heap, 1, 1, 513, 1)?, Err((22, 0)));
    assert_eq!(rt; limits(heap, 1, 1, 32, 32)?, Ok(()));
    assert_eq!(rt; limits(heap, 1, 1, 33, 33)?, Err((22, 0)));
    assert_eq!(rt; limits(heap, 128, 32, 512, 32)?, Ok(()));
    Ok(())
}
