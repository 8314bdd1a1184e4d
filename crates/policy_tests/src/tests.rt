use policy::theorems::two_steps;
use policy::{Clearances, Narrowed, PairList, Policy, Refusal};
use std::process::Abort;
use std::test::Fail;

// The number of the refusal, where the call was refused.
fn refused<T: Drop>(answer: Result<T, Refusal>) -> Option<u8> {
    answer.err().map(|refusal| refusal.number())
}

// A row of text for each label a: at place b an x where a flows to b, else a dot.
fn check_relation<P: Policy>(rt: &impl Abort, policy: &P, rows: &[&str]) -> Result<(), Fail> {
    let n = u32::try_from(rows.len())?;
    assert_eq!(rt; policy.labels(), n, "labels");
    for (a, row) in (0..n).zip(rows) {
        assert_eq!(rt; row.len(), rows.len(), "the table is square");
        for (b, cell) in (0..n).zip(row.bytes()) {
            assert_eq!(rt; policy.may_flow(a, b), cell == b'x', "{}", *row);
        }
        for past in [n, u32::MAX] {
            assert!(rt;
                !policy.may_flow(a, past) && !policy.may_flow(past, a),
                "no such label"
            );
        }
    }
    assert!(rt; !policy.may_flow(n, n));
    Ok(())
}

#[test]
fn numbers_of_labels(rt: HostRuntime) {
    let cases = [
        (0, Some(52)),
        (1, None),
        (2, None),
        (31, None),
        (32, None),
        (33, Some(52)),
        (u32::MAX, Some(52)),
    ];
    for (n, expected) in cases {
        assert_eq!(rt; refused(PairList::new(n)), expected);
        assert_eq!(rt; refused(Clearances::new(n)), expected);
    }
}

#[test]
fn pairs_allowed(rt: HostRuntime) -> Result<(), Fail> {
    let cases = [
        (0, 1, None),
        (1, 2, None),
        (1, 1, None),
        (0, 1, None),
        (3, 0, Some(51)),
        (0, 3, Some(51)),
        (3, 3, Some(51)),
        (u32::MAX, 0, Some(51)),
    ];
    let mut list = PairList::new(3)?;
    check_relation(&rt, &list, &["x..", ".x.", "..x"])?;
    for (a, b, expected) in cases {
        assert_eq!(rt; refused(list.allow(a, b)), expected);
    }
    check_relation(&rt, &list, &["xx.", ".xx", "..x"])?;
    check_relation(&rt, &two_steps()?, &["xx.", ".xx", "..x"])
}

#[test]
fn pairs_at_the_last_labels(rt: HostRuntime) -> Result<(), Fail> {
    let mut list = PairList::new(32)?;
    assert_eq!(rt; refused(list.allow(31, 0)), None);
    assert_eq!(rt; refused(list.allow(30, 31)), None);
    assert_eq!(rt; refused(list.allow(32, 0)), Some(51));
    let cases = [
        (31, 0, true),
        (0, 31, false),
        (30, 31, true),
        (31, 30, false),
        (30, 0, false),
        (31, 31, true),
        (31, 32, false),
    ];
    for (a, b, expected) in cases {
        assert_eq!(rt; list.may_flow(a, b), expected);
    }
    assert_eq!(rt; list.labels(), 32);
    Ok(())
}

#[test]
fn ranks_and_compartments(rt: HostRuntime) -> Result<(), Fail> {
    let mut policy = Clearances::new(4)?;
    check_relation(&rt, &policy, &["xxxx", "xxxx", "xxxx", "xxxx"])?;
    let ranks = [
        (1, 255, None),
        (2, 254, None),
        (3, 255, None),
        (4, 255, Some(51)),
    ];
    for (label, rank, expected) in ranks {
        assert_eq!(rt; refused(policy.set_rank(label, rank)), expected);
    }
    check_relation(&rt, &policy, &["xxxx", ".x.x", ".xxx", ".x.x"])?;
    let sets = [
        (1, 0x8000_0001, None),
        (2, 0x8000_0000, None),
        (3, 1, None),
        (4, 1, Some(51)),
        (u32::MAX, 0, Some(51)),
    ];
    for (label, set, expected) in sets {
        assert_eq!(rt; refused(policy.set_compartments(label, set)), expected);
    }
    check_relation(&rt, &policy, &["xxxx", ".x..", ".xx.", ".x.x"])?;
    assert_eq!(rt; refused(policy.set_rank(1, 0)), None);
    assert_eq!(rt; refused(policy.set_compartments(2, 0)), None);
    check_relation(&rt, &policy, &["xxxx", ".x..", "..xx", "...x"])
}

// A pair that the list lacks takes a place too, so 32 pairs fill a narrowed policy over seven labels.
#[test]
fn pairs_revoked(rt: HostRuntime) -> Result<(), Fail> {
    let mut policy = Narrowed::new(PairList::new(7)?);
    for a in 0..5 {
        for b in 0..7 {
            let expected = if a == b { Some(53) } else { None };
            assert_eq!(rt; refused(policy.revoke(a, b)), expected);
        }
    }
    let cases = [
        (5, 0, None),
        (5, 1, None),
        (5, 2, Some(54)),
        (0, 1, None),
        (5, 1, None),
        (6, 6, Some(53)),
        (7, 0, Some(51)),
        (0, 7, Some(51)),
        (7, 7, Some(51)),
        (6, 0, Some(54)),
        (4, 6, None),
    ];
    for (a, b, expected) in cases {
        assert_eq!(rt; refused(policy.revoke(a, b)), expected);
    }
    check_relation(
        &rt,
        &policy,
        &[
            "x......", ".x.....", "..x....", "...x...", "....x..", ".....x.", "......x",
        ],
    )
}

#[test]
fn narrowed_again(rt: HostRuntime) -> Result<(), Fail> {
    let mut inside = Narrowed::new(Clearances::new(3)?);
    let first = [
        (0, 1, None),
        (0, 1, None),
        (1, 1, Some(53)),
        (3, 3, Some(51)),
    ];
    for (a, b, expected) in first {
        assert_eq!(rt; refused(inside.revoke(a, b)), expected);
    }
    check_relation(&rt, &inside, &["x.x", "xxx", "xxx"])?;
    let mut policy = Narrowed::new(inside);
    check_relation(&rt, &policy, &["x.x", "xxx", "xxx"])?;
    let second = [
        (2, 0, None),
        (0, 1, None),
        (1, 2, None),
        (2, 2, Some(53)),
        (0, 3, Some(51)),
    ];
    for (a, b, expected) in second {
        assert_eq!(rt; refused(policy.revoke(a, b)), expected);
    }
    check_relation(&rt, &policy, &["x.x", "xx.", ".xx"])
}

#[test]
fn a_list_narrowed_twice(rt: HostRuntime) -> Result<(), Fail> {
    let mut inside = Narrowed::new(two_steps()?);
    assert_eq!(rt; refused(inside.revoke(0, 2)), None);
    check_relation(&rt, &inside, &["xx.", ".xx", "..x"])?;
    assert_eq!(rt; refused(inside.revoke(0, 1)), None);
    let mut policy = Narrowed::new(inside);
    assert_eq!(rt; refused(policy.revoke(1, 2)), None);
    check_relation(&rt, &policy, &["x..", ".x.", "..x"])
}

#[test]
fn refusals_in_words(rt: HostRuntime) -> Result<(), Fail> {
    for (refusal, words) in [
        (
            Refusal::UnknownLabel,
            "a label of this line is not below the number of labels",
        ),
        (Refusal::LabelCount, "a policy has 1 to 32 labels"),
        (
            Refusal::ReflexivePair,
            "every label may flow to itself, and that pair cannot be revoked",
        ),
        (
            Refusal::RevocationsFull,
            "32 pairs are revoked already, and no place is left",
        ),
    ] {
        assert_eq!(rt; refusal.to_string(rt.alloc())?.as_str(), words);
    }
    Ok(())
}
