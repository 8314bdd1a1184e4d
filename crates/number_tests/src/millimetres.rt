use number::{Millimetres, Number};
use std::test::Fail;

const LEAST: i32 = i32::MIN;

const GREATEST: i32 = i32::MAX;

fn millimetres(count: i32) -> Millimetres {
    Millimetres { count }
}

#[test]
fn sums_and_differences(rt: HostRuntime) {
    for (a, b, sum, difference) in [
        (2, 3, 5, -1),
        (GREATEST, 1, GREATEST, 2147483646),
        (LEAST, -1, LEAST, -2147483647),
        (LEAST, 1, -2147483647, LEAST),
        (0, LEAST, LEAST, GREATEST),
        (-1, LEAST, LEAST, GREATEST),
        (GREATEST, GREATEST, GREATEST, 0),
        (LEAST, LEAST, LEAST, 0),
        (GREATEST, LEAST, -1, GREATEST),
    ] {
        let (a, b) = (millimetres(a), millimetres(b));
        assert_eq!(rt; a.add(b), millimetres(sum));
        assert_eq!(rt; a.subtract(b), millimetres(difference));
    }
}

#[test]
fn products_and_quotients(rt: HostRuntime) {
    for (a, b, product, quotient) in [
        (7, 2, 14, 3),
        (-7, 2, -14, -3),
        (7, -2, -14, -3),
        (-7, -2, 14, 3),
        (1, 2, 2, 0),
        (-1, 2, -2, 0),
        (5, 0, 0, 0),
        (-5, 0, 0, 0),
        (0, 0, 0, 0),
        (0, -3, 0, 0),
        (LEAST, -1, GREATEST, GREATEST),
        (LEAST, 1, LEAST, LEAST),
        (GREATEST, -1, -2147483647, -2147483647),
        (LEAST, LEAST, GREATEST, 1),
        (65536, 65536, GREATEST, 1),
        (65536, -65536, LEAST, -1),
        (46341, 46341, GREATEST, 1),
        (46340, 46340, 2147395600, 1),
    ] {
        let (a, b) = (millimetres(a), millimetres(b));
        assert_eq!(rt; a.multiply(b), millimetres(product));
        assert_eq!(rt; a.divide(b), millimetres(quotient));
    }
}

#[test]
fn comparisons(rt: HostRuntime) {
    for (a, b, less, equal) in [
        (1, 2, 1, 0),
        (2, 1, 0, 0),
        (2, 2, 0, 1),
        (-1, 0, 1, 0),
        (0, -1, 0, 0),
        (LEAST, GREATEST, 1, 0),
        (GREATEST, LEAST, 0, 0),
        (LEAST, LEAST, 0, 1),
    ] {
        let (a, b) = (millimetres(a), millimetres(b));
        assert_eq!(rt; a.less(b), millimetres(less));
        assert_eq!(rt; a.equal(b), millimetres(equal));
    }
}

#[test]
fn whole_numbers_and_zero(rt: HostRuntime) {
    for (n, zero) in [
        (0, true),
        (1, false),
        (-1, false),
        (LEAST, false),
        (GREATEST, false),
    ] {
        let number = <Millimetres as Number>::from_whole(n);
        assert_eq!(rt; number.count, n);
        assert_eq!(rt; number.is_zero(), zero);
    }
}

#[test]
fn words(rt: HostRuntime) -> Result<(), Fail> {
    for (word, count) in [
        ("0", 0),
        ("-7", -7),
        ("2147483647", GREATEST),
        ("-2147483648", LEAST),
    ] {
        let number: Millimetres = word.parse()?;
        assert_eq!(rt; number, millimetres(count));
        assert_eq!(rt; number.to_string(rt.alloc())?.as_str(), word);
    }
    for word in ["", "1.5", "2147483648", "-", "mm"] {
        assert!(rt; word.parse::<Millimetres>().is_err());
    }
    Ok(())
}
