use number::{Metres, Number};
use std::test::Fail;

const INFINITE: f64 = f64::INFINITY;

const NAN: f64 = f64::NAN;

// The same value: not-a-number is one value, and 0 is not -0.
fn same(a: f64, b: f64) -> bool {
    (a.is_nan() && b.is_nan()) || (a == b && 1.0 / a == 1.0 / b)
}

fn metres(length: f64) -> Metres {
    Metres { length }
}

#[test]
fn sums_and_differences(rt: HostRuntime) {
    for (a, b, sum, difference) in [
        (0.5, 0.25, 0.75, 0.25),
        (0.1, 0.2, 0.30000000000000004, -0.1),
        (
            9007199254740992.0,
            1.0,
            9007199254740992.0,
            9007199254740991.0,
        ),
        (0.0, -0.0, 0.0, 0.0),
        (-0.0, -0.0, -0.0, 0.0),
        (-0.0, 0.0, 0.0, -0.0),
        (INFINITE, 1.0, INFINITE, INFINITE),
        (INFINITE, INFINITE, INFINITE, NAN),
        (INFINITE, -INFINITE, NAN, INFINITE),
        (NAN, 1.0, NAN, NAN),
        (1.0, NAN, NAN, NAN),
        (
            1.7976931348623157e308,
            1.7976931348623157e308,
            INFINITE,
            0.0,
        ),
    ] {
        assert!(rt; same(metres(a).add(metres(b)).length, sum));
        assert!(rt; same(metres(a).subtract(metres(b)).length, difference));
    }
}

#[test]
fn products_and_quotients(rt: HostRuntime) {
    for (a, b, product, quotient) in [
        (6.0, 1.5, 9.0, 4.0),
        (1.0, 3.0, 3.0, 0.3333333333333333),
        (1.0, 0.0, 0.0, INFINITE),
        (1.0, -0.0, -0.0, -INFINITE),
        (0.0, 0.0, 0.0, NAN),
        (INFINITE, 0.0, NAN, INFINITE),
        (0.0, INFINITE, NAN, 0.0),
        (-1.0, INFINITE, -INFINITE, -0.0),
        (INFINITE, INFINITE, INFINITE, NAN),
        (NAN, 0.0, NAN, NAN),
        (5e-324, 2.0, 1e-323, 0.0),
        (1e200, 1e-200, 1.0, INFINITE),
    ] {
        assert!(rt; same(metres(a).multiply(metres(b)).length, product));
        assert!(rt; same(metres(a).divide(metres(b)).length, quotient));
    }
}

#[test]
fn comparisons(rt: HostRuntime) {
    for (a, b, less, equal) in [
        (1.0, 2.0, 1.0, 0.0),
        (2.0, 1.0, 0.0, 0.0),
        (0.0, -0.0, 0.0, 1.0),
        (-0.0, 0.0, 0.0, 1.0),
        (-INFINITE, INFINITE, 1.0, 0.0),
        (INFINITE, INFINITE, 0.0, 1.0),
        (NAN, 1.0, 0.0, 0.0),
        (1.0, NAN, 0.0, 0.0),
        (NAN, NAN, 0.0, 0.0),
        (NAN, -INFINITE, 0.0, 0.0),
    ] {
        assert!(rt; same(metres(a).less(metres(b)).length, less));
        assert!(rt; same(metres(a).equal(metres(b)).length, equal));
    }
}

#[test]
fn whole_numbers_and_zero(rt: HostRuntime) {
    for (n, length) in [
        (0, 0.0),
        (5, 5.0),
        (-7, -7.0),
        (2147483647, 2147483647.0),
        (-2147483648, -2147483648.0),
    ] {
        assert!(rt; same(<Metres as Number>::from_whole(n).length, length));
    }
    for (length, zero) in [
        (0.0, true),
        (-0.0, true),
        (5e-324, false),
        (-1.0, false),
        (INFINITE, false),
        (NAN, false),
    ] {
        assert_eq!(rt; metres(length).is_zero(), zero);
    }
}

#[test]
fn words(rt: HostRuntime) -> Result<(), Fail> {
    for (word, length) in [
        ("0", 0.0),
        ("-0", -0.0),
        ("0.1", 0.1),
        ("-7", -7.0),
        ("0.30000000000000004", 0.30000000000000004),
        ("inf", INFINITE),
        ("NaN", NAN),
    ] {
        let number: Metres = word.parse()?;
        assert!(rt; same(number.length, length));
        assert_eq!(rt; number.to_string(rt.alloc())?.as_str(), word);
    }
    for word in ["", "-", "1,5", "m"] {
        assert!(rt; word.parse::<Metres>().is_err());
    }
    Ok(())
}
