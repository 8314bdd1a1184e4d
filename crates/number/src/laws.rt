//! Theorems on the two kinds' definitions: each function's contract is what it states.
ghost use Rattle.std.specs.Prelude.{◌≡◌, ℤ, pos, ◌≢◌, Float};
ghost use Rattle.number.specs.MillimetreLaws.{ClampLaws, ResultsInRange, DropsFraction, WorkedExamples};
ghost use Rattle.number.specs.MetreLaws.{WholesExact, NanLaws, ZeroLaws, ResultsAreBinary64};

/// Millimetres: what leaves the range is brought to its nearest end, and nothing else changes.
pub fn millimetres_stay_in_range()
    ensures clamped { ClampLaws }
    ensures results { (a b : ℤ) → ResultsInRange a b }
{}

/// Millimetres: a quotient drops its fraction towards zero.
pub fn quotients_drop_the_fraction()
    ensures { (a b : ℤ) → (b ≢ pos 0) → DropsFraction a b }
{}

/// Millimetres: 2147483647 + 1 = 2147483647, -7 / 2 = -3, -2147483648 / -1 = 2147483647, 5 / 0 = 0.
pub fn millimetre_examples()
    ensures { WorkedExamples }
{}

/// Metres: whole numbers enter exactly, and every result is a binary64 value.
pub fn metres_are_exact_on_whole_numbers()
    ensures wholes { WholesExact }
    ensures results { (x y : Float) → ResultsAreBinary64 x y }
{}

/// Metres: not-a-number is one value, never less than or equal to anything; only 0 and -0 are zero.
pub fn metres_compare_nan_and_zero()
    ensures unordered { NanLaws }
    ensures zeros { ZeroLaws }
{}
