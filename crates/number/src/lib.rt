//! Number kinds: what the numbers of a sheet are, and how a run computes with them.
//!
//! A kind is eight functions. What they answer is told by a record over the values that numbers mean,
//! so a run is the same for every kind, and two numbers are the same when their values are.
#![tactic(auto)]

ghost use Rattle.std.specs.Prelude.{◌≡◌};
ghost use Rattle.number.specs.NumberKind.{NumberKind};

pub mod laws;
pub mod metres;
pub mod millimetres;

pub use metres::Metres;
pub use millimetres::Millimetres;

/// A number of some kind. No function refuses. Values are what numbers mean: two numbers are the same when
/// their values are.
// These are methods and not `From<i32>`, `Add` and so on: a bound on each of those needs a law beside it to state its answer by `kind`.
pub trait Number: Copy {
    /// What the functions below compute.
    ghost kind: { NumberKind };

    /// The value of a number.
    ghost value: { Self → kind.Value };

    /// A whole number of 32 bits.
    fn from_whole(n: i32) -> Self
        ensures { value result ≡ kind.whole n };

    /// Whether a choice takes it for zero.
    fn is_zero(self) -> bool
        ensures { result ≡ kind.is_zero (value self) };

    /// The sum.
    fn add(self, other: Self) -> Self
        ensures { value result ≡ kind.sum (value self) (value other) };

    /// The difference.
    fn subtract(self, other: Self) -> Self
        ensures { value result ≡ kind.difference (value self) (value other) };

    /// The product.
    fn multiply(self, other: Self) -> Self
        ensures { value result ≡ kind.product (value self) (value other) };

    /// The quotient.
    fn divide(self, other: Self) -> Self
        ensures { value result ≡ kind.quotient (value self) (value other) };

    /// 1 where it is less than the other, else 0.
    fn less(self, other: Self) -> Self
        ensures { value result ≡ kind.less (value self) (value other) };

    /// 1 where it equals the other, else 0.
    fn equal(self, other: Self) -> Self
        ensures { value result ≡ kind.equal (value self) (value other) };
}
