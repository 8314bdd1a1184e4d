//! Sets as numbers: member k adds 2^k.
ghost use Rattle.std.specs.Prelude.{◌≡◌};
ghost use Rattle.sheet.specs.Sets.{has, set_below, within};

/// k is a member.
pub fn has(k: usize, set: usize) -> bool
    ensures { result ≡ has k set }
{
    k < 64 && (set >> k) % 2 == 1
}

/// Every member is below n.
pub fn set_below(n: usize, set: usize) -> bool
    ensures { result ≡ set_below n set }
{
    n >= 64 || set < 1 << n
}

/// Every member of a is one of b.
pub fn within(a: usize, b: usize) -> bool
    ensures { result ≡ within a b }
{
    a & b == a
}
