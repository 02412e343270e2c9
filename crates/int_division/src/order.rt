//! The lesser and the greater of numbers.
ghost use Rattle.int_division.specs.Rounding.{AreSorted, IsBelowFour, IsAboveFour, IsAboveEachBelow, IsBelowEachAbove};

// Functions, since the proof of a body with several `min` and `max` of products meets limits.
/// The lesser and the greater of two.
pub fn sorted(p: i128, q: i128) -> (i128, i128)
    ensures { AreSorted result.0 result.1 p q }
{
    if p < q { (p, q) } else { (q, p) }
}

/// The least of four.
pub fn least_of(p: i128, q: i128, r: i128, s: i128) -> i128
    ensures bounds { IsBelowFour result p q r s }
    ensures best { IsAboveEachBelow result p q r s }
{
    p.min(q).min(r.min(s))
}

/// The greatest of four.
pub fn greatest_of(p: i128, q: i128, r: i128, s: i128) -> i128
    ensures bounds { IsAboveFour result p q r s }
    ensures best { IsBelowEachAbove result p q r s }
{
    p.max(q).max(r.max(s))
}
