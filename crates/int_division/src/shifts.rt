//! Numbers over powers of two, rounded down.
//!
//! A shift rounds down, also below 0, where a quotient of the language rounds towards 0. Its right operand is a constant, so that
//! the power stands in the type of a call and the shift is one instruction or two.
ghost use Rattle.std.specs.Prelude.{◌≡◌, ◌<◌, ◌-◌, ◌^◌, pos};
ghost use Rattle.exact_math.specs.Fraction.{floor_quotient};
ghost use Rattle.int_division.specs.Rounding.{IsFloor};

/// A number over 2ᴺ, rounded down.
#[inline(always)]
pub fn shr_floor<const N: u32>(number: i128) -> i128
    requires fits { N < 127 }
    ensures value { result ≡ floor_quotient number (2 ^ N - 1) }
    ensures floor { IsFloor result number (pos (2 ^ N)) }
{
    number >> N
}
