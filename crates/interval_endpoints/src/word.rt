//! Words of whole numbers, each with the scale that it counts.
//!
//! Each method is an instruction or two, and inlined: so the code for a word is what one would write for it alone. That
//! a word has no room is said by each checked method (`none`), since a law can't say that a value fits.
ghost use Rattle.std.specs.Prelude.{◌≡◌, ◌↔◌, ◌<◌, ◌-◌, ◌<ℤ◌, ◌≤ℤ◌, ◌+ℤ◌, ◌-ℤ◌, ◌*ℤ◌, ℤ, pos, neg_ℤ, IsTrue, IfSome, IsNone, FitsSigned};
ghost use Rattle.std.specs.Int.{w128, int_min, int_max};
ghost use Rattle.book_model.specs.Fraction.{floor_quotient};
ghost use Rattle.int_division.specs.Rounding.{IsFloor, IsCeiling};
ghost use Rattle.interval_endpoints.specs.Scales.{Scale, coarse, fine, unit, below, finer_units, word};

use crate::parts::{ONE, ONE_36, WIDE_ONE_36};
use int_division::{ceil_div, floor_div, shr_floor};

/// How many units of 2⁻⁵⁶ are one of 2⁻³⁶.
const FINER_UNITS: i128 = 1 << 20;

/// A whole number of so many bits, which counts the units of a scale.
pub trait MachineWord: Copy + Drop {
    /// The scale.
    // Ghost members, so that a lemma on endpoints takes the scale as an argument. The limits below which
    // an operation keeps its bound are a function of its bits (`limits_at`), proved for these two.
    ghost scale: { Scale };

    /// How many units it counts.
    ghost value: { Self → ℤ };

    /// 1.
    fn one() -> Self
        ensures value { value result ≡ unit scale };

    /// -1.
    fn minus_one() -> Self
        ensures value { value result ≡ neg_ℤ (unit scale) };

    /// How many units 1 has.
    fn units() -> i128
        ensures value { result ≡ unit scale };

    /// A whole number, where it fits.
    fn whole(number: i64) -> Option<Self>
        ensures value { IfSome result (λ r. value r ≡ number *ℤ unit scale) }
        ensures none { IsNone result → ¬ FitsSigned (word scale) (number *ℤ unit scale) };

    /// So many units, where they fit.
    fn of_units(units: i128) -> Option<Self>
        ensures value { IfSome result (λ r. value r ≡ units) }
        ensures none { IsNone result → ¬ FitsSigned (word scale) units };

    /// The lesser of two numbers.
    fn min(self, other: Self) -> Self
        ensures least { value result ≡ int_min (value self) (value other) };

    /// The greater of two numbers.
    fn max(self, other: Self) -> Self
        ensures greatest { value result ≡ int_max (value self) (value other) };

    /// The sum, where it fits.
    fn checked_add(self, other: Self) -> Option<Self>
        ensures sum { IfSome result (λ r. value r ≡ value self +ℤ value other) }
        ensures none { IsNone result → ¬ FitsSigned (word scale) (value self +ℤ value other) };

    /// The difference, where it fits.
    fn checked_sub(self, other: Self) -> Option<Self>
        ensures difference { IfSome result (λ r. value r ≡ value self -ℤ value other) }
        ensures none { IsNone result → ¬ FitsSigned (word scale) (value self -ℤ value other) };

    /// The opposite, where it fits.
    fn checked_neg(self) -> Option<Self>
        ensures opposite { IfSome result (λ r. value r ≡ pos 0 -ℤ value self) }
        ensures none { IsNone result → ¬ FitsSigned (word scale) (pos 0 -ℤ value self) };

    /// The sum with a number of units, where it fits.
    fn raised(self, units: i128) -> Option<Self>
        ensures sum { IfSome result (λ r. value r ≡ value self +ℤ units) }
        ensures none { IsNone result → ¬ FitsSigned (word scale) (value self +ℤ units) };

    /// The difference from a number of units, where it fits.
    fn lowered(self, units: i128) -> Option<Self>
        ensures difference { IfSome result (λ r. value r ≡ value self -ℤ units) }
        ensures none { IsNone result → ¬ FitsSigned (word scale) (value self -ℤ units) };

    /// The product with a factor; `None` only where 128 bits have no room.
    fn checked_mul(self, factor: i128) -> Option<i128>
        ensures product { IfSome result (λ p. p ≡ value self *ℤ factor) }
        ensures none { IsNone result → ¬ FitsSigned w128 (value self *ℤ factor) };

    /// Whether the number is below another.
    fn is_less(self, other: Self) -> bool
        ensures below { IsTrue result ↔ (value self <ℤ value other) };

    /// Whether the number is another.
    fn is_equal(self, other: Self) -> bool
        ensures same { IsTrue result ↔ (value self ≡ value other) };

    /// The greatest whole number that is not above this many units.
    fn floor(self) -> Self
        ensures value { value result ≡ floor_quotient (value self) (below scale) };

    /// How often the modulus goes into a whole number, rounded down.
    fn period(self, modulus: u32) -> Self
        requires { 0 < modulus }
        ensures value { value result ≡ floor_quotient (value self) (modulus - 1) };

    /// How far the number is above the beginning of a period, in which it lies.
    fn rest(self, modulus: u32, period: Self) -> Option<Self>
        requires positive { 0 < modulus }
        requires begun { ((pos modulus *ℤ value period) *ℤ unit scale) ≤ℤ value self }
        requires not_over { value self <ℤ ((pos modulus *ℤ value period +ℤ pos modulus)
            *ℤ unit scale) }
        ensures value { IfSome result (λ r. value r ≡ value self -ℤ
            ((pos modulus *ℤ value period) *ℤ unit scale)) }
        ensures none { IsNone result → ¬ FitsSigned (word scale)
            (value self -ℤ ((pos modulus *ℤ value period) *ℤ unit scale)) };

    /// The same number in units of 2⁻⁵⁶.
    fn at_fine_scale(self) -> i128
        ensures value { result ≡ value self *ℤ finer_units scale };

    /// A number in units of 2⁻⁵⁶ as one in units of the scale, rounded down.
    fn floor_of_fine(finer: i128) -> i128
        ensures floor { IsFloor result finer (finer_units scale) };

    /// A number in units of 2⁻⁵⁶ as one in units of the scale, rounded up.
    fn ceil_of_fine(finer: i128) -> i128
        ensures ceiling { IsCeiling result finer (finer_units scale) };
}

impl MachineWord for i64 {
    ghost scale = { coarse };

    ghost value = { λ n. n };

    #[inline(always)]
    fn one() -> i64 {
        ONE_36
    }

    #[inline(always)]
    fn minus_one() -> i64 {
        -ONE_36
    }

    #[inline(always)]
    fn units() -> i128 {
        WIDE_ONE_36
    }

    #[inline(always)]
    fn whole(number: i64) -> Option<i64> {
        number.checked_mul(ONE_36)
    }

    #[inline(always)]
    fn of_units(units: i128) -> Option<i64> {
        i64::try_from(units).ok()
    }

    #[inline(always)]
    fn min(self, other: i64) -> i64 {
        Ord::min(self, other)
    }

    #[inline(always)]
    fn max(self, other: i64) -> i64 {
        Ord::max(self, other)
    }

    #[inline(always)]
    fn checked_add(self, other: i64) -> Option<i64> {
        self.checked_add(other)
    }

    #[inline(always)]
    fn checked_sub(self, other: i64) -> Option<i64> {
        self.checked_sub(other)
    }

    #[inline(always)]
    fn checked_neg(self) -> Option<i64> {
        self.checked_neg()
    }

    #[inline(always)]
    fn raised(self, units: i128) -> Option<i64> {
        let sum = i128::from(self).checked_add(units)?;
        i64::try_from(sum).ok()
    }

    #[inline(always)]
    fn lowered(self, units: i128) -> Option<i64> {
        let difference = i128::from(self).checked_sub(units)?;
        i64::try_from(difference).ok()
    }

    #[inline(always)]
    fn checked_mul(self, factor: i128) -> Option<i128> {
        match i64::try_from(factor) {
            // Two factors of 64 bits always have room; one of 128 has where the checked product
            // does.
            Ok(small) => Some(i128::from(self) * i128::from(small)),
            Err(_) => i128::from(self).checked_mul(factor),
        }
    }

    #[inline(always)]
    fn is_less(self, other: i64) -> bool {
        self < other
    }

    #[inline(always)]
    fn is_equal(self, other: i64) -> bool {
        self == other
    }

    #[inline(always)]
    fn floor(self) -> i64 {
        // A shift rounds down, also below 0.
        self >> 36
    }

    #[inline(always)]
    fn period(self, modulus: u32) -> i64 {
        self.div_euclid(i64::from(modulus))
    }

    #[inline(always)]
    fn rest(self, modulus: u32, period: i64) -> Option<i64> {
        let begun = i128::from(modulus) * i128::from(period);
        i64::of_units(i128::from(self) - begun * WIDE_ONE_36)
    }

    #[inline(always)]
    fn at_fine_scale(self) -> i128 {
        i128::from(self) * FINER_UNITS
    }

    #[inline(always)]
    fn floor_of_fine(finer: i128) -> i128 {
        floor_div(finer, FINER_UNITS)
    }

    #[inline(always)]
    fn ceil_of_fine(finer: i128) -> i128 {
        ceil_div(finer, FINER_UNITS)
    }
}

impl MachineWord for i128 {
    ghost scale = { fine };

    ghost value = { λ n. n };

    #[inline(always)]
    fn one() -> i128 {
        ONE
    }

    #[inline(always)]
    fn minus_one() -> i128 {
        -ONE
    }

    #[inline(always)]
    fn units() -> i128 {
        ONE
    }

    #[inline(always)]
    fn whole(number: i64) -> Option<i128> {
        Some(i128::from(number) * ONE)
    }

    #[inline(always)]
    fn of_units(units: i128) -> Option<i128> {
        Some(units)
    }

    #[inline(always)]
    fn min(self, other: i128) -> i128 {
        Ord::min(self, other)
    }

    #[inline(always)]
    fn max(self, other: i128) -> i128 {
        Ord::max(self, other)
    }

    #[inline(always)]
    fn checked_add(self, other: i128) -> Option<i128> {
        self.checked_add(other)
    }

    #[inline(always)]
    fn checked_sub(self, other: i128) -> Option<i128> {
        self.checked_sub(other)
    }

    #[inline(always)]
    fn checked_neg(self) -> Option<i128> {
        self.checked_neg()
    }

    #[inline(always)]
    fn raised(self, units: i128) -> Option<i128> {
        self.checked_add(units)
    }

    #[inline(always)]
    fn lowered(self, units: i128) -> Option<i128> {
        self.checked_sub(units)
    }

    #[inline(always)]
    fn checked_mul(self, factor: i128) -> Option<i128> {
        self.checked_mul(factor)
    }

    #[inline(always)]
    fn is_less(self, other: i128) -> bool {
        self < other
    }

    #[inline(always)]
    fn is_equal(self, other: i128) -> bool {
        self == other
    }

    #[inline(always)]
    fn floor(self) -> i128 {
        shr_floor::<56>(self)
    }

    #[inline(always)]
    fn period(self, modulus: u32) -> i128 {
        self.div_euclid(i128::from(modulus))
    }

    #[inline(always)]
    fn rest(self, modulus: u32, period: i128) -> Option<i128> {
        // By the whole part: where the period begins may lie below the least number.
        let whole = self.floor();
        let begun = i128::from(modulus) * period;
        let rest = self - whole * ONE;
        Some((whole - begun) * ONE + rest)
    }

    #[inline(always)]
    fn at_fine_scale(self) -> i128 {
        self
    }

    #[inline(always)]
    fn floor_of_fine(finer: i128) -> i128 {
        finer
    }

    #[inline(always)]
    fn ceil_of_fine(finer: i128) -> i128 {
        finer
    }
}
