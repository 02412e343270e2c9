//! Words with their products, quotients and roots, rounded to the scale.
//!
//! The rule for an operation, which corners are the least and the greatest, by which divisor, what a divisor below 0 or
//! around 0 does, is code over this trait; a method is what differs from word to word. In 64 bits there is always room,
//! so that the lemmas on too little room (`Room.antt`) are one line there.
ghost use Rattle.std.specs.Prelude.{◌≡◌, ◌<ℤ◌, ◌≤ℤ◌, ◌+ℤ◌, ◌-ℤ◌, ◌*ℤ◌, pos, IfSome, IsNone, FitsSigned};
ghost use Rattle.book_model.specs.numbers.Roots.{natural_part};
ghost use Rattle.interval_endpoints.specs.WholeRounding.{IsFloor, IsCeiling};
ghost use Rattle.interval_endpoints.specs.Scales.{unit, word};
ghost use Rattle.interval_products.specs.Room.{HasProduct, IsDividend, HasQuotient, HasRoot};

use crate::stepping::{stepped_down, stepped_up};
use crate::whole_roots::whole_root;
use interval_endpoints::parts::{ONE, WIDE_ONE_36};
use interval_endpoints::{MachineWord, ceil_div, floor_div, shr_floor};

/// A word whose products, quotients and roots are rounded to its scale. They are taken in 128 bits, and are `None` only where
/// these have no room.
pub trait RoundingWord: MachineWord {
    /// The number in 128 bits.
    fn wide(self) -> i128
        ensures value { result ≡ Self.value self }
        ensures fits { FitsSigned (word Self.scale) result };

    /// The product, which counts the squares of units.
    fn product(self, other: Self) -> Option<i128>
        ensures product { IfSome result (λ p. p ≡ Self.value self *ℤ Self.value other) }
        ensures none { IsNone result → ¬ HasProduct Self.scale (Self.value self
            *ℤ Self.value other) };

    /// A product as a number of units, rounded down.
    fn floor_product(product: i128) -> i128
        ensures floor { IsFloor result product (unit Self.scale) };

    /// A product as a number of units, rounded up.
    fn ceil_product(product: i128) -> i128
        ensures ceiling { IsCeiling result product (unit Self.scale) };

    // Divisors are above 0: the sign is dealt with once, by `div_endpoints`.
    /// The quotient of two numbers of units, in units, rounded down.
    fn quotient_down(dividend: i128, divisor: i128) -> Option<i128>
        requires dividend { IsDividend Self.scale dividend }
        requires divisor { pos 0 <ℤ divisor }
        ensures value { IfSome result (λ q. IsFloor q (dividend *ℤ unit Self.scale) divisor) }
        ensures none { IsNone result → ¬ HasQuotient Self.scale dividend divisor };

    /// The quotient of two numbers of units, in units, rounded up.
    fn quotient_up(dividend: i128, divisor: i128) -> Option<i128>
        requires dividend { IsDividend Self.scale dividend }
        requires divisor { pos 0 <ℤ divisor }
        ensures value { IfSome result (λ q. IsCeiling q (dividend *ℤ unit Self.scale) divisor) }
        ensures none { IsNone result → ¬ HasQuotient Self.scale dividend divisor };

    /// The greatest number of units whose square is at most this one; a negative number counts as 0.
    fn root_down(self) -> Option<i128>
        ensures natural { IfSome result (λ r. pos 0 ≤ℤ r) }
        ensures square { IfSome result (λ r. (r *ℤ r) ≤ℤ
            (pos (natural_part (Self.value self)) *ℤ unit Self.scale)) }
        ensures close { IfSome result (λ r. (pos (natural_part (Self.value self))
            *ℤ unit Self.scale)
            <ℤ ((r +ℤ pos 1) *ℤ (r +ℤ pos 1))) }
        ensures none { IsNone result → ¬ HasRoot Self.scale (Self.value self) };

    /// The least number of units whose square is at least this one; a negative number counts as 0.
    fn root_up(self) -> Option<i128>
        ensures natural { IfSome result (λ r. pos 0 ≤ℤ r) }
        ensures square { IfSome result (λ r. (pos (natural_part (Self.value self))
            *ℤ unit Self.scale)
            ≤ℤ (r *ℤ r)) }
        ensures close { IfSome result (λ r. pos 1 ≤ℤ r → ((r -ℤ pos 1) *ℤ (r -ℤ pos 1)) <ℤ
            (pos (natural_part (Self.value self)) *ℤ unit Self.scale)) }
        ensures none { IsNone result → ¬ HasRoot Self.scale (Self.value self) };
}

impl RoundingWord for i64 {
    #[inline(always)]
    fn wide(self) -> i128 {
        i128::from(self)
    }

    #[inline(always)]
    fn product(self, other: i64) -> Option<i128> {
        Some(i128::from(self) * i128::from(other))
    }

    #[inline(always)]
    fn floor_product(product: i128) -> i128 {
        shr_floor::<36>(product)
    }

    #[inline(always)]
    fn ceil_product(product: i128) -> i128 {
        // Rounded up by the number rounded down: no opposite is taken, for which 128 bits may have
        // no room, so that a product which fits is always rounded.
        let down = shr_floor::<36>(product);
        if down * WIDE_ONE_36 == product {
            down
        } else {
            down + 1
        }
    }

    #[inline(always)]
    fn quotient_down(dividend: i128, divisor: i128) -> Option<i128> {
        Some(floor_div(dividend * WIDE_ONE_36, divisor))
    }

    #[inline(always)]
    fn quotient_up(dividend: i128, divisor: i128) -> Option<i128> {
        Some(ceil_div(dividend * WIDE_ONE_36, divisor))
    }

    #[inline(always)]
    fn root_down(self) -> Option<i128> {
        if self <= 0 {
            return Some(0);
        }
        Some(i128::from(whole_root(u128::from(self.unsigned_abs()) * WIDE_ONE_36 as u128)))
    }

    #[inline(always)]
    fn root_up(self) -> Option<i128> {
        if self <= 0 {
            return Some(0);
        }
        Some(i128::from(whole_root(u128::from(self.unsigned_abs()) * WIDE_ONE_36 as u128 - 1)) + 1)
    }
}

impl RoundingWord for i128 {
    #[inline(always)]
    fn wide(self) -> i128 {
        self
    }

    #[inline(always)]
    fn product(self, other: i128) -> Option<i128> {
        self.checked_mul(other)
    }

    #[inline(always)]
    fn floor_product(product: i128) -> i128 {
        shr_floor::<56>(product)
    }

    #[inline(always)]
    fn ceil_product(product: i128) -> i128 {
        let down = shr_floor::<56>(product);
        if down * ONE == product {
            down
        } else {
            down + 1
        }
    }

    fn quotient_down(dividend: i128, divisor: i128) -> Option<i128> {
        match dividend.checked_mul(ONE) {
            // One division where the raised dividend fits; else two steps, which need a small
            // divisor only.
            Some(raised) => Some(floor_div(raised, divisor)),
            None => stepped_down(dividend, divisor),
        }
    }

    fn quotient_up(dividend: i128, divisor: i128) -> Option<i128> {
        match dividend.checked_mul(ONE) {
            Some(raised) => Some(ceil_div(raised, divisor)),
            None => stepped_up(dividend, divisor),
        }
    }

    fn root_down(self) -> Option<i128> {
        if self <= 0 {
            return Some(0);
        }
        let raised = self.unsigned_abs().checked_mul(ONE as u128)?;
        Some(i128::from(whole_root(raised)))
    }

    fn root_up(self) -> Option<i128> {
        if self <= 0 {
            return Some(0);
        }
        let raised = self.unsigned_abs().checked_mul(ONE as u128)?;
        Some(i128::from(whole_root(raised - 1)) + 1)
    }
}
