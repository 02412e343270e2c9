//! Polynomials of enclosures.
ghost use Rattle.book_model.specs.programs.Calls.{Encloses, Encloses1, Holds, Narrows};
ghost use Rattle.book_model.specs.programs.Widths.{IsAbout};
ghost use Rattle.std.specs.Prelude.{◌≡◌, ◌≤◌, ℕ, true, length, unsigned_abs};
ghost use Rattle.book_model.specs.sky.Correction.{polynomial_of};
ghost use Rattle.book_model.specs.numbers.Fractions.{fraction_of};
ghost use Rattle.book_model.specs.numbers.Polynomials.{quadratic_of, cubic_of, polynomial_at};
ghost use Rattle.encl_core.specs.Sizes.{HasSize};
ghost use Rattle.time_scales.specs.Horner.{horner_of, horner_size, horner_width, horner_fits};

use book_model::Frac;
use encl_core::Enclosure;

/// The polynomial with these coefficients at a whole number, its powers taken in whole numbers. A row of ΔT has seven coefficients at most
/// and its years are at most 256 from its origin: the sixth power is at most 2⁴⁸, and the next one, which isn't used, 2⁵⁶.
#[inline(always)]
#[tactic(auto, using(crate::proofs::WholePowers::polynomials))]
pub(crate) fn at_whole<E: Enclosure>(coefficients: &[Frac], x: i64) -> E
    requires few { length coefficients.now ≤ 7 }
    requires small { unsigned_abs x ≤ 256 }
    ensures encloses { Encloses E.shown E.BITS (polynomial_of coefficients.now x) result }
{
    let mut sum = E::from_int(0);
    // Powers in whole numbers, and from the constant on, as in the definition: a sum of coefficient
    // times power.
    let mut power = 1i64;
    for coefficient in coefficients {
        sum = sum.add(E::from_int(power).mul_frac(*coefficient));
        power *= x;
    }
    sum
}

/// The polynomial with these coefficients at a fraction, from the inside out.
#[inline(always)]
#[tactic(auto, using(crate::proofs::HornerLemmas::horner))]
fn horner<E: Enclosure>(coefficients: &[Frac], x: Frac) -> E
    ensures holds { Holds E.shown (polynomial_at coefficients.now (fraction_of x)) result }
    ensures narrow { Narrows E.shown E.BITS (horner_of coefficients.now (fraction_of x)) result }
{
    let mut sum = E::from_int(0);
    for count in 0..coefficients.len() {
        let coefficient = coefficients[coefficients.len() - 1 - count];
        sum = sum.mul_frac(x).add(E::from_frac(coefficient));
    }
    sum
}

/// The polynomial with these coefficients at a fraction, in Horner's form: at one fraction every order of its terms
/// gives the same number. How wide it is at a fraction of at most some size is computed of the coefficients.
#[inline(always)]
pub fn at_fraction<E: Enclosure>(coefficients: &[Frac], x: Frac) -> E
    ensures holds { Holds E.shown (polynomial_at coefficients.now (fraction_of x)) result }
    ensures narrow { Narrows E.shown E.BITS (horner_of coefficients.now (fraction_of x)) result }
    ensures measured { (size : ℕ) → E.BITS ≡ 56 → HasSize size (fraction_of x)
        → horner_fits coefficients.now size (length coefficients.now) ≡ true
        → IsAbout (horner_size coefficients.now size (length coefficients.now))
        (horner_width size (length coefficients.now)) (E.shown result) }
{
    horner::<E>(coefficients, x)
}
