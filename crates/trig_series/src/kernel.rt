//! Sine and cosine in the first octant, in 64 bits.
//!
//! All numbers are in units of 2⁻⁶⁴. The coefficients are 1 / n!, rounded down, and Horner's form takes them from the inside
//! out. Why errors are bounded as they are, of angles up to 45 degrees, which are less than 4/5:
//! - an angle is known to 68: pi's neighbours in units of 2⁻⁵⁶ leave 64, the product's rounding, doubled, 2, and the factor's
//!   less than 2;
//! - so its square is known to 112: twice 4/5 of 68 are 109, and rounding adds 1;
//! - a step makes an error of at most 320 into one of at most 320: 16/25 of it are 205, the square's times a half at most 56,
//!   and two roundings add 2;
//! - a sine is known to 384: 4/5 of 320 are 256, the angle's 68, and rounding adds 1.
//!
//! One scale for every kind of enclosure, whose own scale the endpoints get by `from_span`. Each step is inlined: the
//! terms run as one line of multiplications, with no loop and no branch.
ghost use Rattle.std.specs.Prelude.{◌≡◌, ◌≤◌, ◌*◌, ◌-◌, ◌/◌, ◌^◌, ℕ, pos, ◌-ℤ◌, ◌+ℤ◌};
ghost use Rattle.book_model.specs.Fraction.{Fraction, ◌≤F◌, plus, opposite, times};
ghost use Rattle.book_model.specs.Interval.{zero_fraction, between, ◌⊆◌};
ghost use Rattle.book_model.specs.programs.Leading.{units_of_56};
ghost use Rattle.book_model.specs.numbers.Octants.{radians};
ghost use Rattle.book_model.specs.numbers.Series.{sine_series, cosine_series};
ghost use Rattle.encl_core.specs.parts.TheConstants.{OCTANT};
ghost use Rattle.encl_core.specs.Units.{at_64, IsWithinUnits};
ghost use Rattle.trig_series.specs.declared.waves.Wave.TheVariants.{Cosine, Sine};
ghost use Rattle.trig_series.specs.Kernel.{IsCut, IsSquare, IsAngle, AreSineEndpoints, AreCosineEndpoints, IsInRadians};

use crate::waves::Wave;
use encl_core::high_half;

/// One step of Horner's form: a coefficient less a square times what stands further in.
#[inline(always)]
fn step(coefficient: u64, square: u64, inner: u64) -> u64
    requires falling { inner ≤ coefficient }
    requires half { 2 * inner ≤ 2 ^ 64 }
    ensures near { (c u v : Fraction) → zero_fraction ≤F u → IsCut coefficient c → IsSquare square u
        → IsWithinUnits 320 inner v → IsWithinUnits 320 result (plus c (opposite (times u v))) }
    ensures below { result ≤ coefficient }
{
    coefficient - high_half(square, inner)
}

/// A sine is its angle times the sum of its series, a cosine the sum itself. Both are there before one is taken: a choice of two numbers
/// takes no branch, and a product that one of them alone needs would.
#[inline(always)]
fn of_sum(wave: Wave, angle: u64, sum: u64) -> u64
    ensures sine { wave ≡ Sine → result ≡ angle * sum / 2 ^ 64 }
    ensures cosine { wave ≡ Cosine → result ≡ sum }
{
    let product = high_half(angle, sum);
    match wave {
        Wave::Sine => product,
        Wave::Cosine => sum,
    }
}

/// The sine or the cosine of an angle from 0 to 4/5, for each angle that is at most 68 greater: within 384 and within 320.
#[inline(always)]
fn wave_of_angle_64(wave: Wave, angle: u64) -> u64
    requires small { angle ≤ 14757395258967641292 }
    ensures sine { wave ≡ Sine → (n : ℕ) (x : Fraction) → 8 ≤ n → IsAngle angle x → AreSineEndpoints x result n }
    ensures cosine { wave ≡ Cosine → (n : ℕ) (x : Fraction) → 9 ≤ n → IsAngle angle x → AreCosineEndpoints x result n }
{
    let series = wave.coefficients();
    let square = high_half(angle, angle);
    let i = step(series.eighth, square, series.ninth);
    let h = step(series.seventh, square, i);
    let g = step(series.sixth, square, h);
    let f = step(series.fifth, square, g);
    let e = step(series.fourth, square, f);
    let d = step(series.third, square, e);
    let c = step(series.second, square, d);
    let b = step(series.first, square, c);
    let a = step(series.constant, square, b);
    of_sum(wave, angle, a)
}

/// So many degrees of an octant, in units of 2⁻⁵⁶, in radians: at most 68 less. The factor is pi · 2⁶⁹ / 180.
#[inline(always)]
fn angle(degrees: u64) -> u64
    requires octant { degrees ≤ OCTANT }
    ensures near { (n : ℕ) → 12 ≤ n → radians n (units_of_56 (pos degrees))
        ⊆ between (at_64 (pos result))
        (at_64 (pos result +ℤ pos 68)) }
    ensures there { (x : Fraction) → IsInRadians degrees x → IsAngle result x }
    ensures small { result ≤ 14757395258967641292 }
{
    high_half(degrees * 4, 10_302_605_451_487_463_560) * 2
}

/// The sine or the cosine of so many degrees of an octant, in units of 2⁻⁵⁶: within 384 and within 320.
#[inline(always)]
pub fn wave_of_degrees_56(wave: Wave, degrees: u64) -> u64
    requires octant { degrees ≤ OCTANT }
    ensures sine { wave ≡ Sine → (n : ℕ) (x : Fraction) → 8 ≤ n → IsInRadians degrees x → AreSineEndpoints x result n }
    ensures cosine { wave ≡ Cosine → (n : ℕ) (x : Fraction) → 9 ≤ n → IsInRadians degrees x
        → AreCosineEndpoints x result n }
    ensures near_sine { wave ≡ Sine → (n : ℕ) → 12 ≤ n → sine_series n (radians n (units_of_56 (pos degrees)))
        ⊆ between (at_64 (pos result -ℤ pos 384)) (at_64 (pos result +ℤ pos 384)) }
    ensures near_cosine { wave ≡ Cosine → (n : ℕ) → 12 ≤ n → cosine_series n (radians n (units_of_56 (pos degrees)))
        ⊆ between (at_64 (pos result -ℤ pos 320)) (at_64 (pos result +ℤ pos 320)) }
{
    wave_of_angle_64(wave, angle(degrees))
}

/// The sine of so many degrees of an octant, in units of 2⁻⁵⁶, within 384.
pub(crate) fn sine_of_degrees_56(degrees: u64) -> u64
    requires octant { degrees ≤ OCTANT }
    ensures near { (n : ℕ) → 12 ≤ n → sine_series n (radians n (units_of_56 (pos degrees)))
        ⊆ between
        (at_64 (pos result -ℤ pos 384)) (at_64 (pos result +ℤ pos 384)) }
    ensures endpoints { (n : ℕ) (x : Fraction) → 8 ≤ n → IsInRadians degrees x → AreSineEndpoints x result n }
{
    wave_of_degrees_56(Wave::Sine, degrees)
}

/// The cosine of so many degrees of an octant, in units of 2⁻⁵⁶, within 320.
pub(crate) fn cosine_of_degrees_56(degrees: u64) -> u64
    requires octant { degrees ≤ OCTANT }
    ensures near { (n : ℕ) → 12 ≤ n → cosine_series n (radians n (units_of_56 (pos degrees)))
        ⊆ between
        (at_64 (pos result -ℤ pos 320)) (at_64 (pos result +ℤ pos 320)) }
    ensures endpoints { (n : ℕ) (x : Fraction) → 9 ≤ n → IsInRadians degrees x
        → AreCosineEndpoints x result n }
{
    wave_of_degrees_56(Wave::Cosine, degrees)
}
