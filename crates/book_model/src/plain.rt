//! A slow plain program beside a definition: ΔT of a year in exact decimals, to compare with tables.
//!
//! The other such program is `write_text` of conversion, whose contract is the text.
ghost use Rattle.std.specs.Prelude.{◌≡◌, ◌≤◌, ◌<◌, ◌*◌, ◌-◌, ◌^◌, suc, ℤ, ℕ, pos, ◌-ℤ◌, ◌≤ℤ◌, length, IfSome};
ghost use Rattle.exact_math.specs.Fraction.{◌≈◌, whole, times};
ghost use Rattle.book_model.specs.numbers.Expressions.{World, value};
ghost use Rattle.book_model.specs.numbers.Fractions.{fraction_of};
ghost use Rattle.book_model.specs.sky.Plain.{decimal_11, seconds_11, exact_to, IsNumber, IsAnswerAnd};
ghost use Rattle.book_model.specs.sky.Time.{correction_of_year};

use crate::{CorrectionForm, Frac, row_of_year};

/// The scale of the decimals: 10¹¹, which every denominator of ΔT divides.
const SCALE: u64 = 100_000_000_000;

/// How many units of 10⁻¹¹ one part of this denominator has, where they are whole.
fn units(given: u64) -> Option<u64>
    ensures { IfSome result (λ q. q * suc (given - 1) ≡ 10 ^ 11) }
{
    let den = given.max(1);
    if SCALE % den == 0 {
        Some(SCALE / den)
    } else {
        None
    }
}

/// A coefficient times a power, in 10⁻¹¹; `None` where it isn't such a decimal, or is too large.
fn scaled_term(coefficient: Frac, power: i64) -> Option<i128>
    ensures { IfSome result (λ n. decimal_11 n ≈ times (whole power) (fraction_of coefficient)) }
{
    let units = i128::from(units(coefficient.den)?);
    let scaled = coefficient.num.checked_mul(units)?;
    scaled.checked_mul(i128::from(power))
}

/// The polynomial with these coefficients at a whole number, in 10⁻¹¹; `None` where it isn't such a decimal, or a
/// part of it is too large.
pub fn exact_polynomial(coefficients: &[Frac], x: i64) -> Option<i128>
    ensures { IfSome result (λ n. decimal_11 n ≈ exact_to coefficients.now x
        (length coefficients.now)) }
{
    let mut sum = 0i128;
    let mut power = 1i64;
    for coefficient in coefficients {
        sum = sum.checked_add(scaled_term(*coefficient, power)?)?;
        power = power.checked_mul(x)?;
    }
    Some(sum)
}

/// Dynamical time less universal time in a year, in 10⁻¹¹ seconds, exactly; `None` where the year's row isn't one of seconds by
/// whole years.
pub fn exact_correction(year: i64) -> Option<i128>
    ensures { IfSome result (λ n. (w : World) → IsAnswerAnd (correction_of_year year)
        (λ c. IsNumber (seconds_11 n) (value w c))) }
{
    let row = row_of_year(year)?;
    match row.2 {
        CorrectionForm::SecondsSince(origin) => {
            exact_polynomial(row.3, year.checked_sub(origin)?)
        }
        _ => None,
    }
}
