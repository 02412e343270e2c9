//! Quotients of counts of days, months and years, rounded down and up, and their remainders, as the definitions take them.
//!
//! Numbers from -50,000,000 to 50,000,000 are asked for, so that products with the parts of a span fit the word; the
//! calendars' days and years are a fiftieth of that. Divisors are above 0: each is a constant, a denominator, or an
//! endpoint that was tested, so no answer tells that there is none.
ghost use Rattle.std.specs.Prelude.{◌≡◌, ◌<◌, pos, ◌≤ℤ◌, ◌<ℤ◌, ◌-ℤ◌, ◌*ℤ◌};
ghost use Rattle.exact_math.specs.Quotients.{quotient_down, quotient_up as quotient_up_of, amod as amod_of, modulo as modulo_of};
ghost use Rattle.int_division.specs.Counts.{IsCount};

/// The greatest whole number that isn't above the quotient, of a number of 128 bits.
pub fn wide_quotient(number: i128, divisor: u64) -> i128
    requires positive { 0 < divisor }
    ensures quotient { result ≡ quotient_down number divisor }
{
    number.div_euclid(i128::from(divisor))
}

// The definitions take a divisor of any size, and read 0 as 1.
/// The least whole number that isn't below the quotient.
pub fn quotient_up(number: i64, divisor: u8) -> i64
    requires positive { 0 < divisor }
    requires number { IsCount number }
    ensures quotient { result ≡ quotient_up_of number divisor }
{
    -(-number).div_euclid(i64::from(divisor))
}

/// The greatest whole number that isn't above the quotient.
pub fn quotient(number: i64, divisor: u16) -> i64
    requires positive { 0 < divisor }
    requires number { IsCount number }
    ensures quotient { result ≡ quotient_down number divisor }
{
    number.div_euclid(i64::from(divisor))
}

/// A number less a multiple of the divisor, given that what is left is from 0 to less than the divisor.
fn left_below(number: i64, whole: i64, divisor: u16) -> i64
    requires from { pos 0 ≤ℤ (number -ℤ whole *ℤ pos divisor) }
    requires to { (number -ℤ whole *ℤ pos divisor) <ℤ pos divisor }
    requires number { IsCount number }
    ensures left { result ≡ number -ℤ whole *ℤ pos divisor }
{
    number - whole * i64::from(divisor)
}

/// What is left of a number by multiples of the divisor, from 0 to less than the divisor.
pub fn modulo(number: i64, divisor: u16) -> i64
    requires positive { 0 < divisor }
    requires number { IsCount number }
    ensures number { result ≡ modulo_of number divisor }
    ensures from { pos 0 ≤ℤ result }
    ensures to { result <ℤ pos divisor }
{
    left_below(number, quotient(number, divisor), divisor)
}

/// A number less a multiple of the divisor, given that what is left is from 1 to the divisor.
fn left_of(number: i64, whole: i64, divisor: u8) -> i64
    requires from { pos 1 ≤ℤ (number -ℤ whole *ℤ pos divisor) }
    requires to { (number -ℤ whole *ℤ pos divisor) ≤ℤ pos divisor }
    requires number { IsCount number }
    ensures left { result ≡ number -ℤ whole *ℤ pos divisor }
{
    number - whole * i64::from(divisor)
}

/// The greatest whole number that isn't above the quotient of the number before this one: how many whole groups of the
/// divisor's size come before the group in which the number falls, where numbers and groups count from 1.
pub fn quotient_before(number: i64, divisor: u8) -> i64
    requires positive { 0 < divisor }
    requires number { IsCount number }
    ensures quotient { result ≡ quotient_down (number -ℤ pos 1) divisor }
{
    (number - 1).div_euclid(i64::from(divisor))
}

// It stands below the evaluator and the calendars, so that the number of a major solar term, which
// both count from 1 on, is this one function.
/// The number from 1 to the divisor that differs from this one by a multiple of it.
pub fn amod(number: i64, divisor: u8) -> i64
    requires positive { 0 < divisor }
    requires number { IsCount number }
    ensures number { result ≡ amod_of number divisor }
    ensures from { pos 1 ≤ℤ result }
    ensures to { result ≤ℤ pos divisor }
{
    left_of(number, quotient_before(number, divisor), divisor)
}
