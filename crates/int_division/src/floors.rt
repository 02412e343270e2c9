//! Quotients rounded down and up, in 64 bits where that can be.
//!
//! A division of 128 bits is many times slower than one of 64, and one by a constant is a multiplication: hence the
//! ways below, tried in turn, and hence `#[inline(always)]`, which lets the constant of the caller through.
ghost use Rattle.std.specs.Prelude.{◌≡◌, ◌^◌, ◌<◌, ◌+ℤ◌, pos, ◌≤ℤ◌, ◌<ℤ◌, ◌-ℤ◌, ◌*ℤ◌, int_div, IfSome};
ghost use Rattle.int_division.specs.Rounding.{IsFloor, IsCeiling};

use crate::shifts::shr_floor;

/// A quotient in two steps: the upper part of a dividend counts units of 2²⁹, and 29 bits are left for the second step.
const STEP_BITS: u32 = 29;

/// The unit of the upper part.
const STEP_UNIT: i128 = 1 << STEP_BITS;

/// A divisor in two steps is below this: so what it leaves of the upper part, with 29 further bits, fits 64.
const STEP_DIVISORS: i128 = 1 << 35;

/// The number in 64 bits, where it fits.
#[inline(always)]
fn as_64_bits(n: i128) -> Option<i64>
    ensures value { IfSome result (λ a. a ≡ n) }
{
    i64::try_from(n).ok()
}

/// The quotient of a number that isn't negative, rounded down.
#[inline(always)]
fn natural_floor(n: i64, d: i64) -> i64
    requires natural { pos 0 ≤ℤ n }
    requires divisor { pos 0 <ℤ d }
    ensures floor { IsFloor result n d }
    ensures natural { pos 0 ≤ℤ result }
{
    n / d
}

/// The quotient of `n` by `d`, rounded down, in 64 bits. By a constant it is a multiplication.
#[inline(always)]
pub fn floor_div_i64(n: i64, d: i64) -> i64
    requires { pos 0 <ℤ d }
    ensures { IsFloor result n d }
{
    if n < 0 {
        -1 - natural_floor(-1 - n, d)
    } else {
        natural_floor(n, d)
    }
}

/// The quotient of `n` by `d`, rounded down, in 64 bits, where both fit: there a division is many times faster.
#[inline(always)]
fn floor_in_64_bits(n: i128, d: i128) -> Option<i64>
    requires { pos 0 <ℤ d }
    ensures value { IfSome result (λ q. IsFloor q n d) }
{
    let n = as_64_bits(n)?;
    let d = as_64_bits(d)?;
    Some(floor_div_i64(n, d))
}

/// A divisor that is small enough for two steps.
#[inline(always)]
fn small_divisor(d: i128) -> Option<i64>
    requires { pos 0 <ℤ d }
    ensures value { IfSome result (λ m. m ≡ d) }
    ensures small { IfSome result (λ m. m <ℤ pos (2 ^ 35)) }
{
    if d < STEP_DIVISORS {
        as_64_bits(d)
    } else {
        None
    }
}

/// What is left of a quotient after its upper part: `rest` · 2²⁹ + `low`, by `d`, rounded down.
#[inline(always)]
fn last_step(rest: u64, low: u64, d: u64) -> u64
    requires divisor { 0 < d }
    requires small { d < 2 ^ 35 }
    requires rest { rest < d }
    requires low { low < 2 ^ 29 }
    ensures floor { IsFloor (pos result) (pos rest *ℤ pos (2 ^ 29) +ℤ pos low) (pos d) }
{
    (rest * STEP_UNIT as u64 + low) / d
}

// Small functions, so that each proof is about one expression.
/// What is left of a number above so many times a divisor.
#[inline(always)]
fn rest_of(number: i64, times: i64, d: i64) -> u64
    requires floor { IsFloor times number d }
    requires small { d <ℤ pos (2 ^ 35) }
    ensures value { pos result ≡ number -ℤ times *ℤ d }
    ensures less { pos result <ℤ d }
{
    (i128::from(number) - i128::from(times) * i128::from(d)) as u64
}

/// What is left of a number above its upper part, in units of 2²⁹.
#[inline(always)]
fn low_part(number: i128, upper: i128) -> u64
    requires { IsFloor upper number (pos (2 ^ 29)) }
    ensures value { pos result ≡ number -ℤ upper *ℤ pos (2 ^ 29) }
    ensures less { result < 2 ^ 29 }
{
    (number - upper * STEP_UNIT) as u64
}

/// The quotient of `n` by `d`, rounded down, in two steps of 64 bits, where `d` is small and the upper part of `n` fits.
#[inline(always)]
fn stepped_floor(n: i128, d: i128) -> Option<i128>
    requires { pos 0 <ℤ d }
    ensures value { IfSome result (λ q. IsFloor q n d) }
{
    let d = small_divisor(d)?;
    let part = shr_floor::<STEP_BITS>(n);
    let upper = as_64_bits(part)?;
    let quotient = floor_div_i64(upper, d);
    let rest = rest_of(upper, quotient, d);
    let last = last_step(rest, low_part(n, part), d as u64);
    Some(i128::from(quotient) * STEP_UNIT + i128::from(last))
}

/// The quotient of `n` by 128 times `d`, rounded down, in two steps of 64 bits, where these suffice. A power of ten,
/// over which tables are made, holds a factor of 128.
#[inline(always)]
fn shifted_floor(n: i128, d: i128) -> Option<i128>
    requires { pos 0 <ℤ d }
    ensures value { IfSome result (λ q. IsFloor q n (d *ℤ pos 128)) }
{
    stepped_floor(shr_floor::<7>(n), d)
}

/// The quotient of `n` by `d`, rounded down, in two steps of 64 bits, where these suffice.
#[inline(always)]
fn reduced_floor(n: i128, d: i128) -> Option<i128>
    requires { pos 0 <ℤ d }
    ensures value { IfSome result (λ q. IsFloor q n d) }
{
    // A factor of 128 that both hold is taken out: so more divisors are small, and more dividends
    // fit.
    if d % 128 == 0 {
        shifted_floor(n, d / 128)
    } else {
        stepped_floor(n, d)
    }
}

/// The quotient of `n` by `d`, rounded down. There is nothing to divide by 1.
#[inline(always)]
pub fn floor_div(n: i128, d: i128) -> i128
    requires { pos 0 <ℤ d }
    ensures { IsFloor result n d }
{
    if d == 1 {
        return n;
    }
    // Most numbers are small: one division of 64 bits.
    if let Some(quotient) = floor_in_64_bits(n, d) {
        return i128::from(quotient);
    }
    match reduced_floor(n, d) {
        Some(quotient) => quotient,
        None => n.div_euclid(d),
    }
}

/// The quotient of `n` by `d`, rounded towards 0.
fn whole_quotient(n: i128, d: i128) -> i128
    requires { pos 0 <ℤ d }
    ensures value { result ≡ int_div n d }
{
    n / d
}

/// The quotient of `n` by `d`, rounded up.
#[inline(always)]
pub fn ceil_div(n: i128, d: i128) -> i128
    requires { pos 0 <ℤ d }
    ensures { IsCeiling result n d }
{
    // One more than the floor of the number before: no opposite is taken, for which 128 bits may
    // have no room.
    match n.checked_sub(1) {
        Some(before) => floor_div(before, d) + 1,
        None => whole_quotient(n, d),
    }
}
