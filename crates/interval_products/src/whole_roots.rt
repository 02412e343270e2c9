//! Roots of whole numbers, rounded down.
//!
//! `isqrt` of std halves its range 64 times, with a product of 128 bits each time, and an arcsine takes two roots. A guess by the inverse
//! of the root, which Newton's rule finds by products alone, is the root or beside it, up to roots of some 50 bits; one more step, by a
//! division, tells longer ones. A guess isn't proved but tested, by one square: so one that is off costs time and never a digit.
ghost use Rattle.std.specs.Prelude.{◌≤◌, ◌<◌, ◌+◌, ◌*◌, IsTrue};

use interval_endpoints::high_half;

/// Three numbers in 2⁻⁶² whose quadratic, 2.6286 - 3.1340 x + 1.5232 x², is within 3 percent of the inverse of the root of x from a quarter
/// to 1.
const CONSTANT: u64 = 12_122_503_877_672_765_440;

const LINEAR: u64 = 14_452_889_409_366_196_224;

const SQUARE: u64 = 7_024_447_160_050_234_368;

/// How many steps are made. A step makes of a part e of the inverse that a guess is off at most 2 e²: after four of them 3 percent are
/// below 2⁻⁷⁰, and what is left is the rounding.
const STEPS: u32 = 4;

/// Three, in 2⁻⁶⁰.
const THREE_60: u64 = 3 << 60;

/// A number from a quarter to 1, in 2⁻⁶⁴, and the inverse of its root, in 2⁻⁶²: a guess by a quadratic.
#[inline(always)]
fn first_inverse(number: u64) -> u64 {
    let slope = LINEAR.wrapping_sub(high_half(number, SQUARE));
    CONSTANT.wrapping_sub(high_half(number, slope))
}

/// A step of Newton's rule, y (3 - x y²) / 2.
#[inline(always)]
fn nearer_inverse(number: u64, inverse: u64) -> u64 {
    let square = high_half(inverse, inverse);
    let twice = THREE_60.wrapping_sub(high_half(number, square));
    high_half(inverse, twice) << 3
}

/// A guess of the root of a number from a quarter to 1, both in 2⁻⁶⁴.
#[inline(always)]
fn root_of_part(number: u64) -> u64 {
    let mut inverse = first_inverse(number);
    for _ in 0..STEPS {
        inverse = nearer_inverse(number, inverse);
    }
    high_half(number, inverse) << 2
}

/// A guess of the root: of the number's upper 64 bits, moved up by an even number of bits.
#[inline(always)]
fn guess_of(number: u128) -> u64 {
    if number == 0 {
        return 0;
    }
    let halves = number.leading_zeros() / 2;
    let upper = (number << (2 * halves) >> 64) as u64;
    root_of_part(upper) >> halves
}

/// The number beside a guess, on the side on which the root is.
#[inline(always)]
fn beside(guess: u64, number: u128) -> u64 {
    if number < u128::from(guess) * u128::from(guess) {
        guess.wrapping_sub(1)
    } else {
        guess.wrapping_add(1)
    }
}

/// A step of Newton's rule for the root itself: the mean of a guess and of the number over it.
#[inline(always)]
fn nearer(number: u128, guess: u64) -> u64 {
    if guess == 0 {
        return 0;
    }
    let guess = u128::from(guess);
    u64::try_from(guess.saturating_add(number / guess) / 2).unwrap_or(0)
}

/// Whether a number is the root of another, rounded down.
#[inline(always)]
fn is_root(root: u64, number: u128) -> bool
    ensures square { IsTrue result → root * root ≤ number }
    ensures close { IsTrue result → number < (root + 1) * (root + 1) }
{
    let root = u128::from(root);
    let square = root * root;
    if number < square {
        return false;
    }
    number - square <= 2 * root
}

/// The greatest whole number whose square is at most a number.
pub(crate) fn whole_root(number: u128) -> u64
    ensures square { result * result ≤ number }
    ensures close { number < (result + 1) * (result + 1) }
{
    let guess = guess_of(number);
    if is_root(guess, number) {
        return guess;
    }
    let second = beside(guess, number);
    if is_root(second, number) {
        return second;
    }
    let third = nearer(number, guess);
    if is_root(third, number) {
        return third;
    }
    number.isqrt() as u64
}
