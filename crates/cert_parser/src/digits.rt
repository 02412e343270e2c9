//! The numbers that words spell.
ghost use Rattle.std.specs.Prelude.{◌≡◌, ◌≤◌, ◌^◌, ◌-◌, ◌<◌, ◌==◌, ◌≤ℤ◌, pos, IfSome};
ghost use Rattle.cert_parser.specs.Digits as spec;

/// Whether a word is `0`, or doesn't begin with 0.
fn begins_well(word: &[u8]) -> bool
    ensures { result ≡ spec.begins_well word.now }
{
    word.len() == 1 || (word.len() > 1 && word[0] != b'0')
}

/// The number that digits spell, leading zeros and all, where it isn't above the greatest.
fn digits_value(digits: &[u8], greatest: u128) -> Option<u128>
    requires { 9 ≤ greatest }
    ensures value { result ≡ spec.at_most greatest (spec.digits_of digits.now) }
    ensures within { IfSome result (λ n. n ≤ greatest) }
{
    let mut number = 0;
    for digit in digits {
        if !digit.is_ascii_digit() {
            return None;
        }
        let digit = u128::from(*digit - b'0');
        if number > (greatest - digit) / 10 {
            return None;
        }
        number = 10 * number + digit;
    }
    Some(number)
}

/// The number that digits alone spell, without a leading zero, where it isn't above the greatest.
#[tactic(auto, unfolding(crate::specs::Digits::natural_of))]
fn natural(digits: &[u8], greatest: u128) -> Option<u128>
    requires { 9 ≤ greatest }
    ensures value { result ≡ spec.natural_of greatest digits.now }
    ensures within { IfSome result (λ n. n ≤ greatest) }
{
    if begins_well(digits) {
        digits_value(digits, greatest)
    } else {
        None
    }
}

/// The counter that a word spells: up to 4,294,967,295.
pub(crate) fn counter(word: &[u8]) -> Option<u32>
    ensures { result ≡ spec.counter_of word.now }
{
    let number = natural(word, 4_294_967_295)?;
    Some(number as u32)
}

/// A number below 2^127 as a signed one.
fn signed(size: u128) -> i128
    requires { size < 2 ^ 127 }
    ensures { result ≡ pos size }
{
    size as i128
}

/// The number below 0 whose size digits spell.
fn negative(digits: &[u8]) -> Option<i128>
    ensures { result ≡ spec.below_zero (spec.natural_of (2 ^ 127) digits.now) }
{
    let size = natural(digits, 1 << 127)?;
    if size == 0 {
        return None;
    }
    Some(-1 - signed(size - 1))
}

/// The number from 0 on that digits spell.
fn positive(digits: &[u8]) -> Option<i128>
    ensures { result ≡ spec.from_zero (spec.natural_of (2 ^ 127 - 1) digits.now) }
{
    let size = natural(digits, (1 << 127) - 1)?;
    Some(signed(size))
}

/// The number that a word spells, with a minus sign where it is below 0.
#[tactic(auto, unfolding(crate::specs::Digits::integer_of))]
pub(crate) fn integer(word: &[u8]) -> Option<i128>
    ensures { result ≡ spec.integer_of word.now }
{
    if !word.is_empty() && word[0] == b'-' {
        negative(&word[1..])
    } else {
        positive(word)
    }
}

/// The number from low to high that a word spells.
pub(crate) fn number(word: &[u8], low: i64, high: i64) -> Option<i64>
    ensures value { result ≡ spec.between low high (spec.integer_of word.now) }
    ensures low { IfSome result (λ z. low ≤ℤ z) }
    ensures high { IfSome result (λ z. z ≤ℤ high) }
{
    let number = integer(word)?;
    if i128::from(low) <= number && number <= i128::from(high) {
        Some(number as i64)
    } else {
        None
    }
}
