//! The numbers among the arguments.
ghost use Rattle.std.specs.Prelude.{◌≡◌, ◌≤◌, IfSome};
ghost use Rattle.command_line.specs.Words as spec;

/// Whether an argument is one to twenty decimal digits and nothing else.
fn is_number(word: &str) -> bool
    ensures number { result ≡ spec.is_number word.now }
{
    let digits = word.as_bytes();
    // The greatest seed has twenty digits, so every seed fits, with leading zeros or without; a
    // number beyond 64 bits is out of every range. The empty argument isn't 0.
    if digits.is_empty() || digits.len() > 20 {
        return false;
    }
    for digit in digits {
        if !digit.is_ascii_digit() {
            return false;
        }
    }
    true
}

/// The number that an argument spells by one to twenty decimal digits, where it lies from `low` to `high`.
pub(crate) fn number_between(word: &str, low: u64, high: u64) -> Option<u64>
    ensures number { result ≡ spec.between low high (spec.number_word word.now) }
    ensures range { IfSome result (λ n. (low ≤ n) × (n ≤ high)) }
{
    if !is_number(word) {
        return None;
    }
    match word.parse::<u64>() {
        Ok(number) if low <= number && number <= high => Some(number),
        _ => None,
    }
}
