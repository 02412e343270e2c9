//! The words of a line of a certificate, taken one after another.
ghost use Rattle.std.specs.Prelude.{◌≡◌, ◌≤ℤ◌, IfSome, IsTrue, None};
ghost use Rattle.book_model.specs.declared.fact.TheConstants.{FIRST_FACT_DAY as first_day, LAST_FACT_DAY as last_day};
ghost use Rattle.book_model.specs.lines.Lines as lines;
ghost use Rattle.book_model.specs.lines.Lines.{words_of};
ghost use Rattle.cert_parser.specs.Gives.{Gives};
ghost use Rattle.cert_parser.specs.Grammar as spec;
ghost use Rattle.cert_parser.specs.declared.words.NoForm.TheVariants.{Memory};

use crate::digits;
use book_model::{FIRST_FACT_DAY, GREATEST_VALUE, LAST_FACT_DAY, LEAST_VALUE};
use line_core::cut_word;
use std::alloc::{AllocError, AllocFailed};

/// Why words weren't read: they don't have the form, or memory ran out.
#[derive(Clone, Copy, Debug, PartialEq, Eq)]
pub(crate) enum NoForm {
    Broken,
    Memory,
}

impl From<AllocError> for NoForm {
    ghost from_gives = { λ _ e. e ≡ Memory };

    fn from(_: AllocError) -> Self {
        NoForm::Memory
    }
}

impl<T: Drop> From<AllocFailed<T>> for NoForm {
    ghost from_gives = { λ _ e. e ≡ Memory };

    fn from(_: AllocFailed<T>) -> Self {
        NoForm::Memory
    }
}

/// Whether a word may hold the byte.
fn is_printable(byte: u8) -> bool
    ensures { result ≡ lines.is_printable byte }
{
    32 < byte && byte < 127
}

/// Whether a line is words of printable bytes with single spaces between them.
pub fn is_spaced(line: &[u8]) -> bool
    ensures { result ≡ spec.is_spaced line.now }
{
    let mut after_space = true;
    for byte in line {
        if *byte == b' ' {
            if after_space {
                return false;
            }
            after_space = true;
        } else {
            if !is_printable(*byte) {
                return false;
            }
            after_space = false;
        }
    }
    !after_space
}

/// Whether no word is left.
pub(crate) fn is_over(line: &[u8]) -> bool
    ensures { result ≡ spec.is_over (words_of line.now) }
{
    cut_word(line).is_none()
}

/// A word, and what follows it.
pub(crate) fn word_at(line: &[u8]) -> Option<(&[u8], &[u8])>
    ensures { Gives (λ p. (p.0.now, words_of p.1.now)) result (spec.word_at (words_of line.now)) }
{
    cut_word(line)
}

/// Whether the text begins with a space and then another first byte than a key's. Most keys that are tried aren't there, and
/// this tells so without cutting off the word.
#[inline(always)]
fn begins_otherwise(line: &[u8], text: &[u8]) -> bool
    ensures { IsTrue result → spec.key_at text.now (words_of line.now) ≡ None }
{
    let [space, first, _rest @ ..] = line else {
        return false;
    };
    let [key, _others @ ..] = text else {
        return false;
    };
    if *space == b' ' {
        if is_printable(*first) {
            return *first != *key;
        }
    }
    false
}

/// The first word, where it is this one, and what follows it.
#[tactic(auto, unfolding(crate::specs::Grammar::key_at))]
fn whole_key_at<'a>(line: &'a [u8], text: &[u8]) -> Option<&'a [u8]>
    ensures { Gives (λ rest. words_of rest.now) result (spec.key_at text.now (words_of line.now)) }
{
    let (word, rest) = word_at(line)?;
    if word == text { Some(rest) } else { None }
}

/// What follows this word.
pub(crate) fn key_at<'a>(line: &'a [u8], text: &[u8]) -> Option<&'a [u8]>
    ensures { Gives (λ rest. words_of rest.now) result (spec.key_at text.now (words_of line.now)) }
{
    if begins_otherwise(line, text) {
        return None;
    }
    whole_key_at(line, text)
}

/// A counter, and what follows it.
#[tactic(auto, unfolding(crate::specs::Grammar::counter_at))]
pub(crate) fn counter_at(line: &[u8]) -> Option<(u32, &[u8])>
    ensures { Gives (λ p. (p.0, words_of p.1.now)) result (spec.counter_at (words_of line.now)) }
{
    let (word, rest) = word_at(line)?;
    let number = digits::counter(word)?;
    Some((number, rest))
}

/// A number from low to high, and what follows it.
#[tactic(auto, unfolding(crate::specs::Grammar::number_at))]
pub(crate) fn number_at(line: &[u8], low: i64, high: i64) -> Option<(i64, &[u8])>
    ensures read { Gives (λ p. (p.0, words_of p.1.now)) result
        (spec.number_at low high (words_of line.now)) }
    ensures low { IfSome result (λ p. low ≤ℤ p.0) }
    ensures high { IfSome result (λ p. p.0 ≤ℤ high) }
{
    let (word, rest) = word_at(line)?;
    let number = digits::number(word, low, high)?;
    Some((number, rest))
}

/// The day of a fact (R.D.), and what follows it.
pub(crate) fn day_at(line: &[u8]) -> Option<(i64, &[u8])>
    ensures read { Gives (λ p. (p.0, words_of p.1.now)) result (spec.day_at (words_of line.now)) }
    ensures low { IfSome result (λ p. first_day ≤ℤ p.0) }
    ensures high { IfSome result (λ p. p.0 ≤ℤ last_day) }
{
    number_at(line, FIRST_FACT_DAY, LAST_FACT_DAY)
}

/// The value of a fact, and what follows it.
pub(crate) fn value_at(line: &[u8]) -> Option<(i64, &[u8])>
    ensures { Gives (λ p. (p.0, words_of p.1.now)) result (spec.value_at (words_of line.now)) }
{
    number_at(line, LEAST_VALUE, GREATEST_VALUE)
}

/// A bound of an undecided test, and what follows it.
#[tactic(auto, unfolding(crate::specs::Grammar::end_at))]
pub(crate) fn end_at(line: &[u8]) -> Option<(i128, &[u8])>
    ensures { Gives (λ p. (p.0, words_of p.1.now)) result (spec.end_at (words_of line.now)) }
{
    let (word, rest) = word_at(line)?;
    let number = digits::integer(word)?;
    Some((number, rest))
}
