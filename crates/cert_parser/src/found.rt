//! What a line with a result shows: its words, its result and the facts that it rests on.
ghost use Rattle.std.specs.Prelude.{◌≡◌};
ghost use Rattle.book_model.specs.lines.Lines.{words_of, AreWords};
ghost use Rattle.cert_parser.specs.Gives.{Gives, Yields};
ghost use Rattle.cert_parser.specs.Grammar as spec;
ghost use Rattle.cert_parser.specs.declared.found.Found.TheVariants.{Shown, TooFar, NoDate};

use crate::digits;
use crate::words::{NoForm, day_at, key_at, word_at};
use cert_text::{CertLine, Echo, Numbers, Word};
use line_core::cut_word;
use std::alloc::Global;

/// What a line with a result shows.
#[derive(Drop)]
pub(crate) enum Found {
    Shown(Word),
    TooFar(i64),
    NoDate(Word),
}

/// `FROM DATE TO`, and what follows it, of words of printable bytes.
#[tactic(auto, unfolding(crate::specs::Grammar::echo_at))]
pub(crate) fn echo_at(alloc: Global, line: &[u8]) -> Result<(Echo, &[u8]), NoForm>
    requires { AreWords (words_of line.now) }
    ensures { Yields (λ p. (p.0, words_of p.1.now)) result (spec.echo_at (words_of line.now)) }
{
    let (from, rest) = word_at(line).ok_or(NoForm::Broken)?;
    let (date, rest) = word_at(rest).ok_or(NoForm::Broken)?;
    let (to, rest) = word_at(rest).ok_or(NoForm::Broken)?;
    Ok((Echo::of(alloc, from, date, to)?, rest))
}

/// `RESULT facts`: the result, and what follows it.
#[tactic(auto, unfolding(crate::specs::Grammar::shown_at))]
fn shown_at(line: &[u8]) -> Option<(&[u8], &[u8])>
    ensures { Gives (λ p. (Shown p.0.now, words_of p.1.now)) result
        (spec.shown_at (words_of line.now)) }
{
    let (word, rest) = word_at(line)?;
    let rest = key_at(rest, b"facts")?;
    Some((word, rest))
}

/// `refused 4 DAY facts`: the day (R.D.), and what follows it.
#[tactic(auto, unfolding(crate::specs::Grammar::too_far_at))]
fn too_far_at(line: &[u8]) -> Option<(i64, &[u8])>
    ensures { Gives (λ p. (TooFar p.0, words_of p.1.now)) result
        (spec.too_far_at (words_of line.now)) }
{
    let rest = key_at(line, b"refused")?;
    let rest = key_at(rest, b"4")?;
    let (day, rest) = day_at(rest)?;
    let rest = key_at(rest, b"facts")?;
    Some((day, rest))
}

/// `refused 5 BACK facts`: the date, and what follows it.
#[tactic(auto, unfolding(crate::specs::Grammar::no_date_at))]
fn no_date_at(line: &[u8]) -> Option<(&[u8], &[u8])>
    ensures { Gives (λ p. (NoDate p.0.now, words_of p.1.now)) result
        (spec.no_date_at (words_of line.now)) }
{
    let rest = key_at(line, b"refused")?;
    let rest = key_at(rest, b"5")?;
    let (back, rest) = word_at(rest)?;
    let rest = key_at(rest, b"facts")?;
    Some((back, rest))
}

/// What a line shows, up to its list of facts, and what follows it.
#[tactic(auto, unfolding(crate::specs::Grammar::found_at))]
pub(crate) fn found_at(alloc: Global, line: &[u8]) -> Result<(Found, &[u8]), NoForm>
    ensures { Yields (λ p. (p.0, words_of p.1.now)) result (spec.found_at (words_of line.now)) }
{
    if let Some((result_word, rest)) = shown_at(line) {
        return Ok((Found::Shown(Word::of(alloc, result_word)?), rest));
    }
    if let Some((day, rest)) = too_far_at(line) {
        return Ok((Found::TooFar(day), rest));
    }
    let (back, rest) = no_date_at(line).ok_or(NoForm::Broken)?;
    Ok((Found::NoDate(Word::of(alloc, back)?), rest))
}

/// The counters that all of the words are.
pub(crate) fn numbers(alloc: Global, line: &[u8]) -> Result<Numbers, NoForm>
    ensures { Yields (λ ns. ns) result (spec.counters_of (words_of line.now)) }
{
    let mut numbers = Numbers::new(alloc);
    let mut rest = line;
    while let Some((word, more)) = cut_word(rest) {
        let number = digits::counter(word).ok_or(NoForm::Broken)?;
        numbers.push(number)?;
        rest = more;
    }
    Ok(numbers)
}

/// The line with these parts.
pub(crate) fn line_with(echo: Echo, found: Found, facts: Numbers) -> CertLine
    ensures { result ≡ spec.line_with echo found facts }
{
    match found {
        Found::Shown(result_word) => CertLine::Shown {
            echo,
            result: result_word,
            facts,
        },
        Found::TooFar(day) => CertLine::TooFar { echo, day, facts },
        Found::NoDate(back) => CertLine::NoDate { echo, back, facts },
    }
}
