//! The form of a line of a file of a version, which has kinds, places and sites of its own.
ghost use Rattle.std.specs.Prelude.{◌≡◌};
ghost use Rattle.book_model.specs.sky.Facts.{IsFactDay};
ghost use Rattle.book_model.specs.lines.Lines.{words_of, AreWords};
ghost use Rattle.cert_parser.specs.Gives.{Gives, Yields};
ghost use Rattle.cert_parser.specs.Grammar as spec;

use crate::found::{echo_at, found_at, line_with, numbers};
use crate::names::{kind_at, place_at, site_at};
use crate::words::{
    NoForm, counter_at, day_at, end_at, is_over, is_spaced, key_at, value_at, word_at,
};
use book_model::{Fact, Kind, Place, Site, Undecided, Version};
use cert_text::CertLine;
use std::alloc::Global;

/// The form of a line below the header. Its counters come first; a fact is `None` where the place isn't one of
/// the kind's places.
#[derive(Drop)]
pub(crate) enum Form {
    Fact(u32, Option<Fact>, i64),
    Line(u32, CertLine),
    Undecided(u32, Option<Fact>, Undecided),
    Void(u32, Option<Fact>, Site),
    End(u32, u32),
}

/// The fact, where the place is one of the kind's places.
fn fact_with(kind: Kind, place: Place, day: i64) -> Option<Fact>
    requires day { IsFactDay day }
    ensures { result ≡ spec.fact_with kind place day }
{
    Fact::new(kind, place, day)
}

/// `KIND PLACE DAY`, and what follows it.
#[tactic(auto, unfolding(crate::specs::Grammar::fact_at))]
fn fact_at(version: Version, line: &[u8]) -> Option<(Option<Fact>, &[u8])>
    ensures { Gives (λ p. (p.0, words_of p.1.now)) result
        (spec.fact_at version (words_of line.now)) }
{
    let (kind, rest) = kind_at(version, line)?;
    let (place, rest) = place_at(version, rest)?;
    let (day, rest) = day_at(rest)?;
    Some((fact_with(kind, place, day), rest))
}

/// `N KIND PLACE DAY VALUE`.
#[tactic(auto, unfolding(crate::specs::Grammar::fact_form))]
fn fact_form(version: Version, line: &[u8]) -> Option<Form>
    ensures { result ≡ spec.fact_form version (words_of line.now) }
{
    let (number, rest) = counter_at(line)?;
    let (fact, rest) = fact_at(version, rest)?;
    let (value, rest) = value_at(rest)?;
    if is_over(rest) {
        Some(Form::Fact(number, fact, value))
    } else {
        None
    }
}

/// `lines L facts F`.
#[tactic(auto, unfolding(crate::specs::Grammar::end_form))]
fn end_form(line: &[u8]) -> Option<Form>
    ensures { result ≡ spec.end_form (words_of line.now) }
{
    let rest = key_at(line, b"lines")?;
    let (lines, rest) = counter_at(rest)?;
    let rest = key_at(rest, b"facts")?;
    let (facts, rest) = counter_at(rest)?;
    if is_over(rest) {
        Some(Form::End(lines, facts))
    } else {
        None
    }
}

/// `fact KIND PLACE DAY`, at the end of a line.
#[tactic(auto, unfolding(crate::specs::Grammar::last_fact_at))]
fn last_fact_at(version: Version, line: &[u8]) -> Option<Option<Fact>>
    ensures { result ≡ spec.last_fact_at version (words_of line.now) }
{
    let rest = key_at(line, b"fact")?;
    let (fact, rest) = fact_at(version, rest)?;
    if is_over(rest) { Some(fact) } else { None }
}

/// `SITE TURN LO HI`, and what follows it.
#[tactic(auto, unfolding(crate::specs::Grammar::test_at))]
fn test_at(version: Version, line: &[u8]) -> Option<(Undecided, &[u8])>
    ensures { Gives (λ p. (p.0, words_of p.1.now)) result
        (spec.test_at version (words_of line.now)) }
{
    let (site, rest) = site_at(version, line)?;
    let (turn, rest) = counter_at(rest)?;
    let (lo, rest) = end_at(rest)?;
    let (hi, rest) = end_at(rest)?;
    Some((Undecided { turn, site, lo, hi }, rest))
}

/// `refused R`.
#[tactic(auto, unfolding(crate::specs::Grammar::refused_form))]
fn refused_form(number: u32, line: &[u8]) -> Option<Form>
    ensures { result ≡ spec.refused_form number (words_of line.now) }
{
    let rest = key_at(line, b"refused")?;
    let (rule, rest) = counter_at(rest)?;
    if 1 <= rule && rule <= 4 && is_over(rest) {
        Some(Form::Line(number, CertLine::Refused(rule as u8)))
    } else {
        None
    }
}

/// `undecided SITE TURN LO HI fact KIND PLACE DAY`.
#[tactic(auto, unfolding(crate::specs::Grammar::undecided_form))]
fn undecided_form(version: Version, number: u32, line: &[u8]) -> Option<Form>
    ensures { result ≡ spec.undecided_form version number (words_of line.now) }
{
    let rest = key_at(line, b"undecided")?;
    let (at, rest) = test_at(version, rest)?;
    let fact = last_fact_at(version, rest)?;
    Some(Form::Undecided(number, fact, at))
}

/// `void SITE fact KIND PLACE DAY`.
#[tactic(auto, unfolding(crate::specs::Grammar::void_form))]
fn void_form(version: Version, number: u32, line: &[u8]) -> Option<Form>
    ensures { result ≡ spec.void_form version number (words_of line.now) }
{
    let rest = key_at(line, b"void")?;
    let (site, rest) = site_at(version, rest)?;
    let fact = last_fact_at(version, rest)?;
    Some(Form::Void(number, fact, site))
}

/// `FROM DATE TO`, what the line shows, and the numbers of the facts that it rests on.
#[tactic(auto, unfolding(crate::specs::Grammar::listed_form))]
fn listed_form(alloc: Global, number: u32, line: &[u8]) -> Result<Form, NoForm>
    requires { AreWords (words_of line.now) }
    ensures { Yields (λ form. form) result (spec.listed_form number (words_of line.now)) }
{
    let (echo, rest) = echo_at(alloc, line)?;
    let (found, rest) = found_at(alloc, rest)?;
    let facts = numbers(alloc, rest)?;
    Ok(Form::Line(number, line_with(echo, found, facts)))
}

// In any order: no word that the first three forms must hold can stand where a listed line's do.
/// What follows the number of a line.
#[tactic(auto, unfolding(crate::specs::Grammar::body_form))]
fn body_form(alloc: Global, version: Version, number: u32, line: &[u8]) -> Result<Form, NoForm>
    requires { AreWords (words_of line.now) }
    ensures { Yields (λ form. form) result (spec.body_form version number (words_of line.now)) }
{
    if let Some(form) = refused_form(number, line) {
        return Ok(form);
    }
    if let Some(form) = undecided_form(version, number, line) {
        return Ok(form);
    }
    if let Some(form) = void_form(version, number, line) {
        return Ok(form);
    }
    listed_form(alloc, number, line)
}

/// `N`, and what follows it.
#[tactic(auto, unfolding(crate::specs::Grammar::line_form))]
fn line_form(alloc: Global, version: Version, line: &[u8]) -> Result<Form, NoForm>
    requires { AreWords (words_of line.now) }
    ensures { Yields (λ form. form) result (spec.line_form version (words_of line.now)) }
{
    let (number, rest) = counter_at(line).ok_or(NoForm::Broken)?;
    body_form(alloc, version, number, rest)
}

/// The form of words, of which the first says what they are.
fn form_in(alloc: Global, version: Version, line: &[u8]) -> Result<Form, NoForm>
    requires { AreWords (words_of line.now) }
    ensures { Yields (λ form. form) result (spec.form_in version (words_of line.now)) }
{
    let (word, rest) = word_at(line).ok_or(NoForm::Broken)?;
    if word == b"fact".as_slice() {
        return fact_form(version, rest).ok_or(NoForm::Broken);
    }
    if word == b"line".as_slice() {
        return line_form(alloc, version, rest);
    }
    if word == b"end".as_slice() {
        return end_form(rest).ok_or(NoForm::Broken);
    }
    Err(NoForm::Broken)
}

/// The form of a line below the header of a file of a version, if it has one.
#[tactic(auto, unfolding(crate::specs::Grammar::form_of))]
pub(crate) fn form_of(alloc: Global, version: Version, line: &[u8]) -> Result<Form, NoForm>
    ensures { Yields (λ form. form) result (spec.form_of version line.now) }
{
    if is_spaced(line) {
        form_in(alloc, version, line)
    } else {
        Err(NoForm::Broken)
    }
}
