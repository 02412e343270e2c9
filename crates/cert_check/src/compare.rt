//! What was asked beside what is listed, and a result beside its text.
ghost use Rattle.std.specs.Prelude.{◌≡◌, ◌<◌, ◌^◌, length, slice_get, IfOk};
ghost use Rattle.cert_check.specs.Listed.{EndsWithin, is_fact_at};
ghost use Rattle.cert_check.specs.Verdicts as spec;

use crate::verdict::{Reason, Verdict};
use book_model::{Fact, Resolved};
use cert_text::result_word;
use oracle_core::FactList;
use std::alloc::{AllocError, Global};

/// Whether this fact stands at an index.
fn stands_at(facts: &FactList, index: usize, fact: Fact) -> bool
    ensures stands { result ≡ is_fact_at (slice_get facts.now index) fact }
{
    index < facts.len() && *facts.item(index) == fact
}

/// The first place, from 1, at which the facts that were asked differ from the listed ones.
fn first_difference(asked: &FactList, listed: &[Fact]) -> Option<u32>
    requires few { length listed.now < 2 ^ 32 }
    requires within { EndsWithin asked.now listed.now }
    ensures place { result ≡ spec.difference 1 asked.now listed.now }
{
    for (index, fact) in listed.iter().enumerate() {
        if !stands_at(asked, index, *fact) {
            return Some((index + 1) as u32);
        }
    }
    None
}

// A refusal is a text as a result is: one that is right gets `Yes`, and one for a result, or a
// result for one, `Date`.
/// Whether the text of a result is the line's.
fn verdict_by_text(alloc: Global, found: Resolved, text: &[u8]) -> Result<Verdict, AllocError>
    ensures verdict { IfOk result (λ v. v ≡ spec.verdict_on_text found text.now) }
{
    let word = result_word(alloc, found)?;
    if word.bytes() == text {
        Ok(Verdict::Yes)
    } else {
        Ok(Verdict::No(Reason::Date { found }))
    }
}

/// The verdict of a line that lists these facts and shows this text, where its rule asks those facts and gives
/// this result.
pub(crate) fn verdict_by_list(
    alloc: Global,
    asked: &FactList,
    listed: &[Fact],
    found: Resolved,
    text: &[u8],
) -> Result<Verdict, AllocError>
    requires few { length listed.now < 2 ^ 32 }
    requires within { EndsWithin asked.now listed.now }
    ensures verdict { IfOk result (λ v. v ≡ spec.verdict_on_list
        (spec.difference 1 asked.now listed.now) found text.now) }
{
    match first_difference(asked, listed) {
        Some(place) => Ok(Verdict::No(Reason::List { place })),
        None => verdict_by_text(alloc, found, text),
    }
}
