//! Writes verdicts, and how many there are of each kind.
ghost use Rattle.std.specs.Prelude.{◌≡◌, ◌++◌, codes};
ghost use Rattle.book_model.specs.lines.Text.{result_text};
ghost use Rattle.byte_streams.specs.Stream.{Writes};
ghost use Rattle.cert_check.specs.Text as spec;

use crate::verdict::{Reason, Verdict};
use book_model::{Fact, Resolved};
use byte_streams::{Failed, Sink, decimal, write_all, write_parts, write_two_counts};
use cert_text::{write_result, write_undecided, write_void};
use itoa::Buffer;

/// Writes that a line stands.
#[tactic(auto, unfolding(crate::specs::Text::yes_text))]
fn write_yes<K: Sink>(sink: &mut K, number: u32) -> Result<(), Failed>
    ensures { Writes K.written K.faults sink.old sink.new (spec.yes_text number) result }
{
    let mut buffer = Buffer::new();
    let number = decimal(&mut buffer, number);
    write_parts(sink, &[b"yes ", number, b"\n"])
}

/// Writes that a line shows no result.
#[tactic(auto, unfolding(crate::specs::Text::skip_text))]
fn write_skip<K: Sink>(sink: &mut K, number: u32) -> Result<(), Failed>
    ensures { Writes K.written K.faults sink.old sink.new (spec.skip_text number) result }
{
    let mut buffer = Buffer::new();
    let number = decimal(&mut buffer, number);
    write_parts(sink, &[b"skip ", number, b"\n"])
}

/// Writes that a line's words break a rule.
#[tactic(auto, unfolding(crate::specs::Text::form_text))]
fn write_form<K: Sink>(sink: &mut K, number: u32, rule: u8) -> Result<(), Failed>
    ensures { Writes K.written K.faults sink.old sink.new (spec.form_text number rule) result }
{
    write_two_counts(sink, b"no ", number, b" form ", u32::from(rule))
}

/// Writes that a listed fact was answered by another value.
#[tactic(auto, unfolding(crate::specs::Text::value_text))]
fn write_value<K: Sink>(
    sink: &mut K,
    number: u32,
    fact: u32,
    listed: i64,
    found: i64,
) -> Result<(), Failed>
    ensures { Writes K.written K.faults sink.old sink.new
        (spec.value_text number fact listed found) result }
{
    let mut number_buffer = Buffer::new();
    let mut fact_buffer = Buffer::new();
    let mut listed_buffer = Buffer::new();
    let mut found_buffer = Buffer::new();
    let number = decimal(&mut number_buffer, number);
    let fact = decimal(&mut fact_buffer, fact);
    let listed = decimal(&mut listed_buffer, listed);
    let found = decimal(&mut found_buffer, found);
    write_parts(
        sink,
        &[
            b"no ", number, b" value ", fact, b" ", listed, b" ", found, b"\n",
        ],
    )
}

/// Writes that a fact isn't listed.
#[tactic(auto, unfolding(crate::specs::Text::missing_text))]
fn write_missing<K: Sink>(sink: &mut K, number: u32, fact: Fact) -> Result<(), Failed>
    ensures { Writes K.written K.faults sink.old sink.new (spec.missing_text number fact) result }
{
    let mut number_buffer = Buffer::new();
    let mut day_buffer = Buffer::new();
    let number = decimal(&mut number_buffer, number);
    let kind = fact.kind().name().as_bytes();
    let place = fact.place().name().as_bytes();
    let day = decimal(&mut day_buffer, fact.day());
    write_parts(
        sink,
        &[
            b"no ",
            number,
            b" missing ",
            kind,
            b" ",
            place,
            b" ",
            day,
            b"\n",
        ],
    )
}

/// Writes that a list differs from the facts that are asked.
#[tactic(auto, unfolding(crate::specs::Text::list_text))]
fn write_place<K: Sink>(sink: &mut K, number: u32, place: u32) -> Result<(), Failed>
    ensures { Writes K.written K.faults sink.old sink.new (spec.list_text number place) result }
{
    write_two_counts(sink, b"no ", number, b" list ", place)
}

/// Writes the beginning of a line on a result, up to the result.
#[tactic(auto, unfolding(crate::specs::Text::date_head_text))]
fn write_date_head<K: Sink>(sink: &mut K, number: u32) -> Result<(), Failed>
    ensures { Writes K.written K.faults sink.old sink.new (spec.date_head_text number) result }
{
    let mut buffer = Buffer::new();
    let number = decimal(&mut buffer, number);
    write_parts(sink, &[b"no ", number, b" date "])
}

/// Writes a result and the line's end.
fn write_found<K: Sink>(sink: &mut K, found: Resolved) -> Result<(), Failed>
    ensures { Writes K.written K.faults sink.old sink.new (result_text found ++ codes "\n") result }
{
    write_result(sink, found)?;
    write_all(sink, b"\n")
}

/// Writes that a result has another text.
fn write_date<K: Sink>(sink: &mut K, number: u32, found: Resolved) -> Result<(), Failed>
    ensures { Writes K.written K.faults sink.old sink.new (spec.date_text number found) result }
{
    write_date_head(sink, number)?;
    write_found(sink, found)
}

/// Writes the reason against a line.
fn write_reason<K: Sink>(sink: &mut K, number: u32, reason: &Reason) -> Result<(), Failed>
    ensures { Writes K.written K.faults sink.old sink.new
        (spec.reason_text number reason.now) result }
{
    match *reason {
        Reason::Form(rule) => write_form(sink, number, rule),
        Reason::Value {
            fact,
            listed,
            found,
        } => write_value(sink, number, fact, listed, found),
        Reason::Undecided(fact, at) => write_undecided(sink, b"no ", number, fact, at),
        Reason::Void(fact, site) => write_void(sink, b"no ", number, fact, site),
        Reason::Missing(fact) => write_missing(sink, number, fact),
        Reason::List { place } => write_place(sink, number, place),
        Reason::Date { found } => write_date(sink, number, found),
    }
}

/// Writes the verdict of the line of this number: `yes N`, `skip N`, or `no N` and the reason. At an error, which comes
/// only where the count of the sink's faults rose, a prefix of the text was written.
pub fn write_verdict<K: Sink>(sink: &mut K, number: u32, verdict: &Verdict) -> Result<(), Failed>
    ensures { Writes K.written K.faults sink.old sink.new
        (spec.verdict_text number verdict.now) result }
{
    match verdict {
        Verdict::Yes => write_yes(sink, number),
        Verdict::No(reason) => write_reason(sink, number, reason),
        Verdict::Skip => write_skip(sink, number),
    }
}

/// Writes how many verdicts there are of each kind, `end yes A no B skip C`. At an error, which comes only where the
/// count of the sink's faults rose, a prefix of the text was written.
#[tactic(auto, unfolding(crate::specs::Text::counts_text))]
pub fn write_counts<K: Sink>(sink: &mut K, yes: u32, no: u32, skip: u32) -> Result<(), Failed>
    ensures { Writes K.written K.faults sink.old sink.new (spec.counts_text yes no skip) result }
{
    let mut yes_buffer = Buffer::new();
    let mut no_buffer = Buffer::new();
    let mut skip_buffer = Buffer::new();
    let yes = decimal(&mut yes_buffer, yes);
    let no = decimal(&mut no_buffer, no);
    let skip = decimal(&mut skip_buffer, skip);
    write_parts(
        sink,
        &[b"end yes ", yes, b" no ", no, b" skip ", skip, b"\n"],
    )
}
