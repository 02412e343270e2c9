//! A line by itself: its result, and the text that stands for it where no other line stands before it.
ghost use Rattle.std.specs.Prelude.{◌≡◌, ◌≤◌, ◌++◌, [], codes, decimal as digits, IfOk, OnOk, IsErrOf};
ghost use Rattle.book_model.specs.declared.version.TheConstants.{WRITTEN};
ghost use Rattle.book_model.specs.lines.Outcomes.{IsRightFor};
ghost use Rattle.byte_streams.specs.Stream.{Rose, Writes};
ghost use Rattle.jobs_core.specs.Outcomes.{halt_outcome, line_outcome};
ghost use Rattle.conversion.specs.Answering as spec;
ghost use Rattle.conversion.specs.Echoes.{MayStand};
ghost use Rattle.conversion.specs.Writing.{Performs, WritesAll, WritesPrefix};

use crate::echoes::Echoes;
use crate::listed::ListedFacts;
use crate::outcome::is_found;
use crate::page::Page;
use crate::pending::write_if_many;
use crate::text::WriteStop;
use book_model::WRITTEN;
use byte_streams::{Failed, Sink, decimal, write_all};
use cert_text::write_result;
use itoa::Buffer;
use jobs_core::{Halt, Outcome, outcome_of};
use line_core::read_line;
use oracle_core::Evaluator;
use std::alloc::{AllocError, Global};
use std::slice::from_ref;

/// The outcome of a line, by the answers of the evaluator for the facts that it asks. The error comes where memory runs out.
fn outcome_of_line<E: Evaluator>(
    alloc: Global,
    evaluator: &E,
    line: &[u8],
) -> Result<Outcome, AllocError>
    ensures right { IfOk result (λ outcome. IsRightFor WRITTEN line.now (line_outcome outcome)) }
{
    let row = read_line(line, WRITTEN);
    outcome_of(alloc, evaluator, &row)
}

/// Writes what stands for a line by itself, on an empty page.
#[tactic(auto, using(byte_streams::proofs::Flow::writing))]
fn write_alone<K: Sink>(
    sink: &mut K,
    page: &mut Page,
    line: &[u8],
    outcome: &Outcome,
) -> Result<(), WriteStop>
    requires empty { page.old.pending.bytes.items ≡ [] }
    requires new { page.old.seen ≡ [] }
    requires stands { MayStand line.now (line_outcome outcome.now) }
    ensures ok { WritesAll K.written sink.old sink.new
        (spec.answer_text line.now (line_outcome outcome.now)) result }
    ensures err { WritesPrefix K.written sink.old sink.new
        (spec.answer_text line.now (line_outcome outcome.now)) result }
    ensures fault { IsErrOf result WriteStop.Fault → Rose (K.faults sink.old) (K.faults sink.new) }
    ensures later { K.faults sink.old ≤ K.faults sink.new }
{
    page.put_row(&Echoes::Alone(line), 0, outcome)?;
    write_if_many(sink, &mut page.pending, 0)?;
    Ok(())
}

/// Computes a line and writes what stands for it by itself: the facts that it lists, numbered from 1, and then the line, of the
/// number 1, as a text of this line alone has them between its header and its end line; and says whether it has a result. The
/// line is taken as it is, without a line feed or a carriage return at its end. Where memory runs out a prefix of the text was
/// written, or nothing.
pub fn answer_line<K: Sink, E: Evaluator>(
    alloc: Global,
    sink: &mut K,
    evaluator: &E,
    line: &[u8],
) -> Result<bool, WriteStop>
    ensures performs { Performs K.written K.faults sink.old sink.new
        (spec.Answered (spec.answer_text line.now) (K.written sink.old) (K.written sink.new)
        line.now)
        (spec.AnswerCutShort (spec.answer_text line.now) (K.written sink.old) (K.written sink.new)
        line.now) result }
{
    let outcome = outcome_of_line(alloc, evaluator, line)?;
    let mut page = Page::new(alloc, ListedFacts::of(from_ref(&outcome)))?;
    write_alone(sink, &mut page, line, &outcome)?;
    Ok(is_found(&outcome))
}

/// Writes `refused` and the number of a rule.
fn write_refused<K: Sink>(sink: &mut K, rule: u8) -> Result<(), Failed>
    ensures { Writes K.written K.faults sink.old sink.new (codes "refused " ++ digits rule) result }
{
    let mut buffer = Buffer::new();
    write_all(sink, b"refused ")?;
    write_all(sink, decimal(&mut buffer, rule))
}

/// Why a line has no result, in a word.
fn halt_word(halt: &Halt) -> &'static [u8]
    ensures { result.now ≡ spec.brief_text (halt_outcome halt.now) }
{
    match halt {
        Halt::Undecided(_, _) => b"undecided",
        Halt::Void(_, _) => b"void",
    }
}

/// Writes the result of a line, or the words for an outcome without one.
fn write_brief<K: Sink>(sink: &mut K, outcome: &Outcome) -> Result<(), Failed>
    ensures { Writes K.written K.faults sink.old sink.new
        (spec.brief_text (line_outcome outcome.now)) result }
{
    match outcome {
        Outcome::Refused(rule) => write_refused(sink, rule.number()),
        Outcome::Found(finding) => write_result(sink, finding.resolved),
        Outcome::Shown(shown) => write_result(sink, shown.resolved()),
        Outcome::Halted(halt) => write_all(sink, halt_word(halt)),
    }
}

/// Computes a line and writes its result alone, without its facts, its words and a line feed, or `refused` with the rule and the
/// day or date that says why, `undecided` or `void`; and says whether it has a result. The line is taken as it is.
/// Where memory runs out nothing was written.
pub fn answer_briefly<K: Sink, E: Evaluator>(
    alloc: Global,
    sink: &mut K,
    evaluator: &E,
    line: &[u8],
) -> Result<bool, WriteStop>
    ensures performs { Performs K.written K.faults sink.old sink.new
        (spec.Answered spec.brief_text (K.written sink.old) (K.written sink.new) line.now)
        (spec.AnswerCutShort spec.brief_text (K.written sink.old) (K.written sink.new) line.now)
        result }
{
    let outcome = outcome_of_line(alloc, evaluator, line)?;
    write_brief(sink, &outcome)?;
    Ok(is_found(&outcome))
}
