//! Computes rows, and writes how many have each outcome, in one line of counts.
ghost use Rattle.std.specs.Prelude.{◌≡◌, ◌≤◌, ◌<◌, ◌^◌, if◌then◌else◌, not, length, map, filter, IfOk, OnOk, IsErrOf};
ghost use Rattle.std.specs.Io.KnownBytes.{Keeps};
ghost use Rattle.book_model.specs.lines.Outcomes.{is_result};
ghost use Rattle.book_model.specs.lines.Text.{with_fact, with_facts, seen_after};
ghost use Rattle.byte_streams.specs.Stream.{Writes};
ghost use Rattle.cert_text.specs.Laws.{is_undecided};
ghost use Rattle.jobs_core.specs.LineFacts.{pairs_in};
ghost use Rattle.jobs_core.specs.Outcomes.{halt_outcome, line_outcome};
ghost use Rattle.conversion.specs.Counting as spec;
ghost use Rattle.conversion.specs.Rows.{AreSpelledRows, lines_in};
ghost use Rattle.conversion.specs.Writing.{Performs};

use crate::listed::ListedFacts;
use crate::numbering::{NumberedFacts, number_fact};
use crate::outcome::{all_found, is_found, is_shown, outcomes_of};
use crate::rows::Rows;
use crate::text::WriteStop;
use book_model::Fact;
use byte_streams::{Failed, Gathered, Sink, decimal, write_all, write_parts};
use itoa::Buffer;
use jobs_core::{Gate, Halt, LineFacts, Outcome, Tools};
use oracle_core::Evaluator;
use rayon::prelude::*;
use std::alloc::{AllocError, Global};
use std::thread::Threads;

/// The outcome of a line of a sample: a result, an undecided test, a void, or a refusal, by itself or by computing.
#[derive(Clone, Copy, Debug, PartialEq, Eq)]
enum OutcomeKind {
    Decided,
    Undecided,
    Void,
    Refused,
}

// A line that is refused with a day or a date is no result, and is counted once; its facts are
// facts of the text.
/// Whether an outcome is a refusal, by the line itself or by computing.
fn is_refused(outcome: &Outcome) -> bool
    ensures refused { result ≡ spec.is_refused (line_outcome outcome.now) }
{
    match outcome {
        Outcome::Refused(_) => true,
        Outcome::Found(finding) => !is_shown(&finding.resolved),
        Outcome::Shown(shown) => !is_shown(&shown.resolved()),
        Outcome::Halted(_) => false,
    }
}

/// Whether a line without a result has an undecided test, and not a void.
fn is_open(halt: &Halt) -> bool
    ensures open { result ≡ is_undecided (halt_outcome halt.now) }
    ensures void { not result ≡ spec.is_void (halt_outcome halt.now) }
{
    matches!(halt, Halt::Undecided(_, _))
}

/// Whether an outcome is an undecided test.
fn is_undecided_line(outcome: &Outcome) -> bool
    ensures undecided { result ≡ is_undecided (line_outcome outcome.now) }
{
    match outcome {
        Outcome::Halted(halt) => is_open(halt),
        Outcome::Refused(_) | Outcome::Shown(_) | Outcome::Found(_) => false,
    }
}

/// Whether an outcome is a void.
fn is_void_line(outcome: &Outcome) -> bool
    ensures void { result ≡ spec.is_void (line_outcome outcome.now) }
{
    match outcome {
        Outcome::Halted(halt) => !is_open(halt),
        Outcome::Refused(_) | Outcome::Shown(_) | Outcome::Found(_) => false,
    }
}

/// Whether an outcome is of a kind.
fn is_of(kind: OutcomeKind, outcome: &Outcome) -> bool
    ensures of { result ≡ spec.is_of kind (line_outcome outcome.now) }
{
    match kind {
        OutcomeKind::Decided => is_found(outcome),
        OutcomeKind::Undecided => is_undecided_line(outcome),
        OutcomeKind::Void => is_void_line(outcome),
        OutcomeKind::Refused => is_refused(outcome),
    }
}

/// How many outcomes are of a kind. No chunk of the list is shorter than `piece`.
fn count_in<R: Threads + Sync>(
    rt: &R,
    outcomes: &[Outcome],
    piece: usize,
    kind: OutcomeKind,
) -> usize
    requires few { length outcomes.now < 2 ^ 64 }
    ensures count { result ≡ length (filter (spec.is_of kind) (map line_outcome outcomes.now)) }
{
    outcomes
        .par_iter()
        .with_min_len(piece)
        .map(
            |outcome: &Outcome| -> usize
                ensures { result ≡ (if spec.is_of kind (line_outcome outcome.now) then 1 else 0) }
            { usize::from(is_of(kind, outcome)) },
        )
        .sum(rt)
}

/// How many lines have a result, and how many are undecided, void and refused.
#[derive(Clone, Copy, Debug, PartialEq, Eq)]
struct Tally {
    decided: usize,
    undecided: usize,
    void: usize,
    refused: usize,
}

// `rayon` sets the number of its threads by the processors; a chunk is at least the list over the number of threads asked
// for.
/// The shortest chunk of a list that is counted by a thread of its own.
const SHORTEST_PIECE: usize = 1024;

/// How many outcomes there are of each kind. Where one thread is asked for, one counts them.
fn tally_of<R: Threads + Sync>(rt: &R, outcomes: &[Outcome], jobs: usize) -> Tally
    requires some { 1 ≤ jobs }
    ensures decided { result.decided ≡ length (filter is_result (map line_outcome outcomes.now)) }
    ensures undecided { result.undecided ≡ length (filter is_undecided
        (map line_outcome outcomes.now)) }
    ensures void { result.void ≡ length (filter spec.is_void (map line_outcome outcomes.now)) }
    ensures refused { result.refused ≡ length (filter spec.is_refused
        (map line_outcome outcomes.now)) }
{
    let piece = (outcomes.len() / jobs).max(SHORTEST_PIECE);
    Tally {
        decided: count_in(rt, outcomes, piece, OutcomeKind::Decided),
        undecided: count_in(rt, outcomes, piece, OutcomeKind::Undecided),
        void: count_in(rt, outcomes, piece, OutcomeKind::Void),
        refused: count_in(rt, outcomes, piece, OutcomeKind::Refused),
    }
}

/// Adds a fact where it is new. The error comes where memory runs out.
fn see_fact(seen: &mut NumberedFacts, fact: Fact) -> Result<(), AllocError>
    ensures seen { OnOk result (seen.new ≡ with_fact seen.old fact) }
{
    number_fact(seen, fact)?;
    Ok(())
}

/// Adds the facts that are new. The error comes where memory runs out.
fn see_facts(seen: &mut NumberedFacts, facts: &LineFacts) -> Result<(), AllocError>
    ensures seen { OnOk result (seen.new ≡ with_facts seen.old (pairs_in facts.now)) }
{
    for index in 0..facts.len() {
        see_fact(seen, facts.pair(index).0)?;
    }
    Ok(())
}

/// Adds the facts that a line rests on and that are new. The error comes where memory runs out.
fn see_line(seen: &mut NumberedFacts, outcome: &Outcome) -> Result<(), AllocError>
    ensures seen { OnOk result (seen.new ≡ seen_after seen.old (line_outcome outcome.now)) }
{
    match outcome {
        Outcome::Found(finding) => see_facts(seen, &finding.facts),
        Outcome::Shown(shown) => see_fact(seen, shown.entry().0),
        Outcome::Refused(_) | Outcome::Halted(_) => Ok(()),
    }
}

/// How many facts the text of lines has. The error comes where memory runs out.
fn facts_in(alloc: Global, outcomes: &[Outcome]) -> Result<usize, AllocError>
    ensures facts { IfOk result (λ facts. facts ≡ spec.facts_in (map line_outcome outcomes.now)) }
{
    let mut seen = NumberedFacts::new(alloc, ListedFacts::of(outcomes))?;
    for outcome in outcomes.iter() {
        see_line(&mut seen, outcome)?;
    }
    Ok(seen.len())
}

/// Writes the line of a sample.
#[tactic(auto, unfolding(crate::specs::Counting::counts_text))]
fn write_counts<K: Sink>(
    sink: &mut K,
    count: u32,
    seed: u64,
    tally: Tally,
    facts: usize,
) -> Result<(), Failed>
    ensures { Writes K.written K.faults sink.old sink.new
        (spec.counts_text count seed tally.decided tally.undecided tally.void tally.refused facts)
        result }
{
    let mut count_buffer = Buffer::new();
    let mut seed_buffer = Buffer::new();
    let mut decided_buffer = Buffer::new();
    let mut undecided_buffer = Buffer::new();
    let mut void_buffer = Buffer::new();
    let mut refused_buffer = Buffer::new();
    let mut facts_buffer = Buffer::new();
    write_parts(
        sink,
        &[
            b"sample ",
            decimal(&mut count_buffer, count),
            b" ",
            decimal(&mut seed_buffer, seed),
            b" decided ",
            decimal(&mut decided_buffer, tally.decided),
            b" undecided ",
            decimal(&mut undecided_buffer, tally.undecided),
            b" void ",
            decimal(&mut void_buffer, tally.void),
            b" refused ",
            decimal(&mut refused_buffer, tally.refused),
            b" facts ",
            decimal(&mut facts_buffer, facts),
            b"\n",
        ],
    )
}

/// The line of counts of rows with these outcomes. The error comes where memory runs out.
fn counts_of<R: Threads + Sync, E, G>(
    tools: &Tools<'_, R, E, G>,
    count: u32,
    seed: u64,
    outcomes: &[Outcome],
) -> Result<Vec<u8>, AllocError>
    ensures text { IfOk result (λ text. text.items ≡ spec.sample_text count seed
        (map line_outcome outcomes.now)) }
{
    let facts = facts_in(tools.alloc, outcomes)?;
    let mut gathered = Gathered::new(tools.alloc);
    let tally = tally_of(tools.rt, outcomes, tools.jobs);
    match write_counts(&mut gathered, count, seed, tally, facts) {
        Ok(()) => Ok(gathered.into_bytes()),
        Err(Failed) => Err(AllocError),
    }
}

/// Writes how many rows have each outcome, in one line that names a count and a seed, and says whether all have results.
/// Where memory runs out nothing was written.
pub fn count<R: Threads + Sync, K: Sink, E: Evaluator + Sync, G: Gate + Sync>(
    tools: &Tools<'_, R, E, G>,
    sink: &mut K,
    rows: &Rows<'_>,
    count: u32,
    seed: u64,
) -> Result<bool, WriteStop>
    requires spelled { AreSpelledRows rows.now }
    ensures performs { Performs K.written K.faults sink.old sink.new
        (spec.Counted (K.written sink.old) (K.written sink.new) (lines_in rows.now) count seed)
        (spec.CountCutShort (K.written sink.old) (K.written sink.new) (lines_in rows.now) count
        seed) result }
    ensures memory { IsErrOf result WriteStop.Memory → Keeps (K.written sink.old)
        (K.written sink.new) }
{
    let outcomes = outcomes_of(tools, rows)?;
    let text = counts_of(tools, count, seed, &outcomes)?;
    write_all(sink, &text)?;
    Ok(all_found(&outcomes))
}
