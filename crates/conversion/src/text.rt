//! Writes the text of rows and their outcomes, row by row.
ghost use Rattle.std.specs.Prelude.{◌≡◌, ◌≤◌, ◌<◌, ◌+◌, ◌++◌, [], map, length, OnOk, IsErrOf};
ghost use Rattle.std.specs.List.{AllZip};
ghost use Rattle.book_model.specs.lines.Text as spec;
ghost use Rattle.byte_streams.specs.Stream.{Rose, Wrote};
ghost use Rattle.jobs_core.specs.Outcomes.{line_outcome};
ghost use Rattle.conversion.specs.Echoes.{CanEcho, MayStand, echoed_at, echoed_lines};
ghost use Rattle.conversion.specs.Writing.{WritesAll, WritesPrefix};
ghost use Rattle.conversion.specs.declared.text.WriteStop.TheVariants.{Fault, Memory};

use crate::echoes::Echoes;
use crate::listed::ListedFacts;
use crate::numbering::count_of;
use crate::page::Page;
use crate::pending::{MANY, write_if_many};
use byte_streams::{Failed, Gathered, Sink};
use cert_text::{write_end, write_header};
use jobs_core::Outcome;
use std::alloc::{AllocError, Global};

/// Why a text wasn't written whole: a write failed, or memory ran out.
#[derive(Clone, Copy, Debug, PartialEq, Eq)]
pub enum WriteStop {
    Fault,
    Memory,
}

impl From<Failed> for WriteStop {
    ghost from_gives = { λ _ e. e ≡ Fault };

    fn from(_: Failed) -> Self {
        WriteStop::Fault
    }
}

impl From<AllocError> for WriteStop {
    ghost from_gives = { λ _ e. e ≡ Memory };

    fn from(_: AllocError) -> Self {
        WriteStop::Memory
    }
}

/// Puts what stands for a row behind the bytes that wait, and writes them all once they are many.
#[tactic(auto, using(byte_streams::proofs::Flow::writing))]
fn write_row<K: Sink>(
    sink: &mut K,
    page: &mut Page,
    echoes: &Echoes<'_>,
    index: usize,
    outcome: &Outcome,
) -> Result<(), WriteStop>
    requires can { CanEcho echoes.now }
    requires within { index < length (echoed_lines echoes.now) }
    requires stands { MayStand (echoed_at echoes.now index) (line_outcome outcome.now) }
    ensures ok { OnOk result (Wrote (K.written sink.old) (K.written sink.new)
        (page.old.pending.bytes.items ++ spec.block_text page.old.seen (index + 1)
        (echoed_at echoes.now index) (line_outcome outcome.now)) page.new.pending.bytes.items) }
    ensures seen { OnOk result (page.new.seen ≡ spec.seen_after page.old.seen
        (line_outcome outcome.now)) }
    ensures err { WritesPrefix K.written sink.old sink.new
        (page.old.pending.bytes.items ++ spec.block_text page.old.seen (index + 1)
        (echoed_at echoes.now index) (line_outcome outcome.now)) result }
    ensures fault { IsErrOf result WriteStop.Fault → Rose (K.faults sink.old) (K.faults sink.new) }
    ensures later { K.faults sink.old ≤ K.faults sink.new }
{
    page.put_row(echoes, index, outcome)?;
    write_if_many(sink, &mut page.pending, MANY)?;
    Ok(())
}

/// Writes the bytes that wait, and the last line.
#[tactic(auto, using(byte_streams::proofs::Flow::writing))]
fn put_end<K: Sink>(
    sink: &mut K,
    pending: &mut Gathered,
    lines: usize,
    facts: usize,
) -> Result<(), WriteStop>
    ensures ok { WritesAll K.written sink.old sink.new (pending.old.bytes.items
        ++ spec.end_text lines facts) result }
    ensures err { WritesPrefix K.written sink.old sink.new
        (pending.old.bytes.items ++ spec.end_text lines facts) result }
    ensures fault { IsErrOf result WriteStop.Fault → Rose (K.faults sink.old) (K.faults sink.new) }
    ensures later { K.faults sink.old ≤ K.faults sink.new }
{
    let lines = count_of(lines)?;
    let facts = count_of(facts)?;
    match write_end(pending, lines, facts) {
        Ok(()) => {
            write_if_many(sink, pending, 0)?;
            Ok(())
        }
        // What is gathered fails only where memory runs out; `?` would tell it as a fault.
        Err(Failed) => Err(WriteStop::Memory),
    }
}

/// Puts what stands for each row behind the bytes that wait, and then the last line.
fn write_rows<K: Sink>(
    sink: &mut K,
    page: &mut Page,
    echoes: &Echoes<'_>,
    outcomes: &[Outcome],
) -> Result<(), WriteStop>
    requires can { CanEcho echoes.now }
    requires new { page.old.seen ≡ [] }
    requires same { length (echoed_lines echoes.now) ≡ length outcomes.now }
    requires stand { AllZip MayStand (echoed_lines echoes.now) (map line_outcome outcomes.now) }
    ensures ok { WritesAll K.written sink.old sink.new (page.old.pending.bytes.items
        ++ spec.text_from [] 0 (echoed_lines echoes.now) (map line_outcome outcomes.now)) result }
    ensures err { WritesPrefix K.written sink.old sink.new (page.old.pending.bytes.items
        ++ spec.text_from [] 0 (echoed_lines echoes.now) (map line_outcome outcomes.now)) result }
    ensures fault { IsErrOf result WriteStop.Fault → Rose (K.faults sink.old) (K.faults sink.new) }
    ensures later { K.faults sink.old ≤ K.faults sink.new }
{
    for (index, outcome) in outcomes.iter().enumerate() {
        write_row(sink, page, echoes, index, outcome)?;
    }
    let facts = page.seen.len();
    put_end(sink, &mut page.pending, outcomes.len(), facts)
}

/// Writes the whole text of rows and their outcomes behind an empty page.
fn write_page<K: Sink>(
    sink: &mut K,
    page: &mut Page,
    echoes: &Echoes<'_>,
    outcomes: &[Outcome],
) -> Result<(), WriteStop>
    requires empty { page.old.pending.bytes.items ≡ [] }
    requires new { page.old.seen ≡ [] }
    requires can { CanEcho echoes.now }
    requires same { length (echoed_lines echoes.now) ≡ length outcomes.now }
    requires stand { AllZip MayStand (echoed_lines echoes.now) (map line_outcome outcomes.now) }
    ensures ok { WritesAll K.written sink.old sink.new
        (spec.text (echoed_lines echoes.now) (map line_outcome outcomes.now)) result }
    ensures err { WritesPrefix K.written sink.old sink.new
        (spec.text (echoed_lines echoes.now) (map line_outcome outcomes.now)) result }
    ensures fault { IsErrOf result WriteStop.Fault → Rose (K.faults sink.old) (K.faults sink.new) }
    ensures later { K.faults sink.old ≤ K.faults sink.new }
{
    match write_header(&mut page.pending) {
        Ok(()) => write_rows(sink, page, echoes, outcomes),
        // What is gathered fails only where memory runs out; `?` would tell it as a fault.
        Err(Failed) => Err(WriteStop::Memory),
    }
}

// It asks for outcomes that are right, since the form of a line of a certificate rests on it: a result lists
// the facts that its rule asked.
/// Writes the whole text of rows and their outcomes: a header, each line with its new facts before it, and the counts of
/// lines and facts. At an error a prefix of the text was written. Counts of 32 bits are written: more lines or facts are
/// answered as out of memory.
#[tactic(auto, using(byte_streams::proofs::Flow::writing))]
pub fn write_text<K: Sink>(
    alloc: Global,
    sink: &mut K,
    echoes: &Echoes<'_>,
    outcomes: &[Outcome],
) -> Result<(), WriteStop>
    requires can { CanEcho echoes.now }
    requires same { length (echoed_lines echoes.now) ≡ length outcomes.now }
    requires stand { AllZip MayStand (echoed_lines echoes.now) (map line_outcome outcomes.now) }
    ensures ok { WritesAll K.written sink.old sink.new
        (spec.text (echoed_lines echoes.now) (map line_outcome outcomes.now)) result }
    ensures err { WritesPrefix K.written sink.old sink.new
        (spec.text (echoed_lines echoes.now) (map line_outcome outcomes.now)) result }
    ensures fault { IsErrOf result WriteStop.Fault → Rose (K.faults sink.old) (K.faults sink.new) }
    ensures later { K.faults sink.old ≤ K.faults sink.new }
{
    let mut page = Page::new(alloc, ListedFacts::of(outcomes))?;
    write_page(sink, &mut page, echoes, outcomes)
}
