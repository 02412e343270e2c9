//! What is to be computed and printed.
ghost use Rattle.std.specs.Prelude.{◌≡◌, ◌≤◌, ◌<◌, map, length, All, IfOk};
ghost use Rattle.book_model.specs.declared.version.TheConstants.{WRITTEN};
ghost use Rattle.book_model.specs.lines.Lines.{words_of};
ghost use Rattle.book_model.specs.lines.Requests.{request_of, checked_request as checked};
ghost use Rattle.book_model.specs.lines.Text.{echo_text};
ghost use Rattle.byte_streams.specs.Stream.{Writes};
ghost use Rattle.jobs_core.specs.Outcomes.{CanResolve};
ghost use Rattle.conversion.specs.Rows as spec;

use book_model::{Request, WRITTEN};
use byte_streams::{Failed, Sink, decimal, write_all};
use cert_text::write_date;
use itoa::Buffer;
use jobs_core::{Row, rows_of};
use line_core::{ThreeWords, checked_request, spaced_words, three_words};
use std::alloc::{AllocError, Global};
use std::thread::Threads;

/// What is to be computed and printed. Contracts see it as its lines.
#[derive(Drop)]
pub enum Rows<'a> {
    /// The lines of an input, where they lie.
    Lines(Vec<&'a [u8]>),
    /// Requests that the program makes itself, each such as a line can spell.
    Made(Vec<Request>),
}

/// What a request of the program's own asks, or the first rule that its line breaks.
fn checked_row(request: &Request) -> Row
    ensures row { result ≡ checked WRITTEN request.now }
    ensures resolvable { CanResolve result }
{
    checked_request(request, WRITTEN)
}

/// What each of the program's own requests asks, or the first rule that its line breaks, in order. The error comes where
/// memory runs out.
fn checked_rows(alloc: Global, requests: &[Request]) -> Result<Vec<Row>, AllocError>
    ensures rows { IfOk result (λ rows. rows.items ≡ map (checked WRITTEN) requests.now) }
    ensures resolvable { IfOk result (λ rows. All CanResolve rows.items) }
{
    let mut rows = Vec::with_capacity(alloc, requests.len())?;
    for request in requests {
        rows.push(checked_row(request))?;
    }
    Ok(rows)
}

/// Writes a word and a space.
#[inline(always)]
fn write_spaced<K: Sink>(sink: &mut K, word: &[u8]) -> Result<(), Failed>
    ensures { Writes K.written K.faults sink.old sink.new (spec.spaced word.now) result }
{
    write_all(sink, word)?;
    write_all(sink, b" ")
}

// Part after part, and not `write_parts`: bytes that are known here are put in their place without a
// call.
/// Writes the number of a line and its first word.
fn write_prefix<K: Sink>(sink: &mut K, number: u32, from: &[u8]) -> Result<(), Failed>
    ensures { Writes K.written K.faults sink.old sink.new (spec.echo_prefix number from.now) result }
{
    let mut buffer = Buffer::new();
    write_all(sink, b"line ")?;
    write_spaced(sink, decimal(&mut buffer, number))?;
    write_spaced(sink, from)
}

/// Writes the last word of a line.
fn write_last<K: Sink>(sink: &mut K, to: &[u8]) -> Result<(), Failed>
    ensures { Writes K.written K.faults sink.old sink.new (spec.echo_end to.now) result }
{
    write_all(sink, b" ")?;
    write_spaced(sink, to)
}

/// Writes the number of a line and three words.
pub(crate) fn write_three<K: Sink>(
    sink: &mut K,
    number: u32,
    words: ThreeWords<'_>,
) -> Result<(), Failed>
    ensures { Writes K.written K.faults sink.old sink.new (spec.words_echo number
        words.entry.from.now words.entry.date.now words.entry.to.now) result }
{
    write_prefix(sink, number, words.from)?;
    write_all(sink, words.date)?;
    write_last(sink, words.to)
}

/// Writes the number of a line of the input and its three words, whatever blanks stand between them.
fn write_any_words<K: Sink>(sink: &mut K, number: u32, line: &[u8]) -> Result<(), Failed>
    requires three { length (words_of line.now) ≡ 3 }
    ensures { Writes K.written K.faults sink.old sink.new
        (echo_text number (words_of line.now)) result }
{
    match three_words(line) {
        Some(words) => write_three(sink, number, words),
        None => unreachable!(),
    }
}

// Words are cut where a line is read and again here: less than a thousandth of a line that asks a
// fact.
/// Writes the number of a line of the input and its three words, as they stand there.
pub(crate) fn write_own_words<K: Sink>(sink: &mut K, number: u32, line: &[u8]) -> Result<(), Failed>
    requires three { length (words_of line.now) ≡ 3 }
    ensures { Writes K.written K.faults sink.old sink.new
        (echo_text number (words_of line.now)) result }
{
    match spaced_words(line) {
        // Nearly each line has single spaces between its words: then they are written together.
        Some(_words) => write_prefix(sink, number, line),
        None => write_any_words(sink, number, line),
    }
}

/// Writes the number of a line and the three words of the line of a request.
fn write_request<K: Sink>(sink: &mut K, number: u32, request: &Request) -> Result<(), Failed>
    ensures { Writes K.written K.faults sink.old sink.new
        (spec.request_echo number request.now) result }
{
    write_prefix(sink, number, request.from.name().as_bytes())?;
    write_date(sink, request.from.calendar(), &request.date)?;
    write_last(sink, request.to.name().as_bytes())
}

impl Rows<'_> {
    /// How many there are.
    pub fn len(&self) -> usize
        ensures len { result ≡ length (spec.lines_in self.now) }
    {
        match self {
            Rows::Lines(lines) => lines.len(),
            Rows::Made(requests) => requests.len(),
        }
    }

    // Requests of the program's own are few, and checked in some hundred instructions each.
    /// What each asks, or the first rule that it breaks, in order: lines are read by so many threads. The error comes where
    /// memory runs out.
    pub fn asked<R: Threads + Sync>(
        &self,
        rt: &R,
        alloc: Global,
        jobs: usize,
    ) -> Result<Vec<Row>, AllocError>
        requires some { 1 ≤ jobs }
        requires few { jobs ≤ 64 }
        requires spelled { spec.AreSpelledRows self.now }
        ensures rows { IfOk result (λ rows. rows.items
            ≡ map (request_of WRITTEN) (spec.lines_in self.now)) }
        ensures resolvable { IfOk result (λ rows. All CanResolve rows.items) }
    {
        match self {
            Rows::Lines(lines) => rows_of(rt, alloc, lines, jobs),
            Rows::Made(requests) => checked_rows(alloc, requests),
        }
    }

    /// Writes a line's number and the three words of a row that broke no rule, taken from where they lie.
    pub(crate) fn write_echo<K: Sink>(
        &self,
        sink: &mut K,
        number: u32,
        index: usize,
    ) -> Result<(), Failed>
        requires spelled { spec.AreSpelledRows self.now }
        requires within { index < length (spec.lines_in self.now) }
        requires three { length (words_of (spec.line_at self.now index)) ≡ 3 }
        ensures { Writes K.written K.faults sink.old sink.new
            (echo_text number (words_of (spec.line_at self.now index))) result }
    {
        match self {
            Rows::Lines(lines) => write_own_words(sink, number, lines[index]),
            Rows::Made(requests) => write_request(sink, number, &requests[index]),
        }
    }
}
