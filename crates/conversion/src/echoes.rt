//! Where the words of the lines of a text lie.
ghost use Rattle.std.specs.Prelude.{◌≡◌, ◌<◌, [], length, map, slice_index_or};
ghost use Rattle.book_model.specs.lines.Lines.{IsWord, words_of};
ghost use Rattle.book_model.specs.lines.Text.{echo_text};
ghost use Rattle.byte_streams.specs.Stream.{Writes};
ghost use Rattle.conversion.specs.Echoes as spec;

use crate::rows::{Rows, write_own_words, write_three};
use byte_streams::{Failed, Sink};
use cert_text::{CertLine, Echo};
use line_core::ThreeWords;

// Apart from what is computed: a line of a certificate may have no words, and so ask nothing, and yet stands
// in the text.
/// Where the words of the lines of a text lie: in the rows that it is of, in a certificate, or in a line that stands by itself.
/// Contracts see them as lines.
#[derive(Clone, Copy)]
pub enum Echoes<'a> {
    Rows(&'a Rows<'a>),
    Printed(&'a [CertLine]),
    Alone(&'a [u8]),
}

/// The three words of an echo.
pub(crate) fn words_of_echo(echo: &Echo) -> ThreeWords<'_>
    ensures from { result.from.now ≡ echo.now.from }
    ensures date { result.date.now ≡ echo.now.date }
    ensures to { result.to.now ≡ echo.now.to }
    ensures from_printed { IsWord result.from.now }
    ensures date_printed { IsWord result.date.now }
    ensures to_printed { IsWord result.to.now }
{
    ThreeWords {
        from: echo.from(),
        date: echo.date(),
        to: echo.to(),
    }
}

/// Writes the number of a line and the words of an echo.
fn write_words<K: Sink>(sink: &mut K, number: u32, echo: &Echo) -> Result<(), Failed>
    ensures { Writes K.written K.faults sink.old sink.new
        (echo_text number (words_of (spec.echo_line echo.now))) result }
{
    write_three(sink, number, words_of_echo(echo))
}

/// Writes the number of a line and the words of a line of a certificate, which has three.
fn write_own_echo<K: Sink>(sink: &mut K, number: u32, line: &CertLine) -> Result<(), Failed>
    requires three { length (words_of (spec.words_in line.now)) ≡ 3 }
    ensures { Writes K.written K.faults sink.old sink.new
        (echo_text number (words_of (spec.words_in line.now))) result }
{
    match line {
        CertLine::Shown { echo, .. } => write_words(sink, number, echo),
        CertLine::TooFar { echo, .. } => write_words(sink, number, echo),
        CertLine::NoDate { echo, .. } => write_words(sink, number, echo),
        CertLine::Refused(_) | CertLine::Undecided { .. } | CertLine::Void { .. } => unreachable!(),
    }
}

/// Writes the number of a line and the words of the line at a place of a certificate, which has three. The lines are an
/// argument of their own: of a slice in an enum it isn't known that each place has an address.
fn write_echo_at<K: Sink>(
    sink: &mut K,
    number: u32,
    lines: &[CertLine],
    index: usize,
) -> Result<(), Failed>
    requires within { index < length lines.now }
    requires three { length (words_of (slice_index_or (map spec.words_in lines.now) index [])) ≡ 3 }
    ensures { Writes K.written K.faults sink.old sink.new (echo_text number
        (words_of (slice_index_or (map spec.words_in lines.now) index []))) result }
{
    write_own_echo(sink, number, &lines[index])
}

impl Echoes<'_> {
    /// Writes a line's number and its three words, taken from where they lie.
    pub(crate) fn write_echo<K: Sink>(
        &self,
        sink: &mut K,
        number: u32,
        index: usize,
    ) -> Result<(), Failed>
        requires can { spec.CanEcho self.now }
        requires within { index < length (spec.echoed_lines self.now) }
        requires three { length (words_of (spec.echoed_at self.now index)) ≡ 3 }
        ensures { Writes K.written K.faults sink.old sink.new
            (echo_text number (words_of (spec.echoed_at self.now index))) result }
    {
        match self {
            Echoes::Rows(rows) => rows.write_echo(sink, number, index),
            Echoes::Printed(lines) => write_echo_at(sink, number, lines, index),
            Echoes::Alone(line) => write_own_words(sink, number, line),
        }
    }
}
