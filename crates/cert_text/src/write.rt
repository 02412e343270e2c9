//! Writes the text that stands for one line of input.
ghost use Rattle.std.specs.Prelude.{◌≡◌, ◌≤◌, ◌<◌, ◌+◌, ◌^◌, ◌++◌, codes, length};
ghost use Rattle.std.specs.List.{flat_map};
ghost use Rattle.byte_streams.specs.Stream.{Writes};
ghost use Rattle.book_model.specs.lines.Text as model;
ghost use Rattle.cert_text.specs.Text as spec;

use crate::echo::Echo;
use crate::line::{Block, CertLine};
use book_model::{Fact, Site, Undecided, WRITTEN};
use byte_streams::{Failed, Sink, decimal, write_all, write_parts, write_two_counts};
use itoa::Buffer;

/// What stands before a day's own date.
pub(crate) const REFUSED_5: &[u8] = b"refused 5 ";

/// Writes the line of a fact with its number and its value. At an error, which comes only where the count of the sink's faults
/// rose, a prefix of it was written.
#[tactic(auto, unfolding(book_model::specs::lines::Text::fact_text))]
pub fn write_fact<K: Sink>(sink: &mut K, number: u32, entry: &(Fact, i64)) -> Result<(), Failed>
    ensures { Writes K.written K.faults sink.old sink.new
        (model.fact_text number entry.now.0 entry.now.1) result }
{
    let mut number_buffer = Buffer::new();
    let mut day_buffer = Buffer::new();
    let mut value_buffer = Buffer::new();
    let number = decimal(&mut number_buffer, number);
    let fact = entry.0;
    let kind = fact.kind().name().as_bytes();
    let place = fact.place().name().as_bytes();
    let day = decimal(&mut day_buffer, fact.day());
    let value = decimal(&mut value_buffer, entry.1);
    write_parts(
        sink,
        &[
            b"fact ", number, b" ", kind, b" ", place, b" ", day, b" ", value, b"\n",
        ],
    )
}

/// Writes the lines of facts, of which the first has this number.
fn write_facts<K: Sink>(sink: &mut K, first: u32, facts: &[(Fact, i64)]) -> Result<(), Failed>
    requires { first + length facts.now ≤ 2 ^ 32 }
    ensures { Writes K.written K.faults sink.old sink.new (spec.fact_texts first facts.now) result }
{
    for (index, entry) in facts.iter().enumerate() {
        write_fact(sink, first + index as u32, entry)?;
    }
    Ok(())
}

/// Writes the number of a line and its three words.
#[tactic(auto, unfolding(book_model::specs::lines::Text::echo_text))]
fn write_echo<K: Sink>(sink: &mut K, number: u32, echo: &Echo) -> Result<(), Failed>
    ensures { Writes K.written K.faults sink.old sink.new
        (model.echo_text number (spec.words_in echo.now)) result }
{
    let mut number_buffer = Buffer::new();
    let number = decimal(&mut number_buffer, number);
    let from = echo.from();
    let date = echo.date();
    let to = echo.to();
    write_parts(
        sink,
        &[b"line ", number, b" ", from, b" ", date, b" ", to, b" "],
    )
}

// Part after part, and not `write_parts`: bytes that are known here are put in their place without a
// call.
/// Writes the number of a fact that a line lists.
fn write_number<K: Sink>(sink: &mut K, number: u32) -> Result<(), Failed>
    ensures { Writes K.written K.faults sink.old sink.new (model.number_text number) result }
{
    let mut buffer = Buffer::new();
    write_all(sink, b" ")?;
    write_all(sink, decimal(&mut buffer, number))
}

/// Writes the numbers of the facts that a line lists.
fn write_numbers<K: Sink>(sink: &mut K, numbers: &[u32]) -> Result<(), Failed>
    ensures { Writes K.written K.faults sink.old sink.new
        (flat_map model.number_text numbers.now) result }
{
    for number in numbers {
        write_number(sink, *number)?;
    }
    Ok(())
}

/// Writes the list of facts at the end of a line. At an error, which comes only where the count of the sink's faults rose, a
/// prefix of it was written.
#[tactic(auto, unfolding(book_model::specs::lines::Text::facts_text))]
pub fn write_list<K: Sink>(sink: &mut K, numbers: &[u32]) -> Result<(), Failed>
    ensures { Writes K.written K.faults sink.old sink.new (model.facts_text numbers.now) result }
{
    write_all(sink, b" facts")?;
    write_numbers(sink, numbers)?;
    write_all(sink, b"\n")
}

/// Writes that a day (R.D.) is out of range.
#[tactic(auto, unfolding(book_model::specs::lines::Text::too_far_text))]
pub(crate) fn write_too_far<K: Sink>(sink: &mut K, day: i64) -> Result<(), Failed>
    ensures { Writes K.written K.faults sink.old sink.new (model.too_far_text day) result }
{
    let mut buffer = Buffer::new();
    let day = decimal(&mut buffer, day);
    write_parts(sink, &[b"refused 4 ", day])
}

/// Writes that a day has another date of its own.
#[tactic(auto, unfolding(book_model::specs::lines::Text::no_date_text))]
pub(crate) fn write_no_date<K: Sink>(sink: &mut K, back: &[u8]) -> Result<(), Failed>
    ensures { Writes K.written K.faults sink.old sink.new (model.no_date_text back.now) result }
{
    write_parts(sink, &[REFUSED_5, back])
}

/// Writes the text of a line that breaks a rule.
#[tactic(auto, unfolding(book_model::specs::lines::Text::refused_text))]
fn write_refused<K: Sink>(sink: &mut K, number: u32, rule: u8) -> Result<(), Failed>
    ensures { Writes K.written K.faults sink.old sink.new (model.refused_text number rule) result }
{
    write_two_counts(sink, b"line ", number, b" refused ", u32::from(rule))
}

/// Writes the number of a line, and that a fact is undecided.
#[tactic(auto, unfolding(book_model::specs::lines::Text::open_text))]
fn write_open<K: Sink>(sink: &mut K, number: u32, fact: Fact, at: Undecided) -> Result<(), Failed>
    ensures { Writes K.written K.faults sink.old sink.new (model.open_text number fact at) result }
{
    let mut number_buffer = Buffer::new();
    let mut turn_buffer = Buffer::new();
    let mut low_buffer = Buffer::new();
    let mut high_buffer = Buffer::new();
    let mut day_buffer = Buffer::new();
    let number = decimal(&mut number_buffer, number);
    let site = at.site.name().as_bytes();
    let turn = decimal(&mut turn_buffer, at.turn);
    let low = decimal(&mut low_buffer, at.lo);
    let high = decimal(&mut high_buffer, at.hi);
    let kind = fact.kind().name().as_bytes();
    let place = fact.place().name().as_bytes();
    let day = decimal(&mut day_buffer, fact.day());
    write_parts(
        sink,
        &[
            number,
            b" undecided ",
            site,
            b" ",
            turn,
            b" ",
            low,
            b" ",
            high,
            b" fact ",
            kind,
            b" ",
            place,
            b" ",
            day,
            b"\n",
        ],
    )
}

/// Writes the number of a line, and that a fact is void.
#[tactic(auto, unfolding(book_model::specs::lines::Text::empty_text))]
fn write_empty<K: Sink>(sink: &mut K, number: u32, fact: Fact, site: Site) -> Result<(), Failed>
    ensures { Writes K.written K.faults sink.old sink.new
        (model.empty_text number fact site) result }
{
    let mut number_buffer = Buffer::new();
    let mut day_buffer = Buffer::new();
    let number = decimal(&mut number_buffer, number);
    let site = site.name().as_bytes();
    let kind = fact.kind().name().as_bytes();
    let place = fact.place().name().as_bytes();
    let day = decimal(&mut day_buffer, fact.day());
    write_parts(
        sink,
        &[
            number, b" void ", site, b" fact ", kind, b" ", place, b" ", day, b"\n",
        ],
    )
}

/// Writes a line that names an undecided fact, behind a head. At an error, which comes only where the count of the
/// sink's faults rose, a prefix of the text was written.
pub fn write_undecided<K: Sink>(
    sink: &mut K,
    head: &[u8],
    number: u32,
    fact: Fact,
    at: Undecided,
) -> Result<(), Failed>
    ensures { Writes K.written K.faults sink.old sink.new
        (model.undecided_text head.now number fact at) result }
{
    write_all(sink, head)?;
    write_open(sink, number, fact, at)
}

/// Writes a line that names a void fact, behind a head. At an error, which comes only where the count of the sink's
/// faults rose, a prefix of the text was written.
pub fn write_void<K: Sink>(
    sink: &mut K,
    head: &[u8],
    number: u32,
    fact: Fact,
    site: Site,
) -> Result<(), Failed>
    ensures { Writes K.written K.faults sink.old sink.new
        (model.void_text head.now number fact site) result }
{
    write_all(sink, head)?;
    write_empty(sink, number, fact, site)
}

/// Writes a line with a result.
fn write_listed<K: Sink>(
    sink: &mut K,
    number: u32,
    echo: &Echo,
    text: &[u8],
    numbers: &[u32],
) -> Result<(), Failed>
    ensures { Writes K.written K.faults sink.old sink.new
        (model.listed_text number (spec.words_in echo.now) text.now numbers.now) result }
{
    write_echo(sink, number, echo)?;
    write_all(sink, text)?;
    write_list(sink, numbers)
}

/// Writes a line whose computed day is out of range.
fn write_far_line<K: Sink>(
    sink: &mut K,
    number: u32,
    echo: &Echo,
    day: i64,
    numbers: &[u32],
) -> Result<(), Failed>
    ensures { Writes K.written K.faults sink.old sink.new
        (model.listed_text number (spec.words_in echo.now) (model.too_far_text day) numbers.now)
        result }
{
    write_echo(sink, number, echo)?;
    write_too_far(sink, day)?;
    write_list(sink, numbers)
}

/// Writes a line whose day has another date.
fn write_back_line<K: Sink>(
    sink: &mut K,
    number: u32,
    echo: &Echo,
    back: &[u8],
    numbers: &[u32],
) -> Result<(), Failed>
    ensures { Writes K.written K.faults sink.old sink.new
        (model.listed_text number (spec.words_in echo.now) (model.no_date_text back.now)
        numbers.now) result }
{
    write_echo(sink, number, echo)?;
    write_no_date(sink, back)?;
    write_list(sink, numbers)
}

/// Writes a line with its number. At an error, which comes only where the count of the sink's faults rose, a prefix of the
/// text was written.
pub fn write_line<K: Sink>(sink: &mut K, number: u32, line: &CertLine) -> Result<(), Failed>
    ensures { Writes K.written K.faults sink.old sink.new (spec.line_text number line.now) result }
{
    match line {
        CertLine::Shown {
            echo,
            result: text,
            facts,
        } => write_listed(sink, number, echo, text.bytes(), facts.numbers()),
        CertLine::TooFar { echo, day, facts } => {
            write_far_line(sink, number, echo, *day, facts.numbers())
        }
        CertLine::NoDate { echo, back, facts } => {
            write_back_line(sink, number, echo, back.bytes(), facts.numbers())
        }
        CertLine::Refused(rule) => write_refused(sink, number, *rule),
        CertLine::Undecided { fact, at } => write_undecided(sink, b"line ", number, *fact, *at),
        CertLine::Void { fact, site } => write_void(sink, b"line ", number, *fact, *site),
    }
}

// It asks only that its facts' numbers fit 32 bits, and writes the text of any block; that the text
// is read again is a law with premises of its own (`cert_parser::laws::read_again`).
/// Writes the text of a block: its facts, numbered from its first, and then its line with its number. At an error,
/// which comes only where the count of the sink's faults rose, a prefix of the text was written.
pub fn write_block<K: Sink>(sink: &mut K, block: &Block) -> Result<(), Failed>
    requires { block.now.first + length block.now.facts ≤ 2 ^ 32 }
    ensures { Writes K.written K.faults sink.old sink.new (spec.block_text block.now) result }
{
    write_facts(sink, block.first, block.facts.entries())?;
    write_line(sink, block.number, &block.line)
}

/// Writes the first line of a text.
pub fn write_header<K: Sink>(sink: &mut K) -> Result<(), Failed>
    ensures { Writes K.written K.faults sink.old sink.new (model.header_of WRITTEN) result }
{
    write_parts(sink, &[WRITTEN.header().as_bytes(), b"\n"])
}

/// Writes the last line of a text, which counts its lines and facts.
#[tactic(auto, unfolding(book_model::specs::lines::Text::end_text))]
pub fn write_end<K: Sink>(sink: &mut K, lines: u32, facts: u32) -> Result<(), Failed>
    ensures { Writes K.written K.faults sink.old sink.new (model.end_text lines facts) result }
{
    write_two_counts(sink, b"end lines ", lines, b" facts ", facts)
}
