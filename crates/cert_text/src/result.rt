//! The text of a result.
ghost use Rattle.std.specs.Prelude.{◌≡◌, ◌≤◌, ◌<◌, ◌+◌, ◌-◌, ◌%◌, ◌++◌, codes, take, replicate, length, IfOk};
ghost use Rattle.std.specs.Fmt.{signed_decimal};
ghost use Rattle.std.specs.List.{flat_map};
ghost use Rattle.book_model.specs.calendars.Dates.{field};
ghost use Rattle.book_model.specs.lines.Text as spec;
ghost use Rattle.byte_streams.specs.Stream.{Writes};

use crate::brief::Brief;
use crate::lists::Word;
use crate::write::{REFUSED_5, write_no_date, write_too_far};
use book_model::{Calendar, Fields, Meaning, Resolved, ToWord};
use byte_streams::{Failed, Sink, decimal, write_all, write_parts};
use itoa::Buffer;
use std::alloc::{AllocError, Global};

/// The leading zeros that make digits this many, up to four.
fn zeros(width: usize, digits: &[u8]) -> &'static [u8]
    requires few { width ≤ 4 }
    ensures zeros { result.now ≡ replicate (width - length digits.now) 48 }
{
    &b"0000"[..width.saturating_sub(digits.len())]
}

/// The last digit of a number.
fn last_digit(number: u32) -> u8
    ensures { result ≡ 48 + number % 10 }
{
    b'0' + (number % 10) as u8
}

/// A Gregorian date whose year has at most four digits, and its month and its day at most two.
#[tactic(auto, unfolding(book_model::specs::lines::Text::gregorian_text))]
fn short_date(date: &Fields) -> [u8; 10]
    requires year { field date.now 0 < 10000 }
    requires month { field date.now 1 < 100 }
    requires day { field date.now 2 < 100 }
    ensures { result ≡ spec.gregorian_text date.now }
{
    let year = date.field(0);
    let month = date.field(1);
    let day = date.field(2);
    [
        last_digit(year / 10 / 10 / 10),
        last_digit(year / 10 / 10),
        last_digit(year / 10),
        last_digit(year),
        b'-',
        last_digit(month / 10),
        last_digit(month),
        b'-',
        last_digit(day / 10),
        last_digit(day),
    ]
}

/// Writes a Gregorian date of any numbers: a year of four digits or more, a month of two and a day of two.
#[tactic(auto, unfolding(book_model::specs::lines::Text::gregorian_text))]
fn write_any_gregorian<K: Sink>(sink: &mut K, date: &Fields) -> Result<(), Failed>
    ensures { Writes K.written K.faults sink.old sink.new (spec.gregorian_text date.now) result }
{
    let mut year_buffer = Buffer::new();
    let mut month_buffer = Buffer::new();
    let mut day_buffer = Buffer::new();
    let year = decimal(&mut year_buffer, date.field(0));
    let month = decimal(&mut month_buffer, date.field(1));
    let day = decimal(&mut day_buffer, date.field(2));
    write_parts(
        sink,
        &[
            zeros(4, year),
            year,
            b"-",
            zeros(2, month),
            month,
            b"-",
            zeros(2, day),
            day,
        ],
    )
}

// Nearly each date is short, and then written at once.
/// Writes a Gregorian date: a year of four digits, a month of two and a day of two.
fn write_gregorian<K: Sink>(sink: &mut K, date: &Fields) -> Result<(), Failed>
    ensures { Writes K.written K.faults sink.old sink.new (spec.gregorian_text date.now) result }
{
    if date.field(0) < 10_000 && date.field(1) < 100 && date.field(2) < 100 {
        write_all(sink, &short_date(date))
    } else {
        write_any_gregorian(sink, date)
    }
}

/// Writes a number.
fn write_number<K: Sink>(sink: &mut K, value: i32) -> Result<(), Failed>
    ensures { Writes K.written K.faults sink.old sink.new (signed_decimal value) result }
{
    let mut buffer = Buffer::new();
    write_all(sink, decimal(&mut buffer, value))
}

/// Writes the first value of a result's fields.
fn write_value<K: Sink>(sink: &mut K, fields: &Fields) -> Result<(), Failed>
    ensures { Writes K.written K.faults sink.old sink.new
        (signed_decimal (spec.first_value fields.now)) result }
{
    write_number(sink, fields.values[0])
}

/// Writes a dash, and a number.
fn write_next<K: Sink>(sink: &mut K, value: i32) -> Result<(), Failed>
    ensures { Writes K.written K.faults sink.old sink.new (spec.dash_text value) result }
{
    write_all(sink, b"-")?;
    write_number(sink, value)
}

/// Writes numbers, a dash before each.
fn write_others<K: Sink>(sink: &mut K, values: &[i32]) -> Result<(), Failed>
    ensures { Writes K.written K.faults sink.old sink.new
        (flat_map spec.dash_text values.now) result }
{
    for value in values {
        write_next(sink, *value)?;
    }
    Ok(())
}

/// The fields that a date has.
fn fields_in(date: &Fields) -> &[i32]
    ensures fields { result.now ≡ take date.now.count date.now.values }
{
    &date.values[..usize::from(date.count).min(5)]
}

/// Writes a number, and others with a dash before each.
fn write_row<K: Sink>(sink: &mut K, first: i32, others: &[i32]) -> Result<(), Failed>
    ensures { Writes K.written K.faults sink.old sink.new
        (signed_decimal first ++ flat_map spec.dash_text others.now) result }
{
    write_number(sink, first)?;
    write_others(sink, others)
}

/// Writes numbers with dashes between them.
fn write_joined<K: Sink>(sink: &mut K, values: &[i32]) -> Result<(), Failed>
    ensures { Writes K.written K.faults sink.old sink.new (spec.dashed values.now) result }
{
    match values.split_first() {
        Some((first, others)) => write_row(sink, *first, others),
        None => Ok(()),
    }
}

/// Writes the fields of a date with dashes between them.
#[tactic(auto, unfolding(book_model::specs::lines::Text::dashed_text))]
fn write_dashed<K: Sink>(sink: &mut K, date: &Fields) -> Result<(), Failed>
    ensures { Writes K.written K.faults sink.old sink.new (spec.dashed_text date.now) result }
{
    write_joined(sink, fields_in(date))
}

/// Writes a date of a calendar: a Gregorian date with four, two and two digits, a date of another calendar with dashes
/// between its fields. At an error, which comes only where the count of the sink's faults rose, a prefix of it was
/// written.
pub fn write_date<K: Sink>(sink: &mut K, calendar: Calendar, date: &Fields) -> Result<(), Failed>
    ensures { Writes K.written K.faults sink.old sink.new
        (spec.date_text calendar date.now) result }
{
    if calendar.row().is_padded {
        write_gregorian(sink, date)
    } else {
        write_dashed(sink, date)
    }
}

/// Writes a date of a calendar, or the value of a fact, with a minus sign where it is below 0.
fn write_shown<K: Sink>(sink: &mut K, to: ToWord, fields: &Fields) -> Result<(), Failed>
    ensures { Writes K.written K.faults sink.old sink.new (spec.shown_as to fields.now) result }
{
    match to.shows() {
        Meaning::Date(calendar) => write_date(sink, calendar, fields),
        Meaning::Value(_, _) => write_value(sink, fields),
    }
}

/// Writes the own date of a day that isn't the one given.
fn write_own_date<K: Sink>(sink: &mut K, back: &Fields) -> Result<(), Failed>
    ensures { Writes K.written K.faults sink.old sink.new
        (spec.no_date_text (spec.dashed_text back.now)) result }
{
    write_all(sink, REFUSED_5)?;
    write_dashed(sink, back)
}

/// Writes the text of what a line shows: a date or a number, or the refusal with the day that is out of range or
/// the day's own date. At an error, which comes only where the count of the sink's faults rose, a prefix of the text
/// was written.
pub fn write_result<K: Sink>(sink: &mut K, resolved: Resolved) -> Result<(), Failed>
    ensures { Writes K.written K.faults sink.old sink.new (spec.result_text resolved) result }
{
    match resolved {
        Resolved::Shown(to, fields) => write_shown(sink, to, &fields),
        Resolved::TooFar { day } => write_too_far(sink, day),
        Resolved::NoDate { back } => write_own_date(sink, &back),
    }
}

/// The text of a result as a word. The error comes where memory runs out.
pub fn result_word(alloc: Global, resolved: Resolved) -> Result<Word, AllocError>
    ensures word { IfOk result (λ w. w ≡ spec.result_text resolved) }
{
    let mut gathered = Brief::new(alloc);
    match write_result(&mut gathered, resolved) {
        Ok(()) => Ok(gathered.into_word()),
        // What is gathered fails only where memory runs out.
        Err(_) => Err(AllocError),
    }
}

/// The fields of a date with dashes between them, as a word. The error comes where memory runs out.
pub fn date_word(alloc: Global, date: &Fields) -> Result<Word, AllocError>
    ensures word { IfOk result (λ w. w ≡ spec.dashed_text date.now) }
{
    let mut gathered = Brief::new(alloc);
    match write_dashed(&mut gathered, date) {
        Ok(()) => Ok(gathered.into_word()),
        Err(_) => Err(AllocError),
    }
}

/// The text of a refusal with the day (R.D.) that is out of range, as a word. The error comes where memory runs out.
pub fn too_far_word(alloc: Global, day: i64) -> Result<Word, AllocError>
    ensures word { IfOk result (λ w. w ≡ spec.too_far_text day) }
{
    let mut gathered = Brief::new(alloc);
    match write_too_far(&mut gathered, day) {
        Ok(()) => Ok(gathered.into_word()),
        Err(_) => Err(AllocError),
    }
}

/// The text of a refusal with the day's own date, as a word. The error comes where memory runs out.
pub fn no_date_word(alloc: Global, back: &[u8]) -> Result<Word, AllocError>
    ensures word { IfOk result (λ w. w ≡ spec.no_date_text back.now) }
{
    let mut gathered = Brief::new(alloc);
    match write_no_date(&mut gathered, back) {
        Ok(()) => Ok(gathered.into_word()),
        Err(_) => Err(AllocError),
    }
}
