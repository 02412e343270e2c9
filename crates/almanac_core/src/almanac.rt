//! The lines of an almanac.
ghost use Rattle.std.specs.Prelude.{◌≡◌, ◌≤◌, ◌<◌, pos, ◌≤ℤ◌, IfOk};
ghost use Rattle.book_model.specs.calendars.Gregorian.{fixed_of};
ghost use Rattle.book_model.specs.numbers.Fractions.{fraction_of};
ghost use Rattle.book_model.specs.calendars.Spans.{ratio, spans_of as spans_in};
ghost use Rattle.book_model.specs.declared.calendar_tables.TheConstants.{SYNODIC_MONTH as SYNODIC};
ghost use Rattle.almanac_core.specs.Almanac as spec;
ghost use Rattle.book_model.specs.calendars.Versions.{IsAlmanacYear};
ghost use Rattle.book_model.specs.lines.Requests.{AreSpelled};

use crate::numbers::{date_of_five, date_of_three, three_fields};
use book_model::calendar_tables::{ISLAMIC_EPOCH, SYNODIC_MONTH};
use book_model::{FromWord, Request, ToWord};
use calendar_math::spans_of;
use civil_core::to_fixed;
use std::alloc::{AllocError, Global};

/// How many lines an almanac has.
const LINES: u32 = 104;

/// The line of a day of the year that begins in a Gregorian year, by the word of the Chinese or another calendar of its rules.
#[tactic(auto, unfolding(crate::specs::Almanac::chinese_day_of))]
pub(crate) fn chinese_day(from: FromWord, year: u32, month: u32, day: u32) -> Request
    requires year { IsAlmanacYear year }
    requires month { month < 13 }
    requires day { day < 31 }
    ensures request { result ≡ spec.chinese_day_of from year month day }
{
    let passed = year + 2636;
    date_of_five(from, passed / 60 + 1, passed % 60 + 1, month, 0, day)
}

/// The line of the first day of the Bahá'í year that begins in a Gregorian year.
#[tactic(auto, unfolding(crate::specs::Almanac::bahai_new_year_of))]
fn bahai_new_year(year: u32) -> Request
    requires year { IsAlmanacYear year }
    ensures request { result ≡ spec.bahai_new_year_of year }
{
    let passed = year - 1483;
    date_of_five(
        FromWord::Bahai,
        passed / 361,
        passed % 361 / 19 + 1,
        passed % 19 + 1,
        1,
        1,
    )
}

/// The line of a new year or a festival, by its index from 1 to 7: the Chinese new year and the dragon festival, Qingming, the
/// Persian, the Bahá'í, the Hindu solar and the Hindu lunar new year.
#[tactic(auto, unfolding(crate::specs::Almanac::festival_of))]
fn festival(year: u32, index: u32) -> Request
    requires year { IsAlmanacYear year }
    ensures request { result ≡ spec.festival_of year index }
{
    match index {
        1 => chinese_day(FromWord::Chinese, year, 1, 1),
        2 => chinese_day(FromWord::Chinese, year, 5, 5),
        3 => date_of_three(FromWord::MinorTerm, year, 3, 30),
        4 => date_of_three(FromWord::Persian, year - 621, 1, 1),
        5 => bahai_new_year(year),
        6 => date_of_three(FromWord::HinduSolar, year - 78, 1, 1),
        _ => date_of_five(FromWord::HinduLunar, year + 57, 1, 0, 1, 0),
    }
}

/// The first of January of a year (R.D.).
fn january(year: u32) -> i64
    requires year { IsAlmanacYear year }
    ensures day { result ≡ fixed_of year 1 1 }
{
    to_fixed(year as i32, 1, 1).unwrap()
}

// Apart from the call, whose clause says which day it is and not where it lies.
/// The same, and from where to where it lies.
fn first_of_january(year: u32) -> i64
    requires year { IsAlmanacYear year }
    ensures day { result ≡ fixed_of year 1 1 }
    ensures near_from { pos 600000 ≤ℤ result }
    ensures near_to { result ≤ℤ pos 800000 }
{
    january(year)
}

/// The mean synodic months in so many days, rounded down.
fn months_in(days: i64) -> i64
    requires from { pos 300000 ≤ℤ days }
    requires to { days ≤ℤ pos 600000 }
    ensures months { result ≡ spans_in (fraction_of SYNODIC) days (ratio (pos 0) 1) }
    ensures near_from { pos 0 ≤ℤ result }
    ensures near_to { result ≤ℤ pos 21000 }
{
    spans_of(SYNODIC_MONTH, days, 0, 1)
}

/// The mean synodic months from the Islamic epoch to the beginning of a year, rounded down.
#[tactic(auto, unfolding(crate::specs::Almanac::months_to))]
fn months_to(year: u32) -> u32
    requires year { IsAlmanacYear year }
    ensures months { result ≡ spec.months_to year }
    ensures few { result ≤ 21000 }
{
    months_in(first_of_january(year) - ISLAMIC_EPOCH) as u32
}

/// The line of the first day of the Islamic month before which so many months have passed.
#[tactic(auto, unfolding(crate::specs::Almanac::islamic_month_after))]
fn islamic_month(passed: u32) -> Request
    requires few { passed ≤ 21100 }
    ensures request { result ≡ spec.islamic_month_after passed }
{
    date_of_three(FromWord::Islamic, passed / 12 + 1, passed % 12 + 1, 1)
}

/// The line of a solar term, by its index from 0 to 23: the first minor one in each month and the first major one from its middle.
#[tactic(auto, unfolding(crate::specs::Almanac::term_of))]
fn term(year: u32, index: u32) -> Request
    requires year { IsAlmanacYear year }
    requires few { index < 24 }
    ensures request { result ≡ spec.term_of year index }
{
    let month = index / 2 + 1;
    if index % 2 == 0 {
        date_of_three(FromWord::MinorTerm, year, month, 1)
    } else {
        date_of_three(FromWord::MajorTerm, year, month, 15)
    }
}

/// The word for a phase of the moon, from 0 for the new moon to 3 for the last quarter.
#[tactic(auto, unfolding(crate::specs::Almanac::phase_word))]
fn phase_word(index: u32) -> FromWord
    ensures word { result ≡ spec.phase_word index }
{
    match index {
        0 => FromWord::NewMoon,
        1 => FromWord::FirstQuarter,
        2 => FromWord::FullMoon,
        _ => FromWord::LastQuarter,
    }
}

/// The line of a phase of the moon, by its index from 0 to 47: the four before the 28th of each month.
#[tactic(auto, unfolding(crate::specs::Almanac::month_phase_of))]
fn month_phase(year: u32, index: u32) -> Request
    requires year { IsAlmanacYear year }
    requires few { index < 48 }
    ensures request { result ≡ spec.month_phase_of year index }
{
    date_of_three(phase_word(index % 4), year, index / 4 + 1, 28)
}

/// The line of sunset at Cairo on the first of a month.
#[tactic(auto, unfolding(crate::specs::Almanac::month_sunset_of))]
fn month_sunset(year: u32, month: u32) -> Request
    requires year { IsAlmanacYear year }
    requires few { month < 13 }
    ensures request { result ≡ spec.month_sunset_of year month }
{
    Request {
        from: FromWord::Gregorian,
        date: three_fields(year, month, 1),
        to: ToWord::SunsetCairo,
    }
}

/// The line of an almanac of a Gregorian year, 1703 to 2147, by its index, 1 to 104: from 1 the new years and festivals, from 8 the
/// months of the Islamic calendar, 13 from the one that the year begins in, from 21 the solar terms, from 45 the phases of the moon, and
/// from 93 sunset at Cairo on the first of each month. It takes no memory.
#[tactic(auto, unfolding(crate::specs::Almanac::almanac_line_of))]
pub fn almanac_line(year: u32, index: u32) -> Request
    requires year { IsAlmanacYear year }
    requires index_from { 1 ≤ index }
    requires index_to { index ≤ 104 }
    ensures request { result ≡ spec.almanac_line_of year index }
{
    if index < 8 {
        festival(year, index)
    } else if index < 21 {
        islamic_month(months_to(year) + (index - 8))
    } else if index < 45 {
        term(year, index - 21)
    } else if index < 93 {
        month_phase(year, index - 45)
    } else {
        month_sunset(year, index - 92)
    }
}

/// The 104 lines of the almanac of a Gregorian year, 1703 to 2147, in their order. The error comes where memory runs out.
pub fn almanac_requests(alloc: Global, year: u32) -> Result<Vec<Request>, AllocError>
    requires year { IsAlmanacYear year }
    ensures requests { IfOk result (λ requests. requests.items ≡ spec.almanac_requests year) }
    ensures spelled { IfOk result (λ requests. AreSpelled requests.items) }
{
    let mut requests = Vec::with_capacity(alloc, LINES as usize)?;
    for passed in 0..LINES {
        requests.push(almanac_line(year, passed + 1))?;
    }
    Ok(requests)
}
