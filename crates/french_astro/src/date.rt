//! French dates, and the facts that they are found by. Days are R.D.
ghost use Rattle.std.specs.Prelude.{◌≡◌, ◌≤◌, ◌≤ℤ◌, ◌+ℤ◌, ◌-ℤ◌, ◌*ℤ◌, pos};
ghost use Rattle.book_model.specs.calendars.Dates.{IsAskable, IsDateDay};
ghost use Rattle.book_model.specs.calendars.French.{french_year_fact, mid_year_day as day_in_mid_year, year_begun as year_begun_on, french_fields, french_on, french_day};
ghost use Rattle.book_model.specs.calendars.Inquiries.{to_8_bits as to_8_bits_of};
ghost use Rattle.book_model.specs.calendars.Spans.{quotient_down, modulo as modulo_of};
ghost use Rattle.book_model.specs.declared.calendar.Calendar.TheVariants.{French};
ghost use Rattle.book_model.specs.sky.Facts.{IsFactDay, IsFactValue};
ghost use Rattle.calendar_math.specs.Days.{IsCalendarDay};
ghost use Rattle.french_astro.specs.Dates.{fields_of_date};
ghost use Rattle.french_astro.specs.Days.{IsDayNumber, IsNearYear};
ghost use Rattle.oracle_core.specs.Asking.{Asks, AsksAs};

use book_model::calendar_tables::FRENCH_EPOCH;
use book_model::{Fact, Kind, Place};
use calendar_math::{days_of_years, modulo, quotient, to_8_bits, to_32_bits, years_of_days};
use oracle_core::{Oracle, Stop};

/// A date of the French calendar. Month 13 is that of the five or six days at the end of a year.
#[derive(Clone, Copy, Debug, PartialEq, Eq)]
pub struct FrenchDate {
    pub year: i32,
    pub month: u8,
    pub day: u8,
}

/// The fact of the first day of the French year that a day falls in.
fn year_fact_on(day: i64) -> Fact
    requires day { IsFactDay day }
    ensures fact { result ≡ french_year_fact day }
{
    Fact::new(Kind::FrenchYear, Place::None, day).unwrap()
}

/// A day about the middle of a year.
fn mid_year_day(year: i64) -> i64
    requires year { IsNearYear year }
    ensures day { result ≡ day_in_mid_year year }
    ensures near { IsFactDay result }
{
    FRENCH_EPOCH + 180 + days_of_years(year - 1)
}

/// The fact of the first day of a year.
fn new_year_fact(year: i64) -> Fact
    requires year { IsNearYear year }
    ensures fact { result ≡ french_year_fact (day_in_mid_year year) }
{
    year_fact_on(mid_year_day(year))
}

/// The year that begins on a day.
fn year_begun(first: i64) -> i64
    requires first { IsFactValue first }
    ensures year { result ≡ year_begun_on first }
    ensures near { IsNearYear result }
{
    1 + years_of_days(first - FRENCH_EPOCH)
}

/// The month, where so many days of the year are over.
fn month_after(over: i64) -> u8
    requires over { IsDayNumber over }
    ensures month { pos result ≡ to_8_bits_of (quotient_down over 30 +ℤ pos 1) }
{
    to_8_bits(quotient(over, 30) + 1)
}

/// The day of its month, where so many days of the year are over.
fn day_after(over: i64) -> u8
    requires over { IsDayNumber over }
    ensures day { pos result ≡ modulo_of over 30 +ℤ pos 1 }
{
    (modulo(over, 30) + 1) as u8
}

/// Year, month and day, by the year and the days of it that are over.
#[tactic(auto, unfolding(book_model::specs::calendars::French::french_fields))]
fn date_from_number(year: i64, over: i64) -> FrenchDate
    requires year { IsNearYear year }
    requires over { IsDayNumber over }
    ensures date { fields_of_date result ≡ french_fields year over }
{
    FrenchDate {
        year: to_32_bits(year),
        month: month_after(over),
        // The remainder of days by 30 always fits. An added day in a common year, as 4-13-6, names
        // the first of the next year, and so is refused as no date of its day.
        day: day_after(over),
    }
}

/// The days of a year that are over on a day, by the first day of it.
fn days_over(first: i64, day: i64) -> i64
    requires first { IsFactValue first }
    requires day { IsCalendarDay day }
    ensures over { result ≡ day -ℤ first }
    ensures near { IsDayNumber result }
{
    day - first
}

/// The date of a day by the first day of its year.
fn date_from_facts(first: i64, day: i64) -> FrenchDate
    requires first { IsFactValue first }
    requires day { IsCalendarDay day }
    ensures date { fields_of_date result ≡ french_fields (year_begun_on first) (day -ℤ first) }
{
    date_from_number(year_begun(first), days_over(first, day))
}

/// The date of a day (R.D.): the year that begins on the first day which the oracle has for the day, and by the days since then months
/// of 30 days. A month that its type doesn't hold is clamped to the nearest bound; year and day always fit. It returns early where the
/// oracle does, at the one fact that is asked (Reingold and Dershowitz, Calendrical Calculations, chapter 17).
///
/// ```
/// let evaluator = Staged::new();
/// let mut oracle = Asking::new(rt.alloc(), &evaluator);
/// let date = french_astro::from_fixed(&mut oracle, 655_511)?; // FrenchDate { year: 4, month: 1, day: 1 }
/// ```
pub fn from_fixed<O: Oracle>(oracle: &mut O, day: i64) -> Result<FrenchDate, Stop>
    requires day { IsDateDay French day }
    ensures date { AsksAs fields_of_date O.Oracle (french_on day) oracle.old oracle.new result }
{
    let first = oracle.ask(year_fact_on(day))?;
    Ok(date_from_facts(first, day))
}

/// The day of a month and a day by the first day of their year.
fn day_by(first: i64, month: i64, day: i64) -> i64
    requires value { IsFactValue first }
    requires from_first_month { pos 1 ≤ℤ month }
    requires to_last_month { month ≤ℤ pos 13 }
    requires from_first_day { pos 1 ≤ℤ day }
    requires to_last_day { day ≤ℤ pos 30 }
    ensures day { result ≡ first +ℤ pos 30 *ℤ (month -ℤ pos 1) +ℤ day -ℤ pos 1 }
{
    first + 30 * (month - 1) + day - 1
}

/// The day (R.D.) of a date: the first day of the year which the oracle has, asked of a day about the year's middle, the days of the
/// months before, and the day of the month. The date needn't be one that the calendar has. It returns early where the oracle does,
/// at the one fact that is asked (Reingold and Dershowitz, Calendrical Calculations, chapter 17).
///
/// ```
/// let evaluator = Staged::new();
/// let mut oracle = Asking::new(rt.alloc(), &evaluator);
/// let date = FrenchDate { year: 4, month: 1, day: 1 };
/// let day = french_astro::to_fixed(&mut oracle, date)?; // 655_511, which is 23 September 1795
/// ```
pub fn to_fixed<O: Oracle>(oracle: &mut O, date: FrenchDate) -> Result<i64, Stop>
    requires askable { IsAskable French (fields_of_date date) }
    ensures day { Asks O.Oracle (french_day date.year (pos date.month) (pos date.day))
        oracle.old oracle.new result }
{
    let first = oracle.ask(new_year_fact(i64::from(date.year)))?;
    let day = day_by(first, i64::from(date.month), i64::from(date.day));
    Ok(day)
}
