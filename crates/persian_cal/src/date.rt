//! Persian dates, and the facts that they are found by.
ghost use Rattle.std.specs.Prelude.{◌≡◌, ◌≤◌, ◌≤ℤ◌, ◌+ℤ◌, ◌-ℤ◌, pos, IfOk};
ghost use Rattle.book_model.specs.calendars.Persian.{nowruz_fact, mid_year_day as day_in_mid_year, days_before_month, year_begun as year_begun_on, persian_fields, persian_on, persian_day};
ghost use Rattle.oracle_core.specs.Asking.{Asks, AsksAs};
ghost use Rattle.persian_cal.specs.Dates.{fields_of_date};
ghost use Rattle.book_model.specs.calendars.Dates.{IsAskable, IsDateDay};
ghost use Rattle.book_model.specs.declared.calendar.Calendar.TheVariants.{Persian};
ghost use Rattle.book_model.specs.sky.Facts.{IsFactDay, IsFactValue};
ghost use Rattle.persian_cal.specs.Days.{IsDayNumber, IsNearYear};
ghost use Rattle.calendar_math.specs.Days.{IsCalendarDay};

use crate::months::{days_before, month_of_number};
use book_model::calendar_tables::PERSIAN_EPOCH;
use book_model::{Fact, Kind, Place};
use calendar_math::{days_of_years, to_8_bits, years_of_days};
use oracle_core::{Oracle, Stop};

/// A date of the Persian calendar.
#[derive(Clone, Copy, Debug, PartialEq, Eq)]
pub struct PersianDate {
    pub year: i32,
    pub month: u8,
    pub day: u8,
}

/// The fact of the first day of the Persian year that a day (R.D.) falls in.
pub(crate) fn nowruz_fact_on(day: i64) -> Fact
    requires day { IsFactDay day }
    ensures fact { result ≡ nowruz_fact day }
{
    Fact::new(Kind::Nowruz, Place::None, day).unwrap()
}

/// A day (R.D.) about the middle of a year.
fn mid_year_day(year: i64) -> i64
    requires year { IsNearYear year }
    ensures day { result ≡ day_in_mid_year year }
    ensures near { IsFactDay result }
{
    PERSIAN_EPOCH + 180 + days_of_years(year - 1)
}

/// The fact of the first day of a year.
fn new_year_fact(year: i64) -> Fact
    requires year { IsNearYear year }
    ensures fact { result ≡ nowruz_fact (day_in_mid_year year) }
{
    nowruz_fact_on(mid_year_day(year))
}

/// The year that begins on a day (R.D.).
fn year_begun(first: i64) -> i64
    requires first { IsFactValue first }
    ensures year { result ≡ year_begun_on first }
    ensures near { IsNearYear result }
{
    1 + years_of_days(first - PERSIAN_EPOCH)
}

/// Year, month and day, by the year and the day's number in it, which counts from 1.
fn date_from_number(year: i64, number: i64) -> PersianDate
    requires year { IsNearYear year }
    requires number { IsDayNumber number }
    ensures date { fields_of_date result ≡ persian_fields year number }
{
    let month = month_of_number(number);
    PersianDate {
        year: year as i32,
        month: to_8_bits(month),
        day: to_8_bits(number - days_before(month)),
    }
}

// What is computed between two questions, be it a sum in an argument, stands in functions whose contracts are in the
// definition's words: so the calls that ask need no proof of their own.
/// The date of a day (R.D.) by the first day of its year.
fn date_from_facts(year: i64, new_year: i64, day: i64) -> PersianDate
    requires year { IsNearYear year }
    requires new_year { IsFactValue new_year }
    requires day { IsCalendarDay day }
    ensures date { fields_of_date result ≡ persian_fields year (day -ℤ new_year +ℤ pos 1) }
{
    date_from_number(year, day - new_year + 1)
}

/// The day (R.D.) of a month and a day by the first day of their year.
fn day_by(new_year: i64, month: i64, day: i64) -> i64
    requires new_year { IsFactValue new_year }
    requires from_first_month { pos 1 ≤ℤ month }
    requires to_last_month { month ≤ℤ pos 12 }
    requires from_first_day { pos 1 ≤ℤ day }
    requires to_last_day { day ≤ℤ pos 31 }
    ensures day { result ≡ new_year +ℤ days_before_month month +ℤ day -ℤ pos 1 }
    ensures near { IsDayNumber result }
{
    new_year + days_before(month) + day - 1
}

/// The date of a day (R.D.): the year that begins nearest to the first day which the oracle has for the day, with the
/// month and the day of the month that follow from that year's own first day. A month that its type doesn't hold is
/// clamped to the nearest bound; year and day always fit. It returns early where the oracle does, at one of the two
/// facts that are asked (Reingold and Dershowitz, Calendrical Calculations, chapter 15).
///
/// ```
/// let evaluator = Staged::new();
/// let mut oracle = Asking::new(rt.alloc(), &evaluator);
/// let date = persian_cal::from_fixed(&mut oracle, 738_965)?; // PersianDate { year: 1403, month: 1, day: 1 }
/// ```
pub fn from_fixed<O: Oracle>(oracle: &mut O, day: i64) -> Result<PersianDate, Stop>
    requires day { IsDateDay Persian day }
    ensures date { AsksAs fields_of_date O.Oracle (persian_on day) oracle.old oracle.new result }
{
    let first = oracle.ask(nowruz_fact_on(day))?;
    let year = year_begun(first);
    // The year's first day is asked once more, of a day in its middle, as the rule has it.
    let new_year = oracle.ask(new_year_fact(year))?;
    Ok(date_from_facts(year, new_year, day))
}

/// The day (R.D.) of a date: the first day of the year which the oracle has, the days of the months before, and the day
/// of the month. The date needn't be one that the calendar has. It returns early where the oracle does, at the fact of
/// the year's first day (Reingold and Dershowitz, Calendrical Calculations, chapter 15).
///
/// ```
/// let evaluator = Staged::new();
/// let mut oracle = Asking::new(rt.alloc(), &evaluator);
/// let date = PersianDate { year: 1403, month: 1, day: 1 };
/// let day = persian_cal::to_fixed(&mut oracle, date)?; // 738_965, which is 20 March 2024
/// ```
pub fn to_fixed<O: Oracle>(oracle: &mut O, date: PersianDate) -> Result<i64, Stop>
    requires askable { IsAskable Persian (fields_of_date date) }
    ensures day { Asks O.Oracle (persian_day date.year (pos date.month) (pos date.day))
        oracle.old oracle.new result }
    ensures near { IfOk result IsDayNumber }
{
    let new_year = oracle.ask(new_year_fact(i64::from(date.year)))?;
    let day = day_by(new_year, i64::from(date.month), i64::from(date.day));
    Ok(day)
}
