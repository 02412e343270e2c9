//! Hebrew dates, and the facts that they are found by. Days are R.D.
ghost use Rattle.std.specs.Prelude.{◌≡◌, ◌≤◌, ◌≤ℤ◌, ◌+ℤ◌, ◌-ℤ◌, pos, negsuc};
ghost use Rattle.book_model.specs.calendars.Dates.{IsAskable, IsDateDay};
ghost use Rattle.book_model.specs.calendars.Gregorian.{year_of_day};
ghost use Rattle.book_model.specs.calendars.HebrewObserved as spec;
ghost use Rattle.book_model.specs.declared.calendar.Calendar.TheVariants.{HebrewObserved};
ghost use Rattle.book_model.specs.sky.Facts.{IsFactDay, IsFactValue};
ghost use Rattle.calendar_math.specs.Days.{IsCalendarDay};
ghost use Rattle.hebrew_observed.specs.Dates.{fields_of_date};
ghost use Rattle.hebrew_observed.specs.Months.{IsCalendarYear, IsNisanYear, IsIntervalOfDays};
ghost use Rattle.hebrew_observed.specs.Years.{hebrew_in_year};
ghost use Rattle.oracle_core.specs.Asking.{Asks, AsksAs};

use crate::months::{month_begun, month_fact, month_fact_on, nisan_fact};
use book_model::calendar_tables::{TISHRI, WORLD_ERA};
use calendar_math::{to_8_bits, to_32_bits};
use civil_core::year_of;
use oracle_core::{Oracle, Stop};

/// A date of the Hebrew calendar. Months are counted from Nisan, and the number of the year changes with the seventh, Tishri.
#[derive(Clone, Copy, Debug, PartialEq, Eq)]
pub struct HebrewDate {
    pub year: i32,
    pub month: u8,
    pub day: u8,
}

/// How much the number of the Hebrew year, in a month, exceeds that of the Gregorian year in which Nisan came last.
fn years_ahead(month: i64) -> i64
    ensures ahead { result ≡ spec.years_ahead month }
    ensures from { pos 3760 ≤ℤ result }
    ensures to { result ≤ℤ pos 3761 }
{
    if TISHRI <= month {
        WORLD_ERA + 1
    } else {
        WORLD_ERA
    }
}

/// The date by the Gregorian year in which Nisan came last, the month and the day.
#[tactic(auto, unfolding(book_model::specs::calendars::HebrewObserved::hebrew_fields))]
fn date_from_month(nisan_year: i64, month: i64, day: i64) -> HebrewDate
    requires year { IsNisanYear nisan_year }
    ensures date { fields_of_date result ≡ spec.hebrew_fields nisan_year month day }
{
    HebrewDate {
        year: to_32_bits(nisan_year + years_ahead(month)),
        month: to_8_bits(month),
        day: to_8_bits(day),
    }
}

/// The days from one day to another.
fn days_between(from: i64, to: i64) -> i64
    requires from { IsFactValue from }
    requires to { IsFactValue to }
    ensures days { result ≡ to -ℤ from }
    ensures near { IsIntervalOfDays result }
{
    to - from
}

/// The day of its month, by the first day of that.
fn day_of_month(day: i64, first: i64) -> i64
    requires day { IsCalendarDay day }
    requires first { IsFactValue first }
    ensures day { result ≡ day -ℤ first +ℤ pos 1 }
{
    day - first + 1
}

/// The date of a day of a month that begins on a day, by the Gregorian year in which Nisan came last and its first day there.
fn date_by(day: i64, first: i64, nisan_year: i64, nisan: i64) -> HebrewDate
    requires day { IsCalendarDay day }
    requires first { IsFactValue first }
    requires year { IsNisanYear nisan_year }
    requires nisan { IsFactValue nisan }
    ensures date { fields_of_date result ≡ spec.hebrew_by day first nisan_year nisan }
{
    let month = month_begun(days_between(nisan, first));
    date_from_month(nisan_year, month, day_of_month(day, first))
}

/// The same by the Gregorian year in which Nisan came last: the first of Nisan there is asked. It returns early where the oracle does.
fn date_in_year<O: Oracle>(
    oracle: &mut O,
    day: i64,
    first: i64,
    nisan_year: i64,
) -> Result<HebrewDate, Stop>
    requires day { IsCalendarDay day }
    requires first { IsFactValue first }
    requires year { IsNisanYear nisan_year }
    ensures date { AsksAs fields_of_date O.Oracle (hebrew_in_year day first nisan_year)
        oracle.old oracle.new result }
{
    let nisan = oracle.ask(nisan_fact(nisan_year))?;
    Ok(date_by(day, first, nisan_year, nisan))
}

/// The same by the first day of Nisan in the Gregorian year of the day: where the day comes before it, the first of Nisan of the year
/// before is asked. It returns early where the oracle does.
#[tactic(auto, using(oracle_core::proofs::Inquiring::asking), unfolding(book_model::specs::calendars::HebrewObserved::hebrew_since))]
fn date_since<O: Oracle>(
    oracle: &mut O,
    day: i64,
    first: i64,
    year: i64,
    nisan: i64,
) -> Result<HebrewDate, Stop>
    requires day { IsCalendarDay day }
    requires first { IsFactValue first }
    requires year { IsCalendarYear year }
    requires nisan { IsFactValue nisan }
    ensures date { AsksAs fields_of_date O.Oracle (spec.hebrew_since day first year nisan)
        oracle.old oracle.new result }
{
    if day < nisan {
        date_in_year(oracle, day, first, year - 1)
    } else {
        Ok(date_by(day, first, year, nisan))
    }
}

// Dates are told of days from 400 on, so that the Gregorian year before the day's is 1 or more.
/// The Gregorian year of a day.
fn gregorian_year(day: i64) -> i64
    requires day { IsDateDay HebrewObserved day }
    ensures year { result ≡ year_of_day day }
    ensures near { IsCalendarYear result }
{
    year_of(i128::from(day))
}

/// The date of a day (R.D.): the month that begins on the first day which the oracle has for the day, counted from the first of Nisan
/// that the oracle has for the Gregorian year, or, where the day comes before that, for the year before. A month and a day that their
/// types don't hold are clamped to the nearest bounds; the year always fits. It returns early where the oracle does, at one of the
/// two or three facts that are asked (Reingold and Dershowitz, Calendrical Calculations, chapter 18; the number of the year is
/// counted by this project).
///
/// ```
/// let evaluator = Staged::new();
/// let mut oracle = Asking::new(rt.alloc(), &evaluator);
/// let date = hebrew_observed::from_fixed(&mut oracle, 738_957)?; // HebrewDate { year: 5784, month: 1, day: 1 }
/// ```
pub fn from_fixed<O: Oracle>(oracle: &mut O, day: i64) -> Result<HebrewDate, Stop>
    requires day { IsDateDay HebrewObserved day }
    ensures date { AsksAs fields_of_date O.Oracle (spec.hebrew_on day)
        oracle.old oracle.new result }
{
    let first = oracle.ask(month_fact_on(day))?;
    let year = gregorian_year(day);
    let nisan = oracle.ask(nisan_fact(year))?;
    date_since(oracle, day, first, year, nisan)
}

/// The Gregorian year in which Nisan came last, by year and month.
fn nisan_year(year: i64, month: i64) -> i64
    requires from { negsuc 9998 ≤ℤ year }
    requires to { year ≤ℤ pos 9999 }
    ensures year { result ≡ year -ℤ spec.years_ahead month }
    ensures near { IsNisanYear result }
{
    year - years_ahead(month)
}

/// The day of a month by its first day.
fn day_by(first: i64, day: i64) -> i64
    requires value { IsFactValue first }
    requires from_first_day { pos 1 ≤ℤ day }
    requires to_last_day { day ≤ℤ pos 30 }
    ensures day { result ≡ first +ℤ day -ℤ pos 1 }
{
    first + day - 1
}

/// The day (R.D.) of a date: the first day of the month which the oracle has, asked of a day about the month's middle, which is counted
/// from the first of Nisan that the oracle has, and the day of the month. The date needn't be one that the calendar has. It returns
/// early where the oracle does, at one of the two facts that are asked (Reingold and Dershowitz, Calendrical Calculations, chapter 18).
///
/// ```
/// let evaluator = Staged::new();
/// let mut oracle = Asking::new(rt.alloc(), &evaluator);
/// let date = HebrewDate { year: 5784, month: 1, day: 1 };
/// let day = hebrew_observed::to_fixed(&mut oracle, date)?; // 738_957, which is 12 March 2024
/// ```
pub fn to_fixed<O: Oracle>(oracle: &mut O, date: HebrewDate) -> Result<i64, Stop>
    requires askable { IsAskable HebrewObserved (fields_of_date date) }
    ensures day { Asks O.Oracle (spec.hebrew_day date.year (pos date.month) (pos date.day))
        oracle.old oracle.new result }
{
    let month = i64::from(date.month);
    let nisan = oracle.ask(nisan_fact(nisan_year(i64::from(date.year), month)))?;
    let first = oracle.ask(month_fact(nisan, month))?;
    Ok(day_by(first, i64::from(date.day)))
}
