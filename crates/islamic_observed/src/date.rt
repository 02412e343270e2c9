//! Islamic dates, and the facts that they are found by. Days are R.D.
ghost use Rattle.std.specs.Prelude.{◌≡◌, ◌≤◌, ◌≤ℤ◌, ◌+ℤ◌, ◌-ℤ◌, pos};
ghost use Rattle.book_model.specs.calendars.Dates.{IsAskable, IsDateDay};
ghost use Rattle.book_model.specs.declared.calendar.Calendar.TheVariants.{Islamic};
ghost use Rattle.book_model.specs.sky.Facts.{IsFactValue};
ghost use Rattle.book_model.specs.calendars.Inquiries.{to_32_bits as to_32_bits_of};
ghost use Rattle.book_model.specs.calendars.Islamic as spec;
ghost use Rattle.book_model.specs.calendars.Spans.{quotient_down, modulo as modulo_of};
ghost use Rattle.islamic_observed.specs.Dates.{fields_of_date};
ghost use Rattle.islamic_observed.specs.Months.{IsNearMonth};
ghost use Rattle.oracle_core.specs.Asking.{Asks, AsksAs};
ghost use Rattle.calendar_math.specs.Days.{IsCalendarDay};

use crate::months::{month_fact, month_fact_on, months_before};
use calendar_math::{modulo, quotient, to_8_bits, to_32_bits};
use oracle_core::{Oracle, Stop};

/// A date of the Islamic calendar.
#[derive(Clone, Copy, Debug, PartialEq, Eq)]
pub struct IslamicDate {
    pub year: i32,
    pub month: u8,
    pub day: u8,
}

/// The year, where so many months have passed.
fn year_after(passed: i64) -> i32
    requires near { IsNearMonth passed }
    ensures year { result ≡ to_32_bits_of (quotient_down passed 12 +ℤ pos 1) }
{
    to_32_bits(quotient(passed, 12) + 1)
}

/// The month of its year, where so many months have passed.
fn month_after(passed: i64) -> u8
    requires near { IsNearMonth passed }
    ensures month { pos result ≡ modulo_of passed 12 +ℤ pos 1 }
{
    (modulo(passed, 12) + 1) as u8
}

/// The date, where so many months have passed.
#[tactic(auto, unfolding(book_model::specs::calendars::Islamic::islamic_fields))]
fn date_from_month(passed: i64, day: i64) -> IslamicDate
    requires near { IsNearMonth passed }
    ensures date { fields_of_date result ≡ spec.islamic_fields passed day }
{
    IslamicDate {
        year: year_after(passed),
        month: month_after(passed),
        day: to_8_bits(day),
    }
}

/// The day of the month, by the first day of it.
fn day_of_month(day: i64, first: i64) -> i64
    requires day { IsCalendarDay day }
    requires value { IsFactValue first }
    ensures day { result ≡ day -ℤ first +ℤ pos 1 }
{
    day - first + 1
}

/// The date of a day by the first day of its month.
fn date_from_facts(day: i64, first: i64) -> IslamicDate
    requires day { IsCalendarDay day }
    requires value { IsFactValue first }
    ensures date { fields_of_date result ≡ spec.islamic_fields (spec.months_before first)
        (day -ℤ first +ℤ pos 1) }
{
    date_from_month(months_before(first), day_of_month(day, first))
}

/// The date of a day (R.D.): the month that begins on the first day which the oracle has for the day, the months counted from the
/// epoch. A day that its type doesn't hold is clamped to the nearest bound; the other fields always fit. It returns early where
/// the oracle does, at the one fact that is asked (Reingold and Dershowitz, Calendrical Calculations, chapter 18).
///
/// ```
/// let evaluator = Staged::new();
/// let mut oracle = Asking::new(rt.alloc(), &evaluator);
/// let date = islamic_observed::from_fixed(&mut oracle, 738_957)?; // IslamicDate { year: 1445, month: 9, day: 1 }
/// ```
pub fn from_fixed<O: Oracle>(oracle: &mut O, day: i64) -> Result<IslamicDate, Stop>
    requires day { IsDateDay Islamic day }
    ensures date { AsksAs fields_of_date O.Oracle (spec.islamic_on day)
        oracle.old oracle.new result }
{
    let first = oracle.ask(month_fact_on(day))?;
    Ok(date_from_facts(day, first))
}

/// The day of a month by its first day.
fn day_by(first: i64, day: i64) -> i64
    requires value { IsFactValue first }
    requires from_first_day { pos 1 ≤ℤ day }
    requires to_last_day { day ≤ℤ pos 30 }
    ensures day { result ≡ first +ℤ day -ℤ pos 1 }
{
    first + day - 1
}

/// The day (R.D.) of a date: the first day of the month which the oracle has, asked of a day about the month's middle, and the day
/// of the month. The date needn't be one that the calendar has. It returns early where the oracle does, at the one fact that is
/// asked (Reingold and Dershowitz, Calendrical Calculations, chapter 18).
///
/// ```
/// let evaluator = Staged::new();
/// let mut oracle = Asking::new(rt.alloc(), &evaluator);
/// let date = IslamicDate { year: 1445, month: 9, day: 1 };
/// let day = islamic_observed::to_fixed(&mut oracle, date)?; // 738_957, which is 12 March 2024
/// ```
pub fn to_fixed<O: Oracle>(oracle: &mut O, date: IslamicDate) -> Result<i64, Stop>
    requires askable { IsAskable Islamic (fields_of_date date) }
    ensures day { Asks O.Oracle (spec.islamic_day date.year (pos date.month) (pos date.day))
        oracle.old oracle.new result }
{
    let first = oracle.ask(month_fact(i64::from(date.year), i64::from(date.month)))?;
    Ok(day_by(first, i64::from(date.day)))
}
