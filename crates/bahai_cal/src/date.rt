//! Bahá'í dates, and the facts that they are found by. Days are R.D.
ghost use Rattle.std.specs.Prelude.{◌≡◌, ◌≤◌, ◌≤ℤ◌, ◌+ℤ◌, ◌-ℤ◌, ◌*ℤ◌, pos, negsuc};
ghost use Rattle.book_model.specs.calendars.Bahai as spec;
ghost use Rattle.book_model.specs.calendars.Dates.{IsAskable, IsDateDay};
ghost use Rattle.book_model.specs.declared.calendar.Calendar.TheVariants.{Bahai};
ghost use Rattle.book_model.specs.sky.Facts.{IsFactDay, IsFactValue};
ghost use Rattle.book_model.specs.calendars.Inquiries.{to_32_bits as to_32_bits_of};
ghost use Rattle.book_model.specs.calendars.Spans.{quotient_down, modulo as modulo_of};
ghost use Rattle.bahai_cal.specs.Dates.{fields_of_date};
ghost use Rattle.bahai_cal.specs.Years.{IsCountedYear, IsMonthStart, IsNearMonth, IsNearYear};
ghost use Rattle.oracle_core.specs.Asking.{Asks, AsksAs};
ghost use Rattle.calendar_math.specs.Days.{IsCalendarDay};

use crate::months::{month_on, month_start};
use crate::years::{next_year_fact, same_year_fact, year_fact_after, year_fact_on, years_before};
use book_model::{BahaiMonth, MonthStart};
use calendar_math::{modulo, quotient, to_8_bits, to_32_bits};
use oracle_core::{Oracle, Stop};

/// A date of the Bahá'í calendar: the major cycle of 361 years, the cycle of 19 years in it, the year in that, the month, which
/// is 0 for Ayyám-i-Há, and the day.
#[derive(Clone, Copy, Debug, PartialEq, Eq)]
pub struct BahaiDate {
    pub major: i32,
    pub cycle: u8,
    pub year: u8,
    pub month: u8,
    pub day: u8,
}

/// The major cycle, where so many years have passed.
fn major_after(passed: i64) -> i32
    requires near { IsNearYear passed }
    ensures major { result ≡ to_32_bits_of (quotient_down passed 361 +ℤ pos 1) }
{
    to_32_bits(quotient(passed, 361) + 1)
}

/// The cycle, by the years that have passed of its major cycle.
fn cycle_of(left: i64) -> u8
    requires from { pos 0 ≤ℤ left }
    requires to { left ≤ℤ pos 360 }
    ensures cycle { pos result ≡ quotient_down left 19 +ℤ pos 1 }
{
    (quotient(left, 19) + 1) as u8
}

/// The cycle, where so many years have passed.
fn cycle_after(passed: i64) -> u8
    requires near { IsNearYear passed }
    ensures cycle { pos result ≡ quotient_down (modulo_of passed 361) 19 +ℤ pos 1 }
{
    cycle_of(modulo(passed, 361))
}

/// The year of its cycle, where so many years have passed.
fn year_after(passed: i64) -> u8
    requires near { IsNearYear passed }
    ensures year { pos result ≡ modulo_of passed 19 +ℤ pos 1 }
{
    (modulo(passed, 19) + 1) as u8
}

/// The day of a month, by the day on which the month begins.
fn day_of_month(day: i64, first_day: i64) -> i64
    requires day { IsCalendarDay day }
    requires near { IsFactDay first_day }
    ensures day { result ≡ day -ℤ first_day +ℤ pos 1 }
{
    day - first_day + 1
}

/// The date of a day of a month, where so many years have passed.
#[tactic(auto, unfolding(book_model::specs::calendars::Bahai::bahai_fields))]
fn date_from_month(day: i64, passed: i64, month: BahaiMonth) -> BahaiDate
    requires day { IsCalendarDay day }
    requires near { IsNearYear passed }
    requires month_near { IsNearMonth month }
    ensures date { fields_of_date result ≡ spec.bahai_fields day passed month }
{
    BahaiDate {
        major: major_after(passed),
        cycle: cycle_after(passed),
        year: year_after(passed),
        month: to_8_bits(month.number),
        day: to_8_bits(day_of_month(day, month.first_day)),
    }
}

/// The date of a day by the first day that was asked of it, that of its year and that of the next.
fn date_from_facts(day: i64, first: i64, base: i64, next: i64) -> BahaiDate
    requires day { IsCalendarDay day }
    requires first_value { IsFactValue first }
    requires base_value { IsFactValue base }
    requires next_value { IsFactValue next }
    ensures date { fields_of_date result ≡ spec.bahai_fields day (spec.years_before first)
        (spec.bahai_month day first base next) }
{
    date_from_month(day, years_before(first), month_on(day, first, base, next))
}

/// The date of a day (R.D.): the year that begins nearest to the first day which the oracle has for the day. The last month is
/// counted back from the first day of the next year, the others from that of the year, and what lies between them is
/// Ayyám-i-Há. A month or a day that its type doesn't hold is clamped to the nearest bound; the other fields always fit. It
/// returns early where the oracle does, at one of the three facts that are asked (Reingold and Dershowitz, Calendrical
/// Calculations, chapter 16).
///
/// ```
/// let evaluator = Staged::new();
/// let mut oracle = Asking::new(rt.alloc(), &evaluator);
/// let date = bahai_cal::from_fixed(&mut oracle, 739_695)?;
/// // BahaiDate { major: 1, cycle: 10, year: 12, month: 1, day: 1 }
/// ```
pub fn from_fixed<O: Oracle>(oracle: &mut O, day: i64) -> Result<BahaiDate, Stop>
    requires day { IsDateDay Bahai day }
    ensures date { AsksAs fields_of_date O.Oracle (spec.bahai_on day) oracle.old oracle.new result }
{
    let first = oracle.ask(year_fact_on(day))?;
    let next = oracle.ask(next_year_fact(first))?;
    let base = oracle.ask(same_year_fact(first))?;
    Ok(date_from_facts(day, first, base, next))
}

/// The years of the major cycles and the cycles before these.
fn years_of_cycles(major: i64, cycle: i64) -> i64
    requires major_from { negsuc 8 ≤ℤ major }
    requires major_to { major ≤ℤ pos 9 }
    requires cycle_from { pos 0 ≤ℤ cycle }
    requires cycle_to { cycle ≤ℤ pos 255 }
    ensures years { result ≡ pos 361 *ℤ (major -ℤ pos 1) +ℤ pos 19 *ℤ (cycle -ℤ pos 1) }
    ensures low { negsuc 9999 ≤ℤ result }
    ensures high { result ≤ℤ pos 10000 }
{
    361 * (major - 1) + 19 * (cycle - 1)
}

/// The number of the year of a date.
fn year_number(date: BahaiDate) -> i64
    requires major_from { negsuc 8 ≤ℤ date.major }
    requires major_to { date.major ≤ℤ pos 9 }
    ensures number { result ≡ spec.bahai_year date.major (pos date.cycle) (pos date.year) }
    ensures near { IsCountedYear result }
{
    years_of_cycles(i64::from(date.major), i64::from(date.cycle)) + i64::from(date.year)
}

/// A day of a month, by the first day of the year from which the month is counted, and the days from that to the month.
fn day_by(first: i64, days: i64, day: i64) -> i64
    requires value { IsFactValue first }
    requires days_from { negsuc 18 ≤ℤ days }
    requires days_to { days ≤ℤ pos 342 }
    requires from_first_day { pos 1 ≤ℤ day }
    requires to_last_day { day ≤ℤ pos 19 }
    ensures day { result ≡ first +ℤ days +ℤ day -ℤ pos 1 }
{
    first + days + day - 1
}

/// The day (R.D.) of a day of a month, by where the month is counted from. It returns early where the oracle does.
fn day_counted_from<O: Oracle>(oracle: &mut O, start: MonthStart, day: i64) -> Result<i64, Stop>
    requires near { IsMonthStart start }
    requires from_first_day { pos 1 ≤ℤ day }
    requires to_last_day { day ≤ℤ pos 19 }
    ensures day { Asks O.Oracle (spec.day_counted_from start day) oracle.old oracle.new result }
{
    let first = oracle.ask(year_fact_after(start.passed))?;
    Ok(day_by(first, start.days, day))
}

/// The day (R.D.) of a date: that of its month and day, counted from the first day of its year, or, in the last month, back from
/// that of the next year. The date needn't be one that the calendar has. It returns early where the oracle does, at the one fact
/// that is asked (Reingold and Dershowitz, Calendrical Calculations, chapter 16).
///
/// ```
/// let evaluator = Staged::new();
/// let mut oracle = Asking::new(rt.alloc(), &evaluator);
/// let date = BahaiDate { major: 1, cycle: 10, year: 12, month: 1, day: 1 };
/// let day = bahai_cal::to_fixed(&mut oracle, date)?; // 739_695, which is 20 March 2026
/// ```
pub fn to_fixed<O: Oracle>(oracle: &mut O, date: BahaiDate) -> Result<i64, Stop>
    requires askable { IsAskable Bahai (fields_of_date date) }
    ensures day { Asks O.Oracle (spec.bahai_day date.major (pos date.cycle) (pos date.year)
        (pos date.month) (pos date.day)) oracle.old oracle.new result }
{
    let start = month_start(year_number(date), i64::from(date.month));
    day_counted_from(oracle, start, i64::from(date.day))
}
