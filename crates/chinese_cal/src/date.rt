//! Chinese dates, and the date of a day. Days are R.D.
ghost use Rattle.std.specs.Prelude.{◌≡◌, ◌≤ℤ◌, ◌+ℤ◌, ◌-ℤ◌, pos, negsuc};
ghost use Rattle.book_model.specs.calendars.Chinese.{elapsed_years as years_elapsed, chinese_fields, chinese_on};
ghost use Rattle.book_model.specs.calendars.Inquiries.{to_32_bits as to_32_bits_of, to_8_bits as to_8_bits_of};
ghost use Rattle.book_model.specs.calendars.Spans.{quotient_down, amod as amod_of};
ghost use Rattle.chinese_cal.specs.Dates.{fields_of_date};
ghost use Rattle.chinese_cal.specs.Days.{AreNearYears, IsNearDay, IsNearMonth};
ghost use Rattle.chinese_cal.specs.Keeping.{Keeps};
ghost use Rattle.oracle_core.specs.Asking.{AsksAs};

use crate::kept::Kept;
use crate::months::chinese_month;
use book_model::ChineseMonth;
use book_model::calendar_tables::{CHINESE_EPOCH, TROPICAL_YEAR};
use calendar_math::{amod, quotient_before, spans_of, to_8_bits, to_32_bits};
use oracle_core::{Oracle, Stop};

/// The years of a cycle.
const CYCLE: u8 = 60;

/// A date of the Chinese calendar: the cycle of 60 years, the year in it, the month, whether it is a leap month, which has the
/// number of the month before it, and the day.
#[derive(Clone, Copy, Debug, PartialEq, Eq)]
pub struct ChineseDate {
    pub cycle: i32,
    pub year: u8,
    pub month: u8,
    pub leap: bool,
    pub day: u8,
}

/// The years since the epoch, counted from 1, in which a day of a month falls.
fn elapsed_years(day: i64, month: i64) -> i64
    requires near { IsNearDay day }
    requires from { pos 1 ≤ℤ month }
    requires to { month ≤ℤ pos 12 }
    ensures years { result ≡ years_elapsed day month }
    ensures low { negsuc 99999 ≤ℤ result }
    ensures high { result ≤ℤ pos 100000 }
{
    spans_of(TROPICAL_YEAR, day - CHINESE_EPOCH, 18 - month, 12)
}

/// The cycle of a year, which counts from 1.
fn cycle_of(years: i64) -> i32
    requires years { AreNearYears years }
    ensures cycle { result ≡ to_32_bits_of (quotient_down (years -ℤ pos 1) 60 +ℤ pos 1) }
{
    to_32_bits(quotient_before(years, CYCLE) + 1)
}

/// The number of a year in its cycle.
fn year_in_cycle(years: i64) -> u8
    requires years { AreNearYears years }
    ensures year { pos result ≡ amod_of years 60 }
{
    amod(years, CYCLE) as u8
}

/// The number of a month.
fn number_of(month: ChineseMonth) -> u8
    requires near { IsNearMonth month }
    ensures number { pos result ≡ month.number }
{
    month.number as u8
}

/// The day of the month that begins on a day, or the nearest bound.
fn day_of_month(day: i64, first: i64) -> u8
    requires near { IsNearDay day }
    requires first_near { IsNearDay first }
    ensures day { pos result ≡ to_8_bits_of (day -ℤ first +ℤ pos 1) }
{
    to_8_bits(day - first + 1)
}

/// The date of a day by its month and the years since the epoch.
fn date_from_month(day: i64, month: ChineseMonth, years: i64) -> ChineseDate
    requires near { IsNearDay day }
    requires month_near { IsNearMonth month }
    requires years { AreNearYears years }
    ensures date { fields_of_date result ≡ chinese_fields day month years }
{
    ChineseDate {
        cycle: cycle_of(years),
        year: year_in_cycle(years),
        month: number_of(month),
        leap: month.is_leap,
        day: day_of_month(day, month.first_day),
    }
}

/// The date of a day, beside what is cached. It returns early where the oracle does.
pub(crate) fn date_from_facts<O: Oracle>(
    oracle: &mut O,
    kept: &mut Kept,
    day: i64,
) -> Result<ChineseDate, Stop>
    requires kept { Keeps O.Oracle oracle.old kept.old }
    requires near { IsNearDay day }
    ensures date { AsksAs fields_of_date O.Oracle (chinese_on day) oracle.old oracle.new result }
    ensures kept { Keeps O.Oracle oracle.new kept.new }
{
    let month = chinese_month(oracle, kept, day)?;
    let years = elapsed_years(day, month.number);
    Ok(date_from_month(day, month, years))
}

// It asks for any day within 11,000,000 of 0, since the rule for the day of a date takes the date
// of a day that is the value of a fact.
/// The date of a day (R.D.): the month that begins with the last new moon before the day ends in Beijing, numbered from the
/// winter solstice of its sui, whose month is the eleventh; in a sui with thirteen months the first without a major solar term
/// is a leap month. Cycle and year follow from the mean years since the epoch. A day of the month that its type doesn't hold
/// is clamped to the nearest bound; the other fields always fit. It returns early where the oracle does, at one of the facts
/// that the rules ask, of which it asks none twice (Reingold and Dershowitz, Calendrical Calculations, chapter 19).
///
/// ```
/// let evaluator = Staged::new();
/// let mut oracle = Asking::new(rt.alloc(), &evaluator);
/// let date = chinese_cal::from_fixed(&mut oracle, 740_018)?;
/// // ChineseDate { cycle: 78, year: 44, month: 1, leap: false, day: 1 }
/// ```
#[tactic(auto, using(crate::proofs::KeptLemmas::empty_kept))]
pub fn from_fixed<O: Oracle>(oracle: &mut O, day: i64) -> Result<ChineseDate, Stop>
    requires near { IsNearDay day }
    ensures date { AsksAs fields_of_date O.Oracle (chinese_on day) oracle.old oracle.new result }
{
    date_from_facts(oracle, &mut Kept::new(), day)
}
