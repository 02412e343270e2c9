//! The day of a Chinese date. Days are R.D.
ghost use Rattle.std.specs.Prelude.{◌≡◌, ◌≤◌, ◌+ℤ◌, ◌-ℤ◌, ◌*ℤ◌, pos, IfOk};
ghost use Rattle.book_model.specs.calendars.Chinese as spec;
ghost use Rattle.book_model.specs.calendars.Dates.{IsAskable};
ghost use Rattle.book_model.specs.calendars.Inquiries.{flag};
ghost use Rattle.book_model.specs.declared.calendar.Calendar.TheVariants.{Chinese};
ghost use Rattle.book_model.specs.sky.Facts.{IsFactValue};
ghost use Rattle.chinese_cal.specs.Dates.{fields_of_date};
ghost use Rattle.chinese_cal.specs.Keeping.{Keeps};
ghost use Rattle.oracle_core.specs.Asking.{Asks};

use crate::asks::ask_kept;
use crate::date::{ChineseDate, date_from_facts};
use crate::facts::{moon_after, moon_from};
use crate::kept::Kept;
use crate::years::{mid_year_day, new_year_by_day};
use book_model::Fact;
use oracle_core::{Oracle, Stop};

/// The fact of the first new moon from the earliest day on that a month of a year may begin on.
fn moon_of_month(new_year: i64, month: u8) -> Fact
    requires value { IsFactValue new_year }
    requires from { 1 ≤ month }
    requires to { month ≤ 12 }
    ensures fact { result ≡ spec.moon_from_fact (new_year +ℤ pos 29 *ℤ (pos month -ℤ pos 1)) }
{
    moon_from(new_year + 29 * (i64::from(month) - 1))
}

/// Whether a date has this month, which is a leap month or isn't.
fn has_month(date: ChineseDate, month: u8, leap: bool) -> bool
    ensures same { result ≡ spec.has_month (pos month) (flag leap) (fields_of_date date) }
{
    date.month == month && date.leap == leap
}

/// The first day of a month of a year. It returns early where the oracle does.
fn month_beginning<O: Oracle>(
    oracle: &mut O,
    kept: &mut Kept,
    new_year: i64,
    month: u8,
    leap: bool,
) -> Result<i64, Stop>
    requires kept { Keeps O.Oracle oracle.old kept.old }
    requires new_year_value { IsFactValue new_year }
    requires from { 1 ≤ month }
    requires to { month ≤ 12 }
    ensures day { Asks O.Oracle (spec.month_beginning new_year (pos month) (flag leap))
        oracle.old oracle.new result }
    ensures value { IfOk result IsFactValue }
    ensures kept { Keeps O.Oracle oracle.new kept.new }
{
    let first = ask_kept(oracle, kept, moon_of_month(new_year, month))?;
    let date = date_from_facts(oracle, kept, first)?;
    if has_month(date, month, leap) {
        Ok(first)
    } else {
        ask_kept(oracle, kept, moon_after(first))
    }
}

/// A day of the month that begins on a day.
fn day_by(first: i64, day: u8) -> i64
    requires value { IsFactValue first }
    ensures day { result ≡ first +ℤ pos day -ℤ pos 1 }
{
    first + i64::from(day) - 1
}

/// The day (R.D.) of a date: the first new moon 29 days for each month before it after the new year, or the one after that
/// where the first is in another month, and the day of the month. The date needn't be one that the calendar has. It
/// returns early where the oracle does, at one of the facts that the rules ask, of which it asks none twice (Reingold and
/// Dershowitz, Calendrical Calculations, chapter 19).
///
/// ```
/// let evaluator = Staged::new();
/// let mut oracle = Asking::new(rt.alloc(), &evaluator);
/// let date = ChineseDate { cycle: 78, year: 44, month: 1, leap: false, day: 1 };
/// let day = chinese_cal::to_fixed(&mut oracle, date)?; // 740_018, which is 6 February 2027
/// ```
pub fn to_fixed<O: Oracle>(oracle: &mut O, date: ChineseDate) -> Result<i64, Stop>
    requires askable { IsAskable Chinese (fields_of_date date) }
    ensures day { Asks O.Oracle (spec.chinese_day date.cycle (pos date.year) (pos date.month)
        (flag date.leap) (pos date.day)) oracle.old oracle.new result }
{
    let mut kept = Kept::new();
    let middle = mid_year_day(i64::from(date.cycle), i64::from(date.year));
    let new_year = new_year_by_day(oracle, &mut kept, middle)?;
    let first = month_beginning(oracle, &mut kept, new_year, date.month, date.leap)?;
    Ok(day_by(first, date.day))
}
