//! The first day of a Chinese year. Days are R.D.
ghost use Rattle.std.specs.Prelude.{◌≡◌, ◌≤ℤ◌, ◌+ℤ◌, ◌-ℤ◌, pos, negsuc, IfOk};
ghost use Rattle.book_model.specs.calendars.Chinese as spec;
ghost use Rattle.book_model.specs.sky.Facts.{IsFactValue};
ghost use Rattle.chinese_cal.specs.Days.{IsCountedYear, IsNearDay};
ghost use Rattle.chinese_cal.specs.Keeping.{Keeps};
ghost use Rattle.oracle_core.specs.Asking.{Asks};

use crate::asks::ask_kept;
use crate::facts::moon_after;
use crate::kept::Kept;
use crate::sui::{is_leap_sui, sui_of};
use crate::walk::is_bare;
use book_model::Sui;
use book_model::calendar_tables::{CHINESE_EPOCH, TROPICAL_YEAR};
use calendar_math::days_of;
use oracle_core::{Oracle, Stop};

/// Whether the leap month of a sui is one of its first two, given whether it has one. It returns early where the oracle does.
fn is_leap_at_start<O: Oracle>(
    oracle: &mut O,
    kept: &mut Kept,
    leap_sui: bool,
    first: i64,
    second: i64,
) -> Result<bool, Stop>
    requires kept { Keeps O.Oracle oracle.old kept.old }
    requires first_near { IsNearDay first }
    requires second_near { IsNearDay second }
    ensures early { Asks O.Oracle (spec.is_leap_at_start leap_sui first second)
        oracle.old oracle.new result }
    ensures kept { Keeps O.Oracle oracle.new kept.new }
{
    if !leap_sui {
        return Ok(false);
    }
    if is_bare(oracle, kept, first)? {
        return Ok(true);
    }
    is_bare(oracle, kept, second)
}

/// The first day of the year that begins in the sui of a day: its second month, or the one after where the leap month is one of
/// the first two. It returns early where the oracle does.
fn new_year_in_sui<O: Oracle>(oracle: &mut O, kept: &mut Kept, day: i64) -> Result<i64, Stop>
    requires kept { Keeps O.Oracle oracle.old kept.old }
    requires near { IsNearDay day }
    ensures day { Asks O.Oracle (spec.new_year_in_sui day) oracle.old oracle.new result }
    ensures value { IfOk result IsFactValue }
    ensures kept { Keeps O.Oracle oracle.new kept.new }
{
    let sui = sui_of(oracle, kept, day)?;
    let second = ask_kept(oracle, kept, moon_after(sui.first_month))?;
    let leap_sui = is_leap_sui(oracle, kept, sui)?;
    if is_leap_at_start(oracle, kept, leap_sui, sui.first_month, second)? {
        ask_kept(oracle, kept, moon_after(second))
    } else {
        Ok(second)
    }
}

/// The same, half a year before a day.
fn new_year_before<O: Oracle>(oracle: &mut O, kept: &mut Kept, day: i64) -> Result<i64, Stop>
    requires kept { Keeps O.Oracle oracle.old kept.old }
    requires day { IsFactValue day }
    ensures day { Asks O.Oracle (spec.new_year_in_sui (day -ℤ pos 180))
        oracle.old oracle.new result }
    ensures value { IfOk result IsFactValue }
    ensures kept { Keeps O.Oracle oracle.new kept.new }
{
    new_year_in_sui(oracle, kept, day - 180)
}

/// The first day of the year in which a day falls. It returns early where the oracle does.
pub(crate) fn new_year_by_day<O: Oracle>(
    oracle: &mut O,
    kept: &mut Kept,
    day: i64,
) -> Result<i64, Stop>
    requires kept { Keeps O.Oracle oracle.old kept.old }
    requires day { IsFactValue day }
    ensures day { Asks O.Oracle (spec.new_year_by_day day) oracle.old oracle.new result }
    ensures value { IfOk result IsFactValue }
    ensures kept { Keeps O.Oracle oracle.new kept.new }
{
    let new_year = new_year_in_sui(oracle, kept, day)?;
    if day < new_year {
        new_year_before(oracle, kept, day)
    } else {
        Ok(new_year)
    }
}

/// The days from the epoch to the middle of a year, which counts from 1.
fn days_to_mid_year(number: i64) -> i64
    requires number { IsCountedYear number }
    ensures days { result ≡ spec.days_to_mid_year number }
    ensures from { negsuc 3999999 ≤ℤ result }
    ensures to { result ≤ℤ pos 4000000 }
{
    days_of(TROPICAL_YEAR, 2 * number - 1, 2)
}

/// A day in the middle of a year of a cycle.
#[tactic(auto, unfolding(book_model::specs::calendars::Chinese::mid_year_day))]
pub(crate) fn mid_year_day(cycle: i64, year: i64) -> i64
    requires from_cycle { negsuc 98 ≤ℤ cycle }
    requires to_cycle { cycle ≤ℤ pos 99 }
    requires from_year { pos 1 ≤ℤ year }
    requires to_year { year ≤ℤ pos 60 }
    ensures day { result ≡ spec.mid_year_day cycle year }
    ensures near { IsFactValue result }
{
    CHINESE_EPOCH + days_to_mid_year(60 * (cycle - 1) + year)
}
