//! The month in which a day falls. Days are R.D.
ghost use Rattle.std.specs.Prelude.{◌≡◌, ◌≤ℤ◌, ◌-ℤ◌, pos, negsuc, IfOk};
ghost use Rattle.book_model.specs.calendars.Chinese.{months_between, month_number as number_of_month, month_by as month_with, month_in as month_of_sui, chinese_month as month_on};
ghost use Rattle.book_model.specs.calendars.Inquiries.{flag};
ghost use Rattle.book_model.specs.sky.Facts.{IsFactValue};
ghost use Rattle.chinese_cal.specs.Days.{IsNearDay, IsNearMonth, IsNearSui};
ghost use Rattle.chinese_cal.specs.Keeping.{Keeps};
ghost use Rattle.oracle_core.specs.Asking.{Asks};

use crate::asks::ask_kept;
use crate::facts::moon_until;
use crate::kept::Kept;
use crate::leap_months::{is_from_leap_month, is_leap_month};
use crate::sui::{is_leap_sui, months_from_to, sui_of};
use book_model::{ChineseMonth, Sui};
use calendar_math::amod;
use oracle_core::{Oracle, Stop};

/// How many months are left out of the count.
fn months_left_out(from_leap: bool) -> i64
    ensures count { result ≡ flag from_leap }
    ensures from { pos 0 ≤ℤ result }
    ensures to { result ≤ℤ pos 1 }
{
    i64::from(from_leap)
}

/// The months from the first month of a sui on, the leap month left out.
fn months_counted(first: i64, month: i64, from_leap: bool) -> i64
    requires first_near { IsNearDay first }
    requires near { IsNearDay month }
    ensures count { result ≡ months_between first month -ℤ flag from_leap }
    ensures low { negsuc 1000000 ≤ℤ result }
    ensures high { result ≤ℤ pos 1000000 }
{
    months_from_to(first, month) - months_left_out(from_leap)
}

/// The number of a month, from the first month of its sui, which is the twelfth of a year, and whether it comes after the leap
/// month or is it.
#[tactic(auto, unfolding(book_model::specs::calendars::Chinese::month_number))]
fn month_number(first: i64, month: i64, from_leap: bool) -> i64
    requires first_near { IsNearDay first }
    requires near { IsNearDay month }
    ensures number { result ≡ number_of_month first month from_leap }
    ensures from { pos 1 ≤ℤ result }
    ensures to { result ≤ℤ pos 12 }
{
    amod(months_counted(first, month, from_leap), 12)
}

/// A month by the first month of its sui, whether it comes after the leap month or is it, and whether it is it.
#[tactic(auto, unfolding(book_model::specs::calendars::Chinese::month_by))]
fn month_by(first: i64, month: i64, from_leap: bool, is_leap: bool) -> ChineseMonth
    requires first_near { IsNearDay first }
    requires near { IsFactValue month }
    ensures month { result ≡ month_with first month from_leap is_leap }
    ensures near { IsNearMonth result }
{
    ChineseMonth {
        first_day: month,
        number: month_number(first, month, from_leap),
        is_leap,
    }
}

/// A month of a sui, given whether the sui has a leap month. It returns early where the oracle does.
fn month_in<O: Oracle>(
    oracle: &mut O,
    kept: &mut Kept,
    sui: Sui,
    leap_sui: bool,
    month: i64,
) -> Result<ChineseMonth, Stop>
    requires kept { Keeps O.Oracle oracle.old kept.old }
    requires sui_near { IsNearSui sui }
    requires near { IsFactValue month }
    ensures month { Asks O.Oracle (month_of_sui sui leap_sui month) oracle.old oracle.new result }
    ensures near { IfOk result IsNearMonth }
    ensures kept { Keeps O.Oracle oracle.new kept.new }
{
    let from_leap = is_from_leap_month(oracle, kept, leap_sui, sui.first_month, month)?;
    let is_leap = is_leap_month(oracle, kept, leap_sui, sui.first_month, month)?;
    Ok(month_by(sui.first_month, month, from_leap, is_leap))
}

/// The month in which a day falls. It returns early where the oracle does.
pub(crate) fn chinese_month<O: Oracle>(
    oracle: &mut O,
    kept: &mut Kept,
    day: i64,
) -> Result<ChineseMonth, Stop>
    requires kept { Keeps O.Oracle oracle.old kept.old }
    requires near { IsNearDay day }
    ensures month { Asks O.Oracle (month_on day) oracle.old oracle.new result }
    ensures near { IfOk result IsNearMonth }
    ensures kept { Keeps O.Oracle oracle.new kept.new }
{
    let sui = sui_of(oracle, kept, day)?;
    let leap_sui = is_leap_sui(oracle, kept, sui)?;
    let month = ask_kept(oracle, kept, moon_until(day))?;
    month_in(oracle, kept, sui, leap_sui, month)
}
