//! The dates of `jiff`, whose days count from 1 January 1970.
//!
//! The definitions don't speak of `jiff`: that its dates of the years from 1 on are theirs, with the same days, is
//! proved once, in this crate.
ghost use Rattle.std.specs.Prelude.{◌≡◌, ◌↔◌, ◌≤ℤ◌, ◌+ℤ◌, pos, IsTrue, IsSome, IfSome};
ghost use Rattle.civil_core.specs.Dates.{has_date};
ghost use Rattle.jiff.specs.Words.{epoch_day, IsYmd};

use jiff::ToSpan;
use jiff::civil::{Date, date};

/// The day number of 1 January 1970 (R.D.).
const EPOCH: i64 = 719_163;

/// The date of the years 1 to 9999 with these numbers, if the calendar has it.
pub(crate) fn find_date(year: i32, month: u8, day: u8) -> Option<Date>
    ensures found { IsSome result ↔ IsTrue (has_date year month day) }
    ensures named { IfSome result (IsYmd year (pos month) (pos day)) }
{
    if year < 1 {
        return None;
    }
    let year = i16::try_from(year).ok()?;
    let month = i8::try_from(month).ok()?;
    let day = i8::try_from(day).ok()?;
    Date::new(year, month, day).ok()
}

/// The day number of a date.
pub(crate) fn day_number(date: Date) -> i64
    ensures day { result ≡ epoch_day date +ℤ pos 719163 }
{
    i64::from(date.to_plain().to_unix_epoch_day()) + EPOCH
}

/// The date of a day number of the years 1 to 9999, or of the day before these.
pub(crate) fn date_on(day: i64) -> Date
    requires from { pos 0 ≤ℤ day }
    requires to { day ≤ℤ pos 3652059 }
    ensures day { epoch_day result +ℤ pos 719163 ≡ day }
{
    date(1, 1, 1).checked_add((day - 1).days()).unwrap()
}
