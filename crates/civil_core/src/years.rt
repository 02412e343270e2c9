//! The year of a day, and the first of January and of July of a year.
ghost use Rattle.std.specs.Prelude.{◌≡◌, ◌^◌, pos, negsuc, neg_ℤ, ◌+ℤ◌, ◌≤ℤ◌, unsigned_abs};
ghost use Rattle.book_model.specs.calendars.Gregorian.{first_day, fixed_of, leap_days, year_of_day};
ghost use Rattle.jiff.specs.Words.{epoch_day};

use crate::jiff_date::{date_on, day_number};
use int_division::{floor_div, quotient};
use jiff::civil::{Date, date};

/// The days of 400 years, after which the calendar repeats itself.
const DAYS_OF_400_YEARS: i128 = 146_097;

/// The year of a date is that of its day.
fn year_of_date(date: Date) -> i64
    ensures year { result ≡ year_of_day (epoch_day date +ℤ pos 719163) }
    ensures from { negsuc 9998 ≤ℤ result }
    ensures to { result ≤ℤ pos 9999 }
{
    i64::from(date.year())
}

// The bounds of an enclosure may lie far outside the years of `jiff`: hence the calendar's own
// repetition.
/// The Gregorian year of a day number (R.D.), of 2⁷¹ days before and after day 0, as if the calendar had always been: that of
/// the date as many times 400 years away as lies within the years 0 to 400.
pub fn year_of(day: i128) -> i64
    requires from { neg_ℤ (pos (2 ^ 71)) ≤ℤ day }
    requires to { day ≤ℤ pos (2 ^ 71) }
    ensures year { result ≡ year_of_day day }
{
    let times = floor_div(day, DAYS_OF_400_YEARS);
    let rest = day - times * DAYS_OF_400_YEARS;
    times as i64 * 400 + year_of_date(date_on(rest as i64))
}

/// How many leap days the years from the first to a year have, or, less than none, those from the next year to the first.
fn leap_days_to(year: i64) -> i64
    requires from { negsuc 20000 ≤ℤ year }
    requires to { year ≤ℤ pos 20000 }
    ensures days { result ≡ leap_days year }
    ensures near_from { negsuc 9999 ≤ℤ result }
    ensures near_to { result ≤ℤ pos 10000 }
{
    quotient(year, 4) - quotient(year, 100) + quotient(year, 400)
}

// Years below 0 too: a field of a date is read less its sign, so a Hebrew date of any year may be
// asked, and its Nisan is asked like any other.
/// The day number (R.D.) of 1 January of a year from -20,000 to 20,000, as if the calendar had always been.
#[tactic(auto, unfolding(book_model::specs::calendars::Gregorian::first_day))]
pub fn first_of_january(year: i64) -> i64
    requires from { negsuc 19999 ≤ℤ year }
    requires to { year ≤ℤ pos 20000 }
    ensures day { result ≡ first_day year }
    ensures near_from { negsuc 9999999 ≤ℤ result }
    ensures near_to { result ≤ℤ pos 10000000 }
{
    365 * (year - 1) + leap_days_to(year - 1) + 1
}

/// The day number (R.D.) of 1 July of a year from 1 to 9999.
pub fn first_of_july(year: i64) -> i64
    requires from { pos 1 ≤ℤ year }
    requires to { year ≤ℤ pos 9999 }
    ensures day { result ≡ fixed_of (unsigned_abs year) 7 1 }
    ensures near_from { negsuc 9999999 ≤ℤ result }
    ensures near_to { result ≤ℤ pos 10000000 }
{
    day_number(date(year as i16, 7, 1))
}
