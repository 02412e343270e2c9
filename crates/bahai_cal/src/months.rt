//! The months of a Bahá'í year: nineteen of 19 days, and before the last the days of Ayyám-i-Há, which count as month 0.
//! Days are R.D.
ghost use Rattle.std.specs.Prelude.{◌≡◌, ◌≤ℤ◌, ◌+ℤ◌, ◌-ℤ◌, ◌*ℤ◌, pos, int_le};
ghost use Rattle.book_model.specs.calendars.Bahai as spec;
ghost use Rattle.book_model.specs.calendars.Spans.{quotient_down};
ghost use Rattle.book_model.specs.sky.Facts.{IsFactValue};
ghost use Rattle.bahai_cal.specs.Years.{IsCountedYear, IsMonthStart, IsNearMonth, IsNearNumber};
ghost use Rattle.calendar_math.specs.Days.{IsCalendarDay};

use book_model::{BahaiMonth, MonthStart};
use calendar_math::quotient;

/// The number of the last month.
const LAST_MONTH: i64 = 19;

/// Whether a day is in the last month, by the first day of the next year.
fn is_in_last_month(day: i64, next: i64) -> bool
    requires value { IsFactValue next }
    ensures last { result ≡ int_le (next -ℤ pos 19) day }
{
    next - 19 <= day
}

/// Whether a day is past the eighteenth month, by the first day of its year.
fn is_past_months(day: i64, base: i64) -> bool
    requires value { IsFactValue base }
    ensures past { result ≡ int_le (base +ℤ pos 342) day }
{
    base + 342 <= day
}

/// The number of the month of 19 days in which a day falls, by the first day that was asked of it.
fn number_by_days(day: i64, first: i64) -> i64
    requires day { IsCalendarDay day }
    requires value { IsFactValue first }
    ensures number { result ≡ quotient_down (day -ℤ first) 19 +ℤ pos 1 }
    ensures near { IsNearNumber result }
{
    quotient(day - first, 19) + 1
}

/// The days of a year before a month of 19 days, by its number.
fn days_before(number: i64) -> i64
    requires near { IsNearNumber number }
    ensures days { result ≡ pos 19 *ℤ (number -ℤ pos 1) }
{
    19 * (number - 1)
}

/// A month of 19 days, by its number and the first day of its year.
fn month_of_19_days(base: i64, number: i64) -> BahaiMonth
    requires value { IsFactValue base }
    requires number_near { IsNearNumber number }
    ensures month { result ≡ spec.month_of_19_days base number }
    ensures near { IsNearMonth result }
{
    BahaiMonth {
        number,
        first_day: base + days_before(number),
    }
}

// A month is found together with the day on which it begins, by one choice; the day of the month is
// what the day is past it.
/// The month of a day, by the first day that was asked of the day, that of its year and that of the next.
#[tactic(auto, unfolding(book_model::specs::calendars::Bahai::bahai_month))]
pub(crate) fn month_on(day: i64, first: i64, base: i64, next: i64) -> BahaiMonth
    requires day { IsCalendarDay day }
    requires first_value { IsFactValue first }
    requires base_value { IsFactValue base }
    requires next_value { IsFactValue next }
    ensures month { result ≡ spec.bahai_month day first base next }
    ensures near { IsNearMonth result }
{
    if is_in_last_month(day, next) {
        BahaiMonth {
            number: LAST_MONTH,
            first_day: next - 19,
        }
    } else if is_past_months(day, base) {
        BahaiMonth {
            number: 0,
            first_day: base + 342,
        }
    } else {
        month_of_19_days(base, number_by_days(day, first))
    }
}

// On the way back one choice says from where a month is counted.
/// From where a month of a year is counted: the last one back from the first day of the next year.
#[tactic(auto, unfolding(book_model::specs::calendars::Bahai::month_start))]
pub(crate) fn month_start(number: i64, month: i64) -> MonthStart
    requires number { IsCountedYear number }
    requires from_first_month { pos 0 ≤ℤ month }
    requires to_last_month { month ≤ℤ pos 19 }
    ensures start { result ≡ spec.month_start number month }
    ensures near { IsMonthStart result }
{
    if month == LAST_MONTH {
        MonthStart {
            passed: number,
            days: -19,
        }
    } else if month == 0 {
        MonthStart {
            passed: number - 1,
            days: 342,
        }
    } else {
        MonthStart {
            passed: number - 1,
            days: days_before(month),
        }
    }
}
