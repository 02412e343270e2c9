//! The months of a Persian year: six of 31 days, and those after them of 30.
ghost use Rattle.std.specs.Prelude.{◌≡◌};
ghost use Rattle.book_model.specs.calendars.Persian.{days_before_month, month_of_number as number_of_month};
ghost use Rattle.book_model.specs.sky.Facts.{IsFactValue};
ghost use Rattle.persian_cal.specs.Days.{IsDayNumber};

use calendar_math::quotient_up;

/// The days of the year that the first six months have.
const DAYS_OF_SIX_MONTHS: i64 = 186;

/// The days of a year before a month.
pub(crate) fn days_before(month: i64) -> i64
    requires month { IsFactValue month }
    ensures days { result ≡ days_before_month month }
{
    if month <= 7 {
        31 * (month - 1)
    } else {
        30 * (month - 1) + 6
    }
}

/// The month of a day by its number in the year, which counts from 1.
pub(crate) fn month_of_number(number: i64) -> i64
    requires number { IsDayNumber number }
    ensures month { result ≡ number_of_month number }
{
    if number <= DAYS_OF_SIX_MONTHS {
        quotient_up(number, 31)
    } else {
        quotient_up(number - 6, 30)
    }
}
