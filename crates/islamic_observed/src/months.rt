//! The months of the Islamic calendar since its epoch, and the facts of their first days. Days are R.D.
ghost use Rattle.std.specs.Prelude.{◌≡◌, ◌≤ℤ◌, pos, negsuc};
ghost use Rattle.book_model.specs.sky.Facts.{IsFactDay, IsFactValue};
ghost use Rattle.book_model.specs.numbers.Fractions.{fraction_of};
ghost use Rattle.book_model.specs.calendars.Islamic as spec;
ghost use Rattle.book_model.specs.calendars.Spans.{days_of as days_of_spans, ratio};
ghost use Rattle.book_model.specs.declared.calendar_tables.TheConstants.{SYNODIC_MONTH as MonthOfDays};
ghost use Rattle.islamic_observed.specs.Months.{IsMonth, IsNearMonth};

use book_model::calendar_tables::{ISLAMIC_EPOCH, SYNODIC_MONTH};
use book_model::{Fact, Kind, Place};
use calendar_math::{days_of, months_of_days};

/// The fact of the first day of the month that a day falls in.
pub(crate) fn month_fact_on(day: i64) -> Fact
    requires day { IsFactDay day }
    ensures fact { result ≡ spec.phasis_fact day }
{
    Fact::new(Kind::Phasis, Place::Cairo, day).unwrap()
}

/// The months that have passed from the epoch before the one that begins on a day.
pub(crate) fn months_before(first: i64) -> i64
    requires value { IsFactValue first }
    ensures months { result ≡ spec.months_before first }
    ensures near { IsNearMonth result }
{
    months_of_days(first - ISLAMIC_EPOCH)
}

// Halves, so that the middle of a month is a count over 2 and one function counts all spans.
/// Twice the months from the epoch to the middle of a month.
#[tactic(auto, unfolding(book_model::specs::calendars::Islamic::half_months_to))]
fn half_months_to(year: i64, month: i64) -> i64
    requires month { IsMonth year month }
    ensures halves { result ≡ spec.half_months_to year month }
    ensures low { negsuc 239999 ≤ℤ result }
    ensures high { result ≤ℤ pos 240000 }
{
    2 * (12 * (year - 1) + month) - 1
}

/// The days of so many half months, rounded down.
fn days_of_halves(halves: i64) -> i64
    requires low { negsuc 239999 ≤ℤ halves }
    requires high { halves ≤ℤ pos 240000 }
    ensures days { result ≡ days_of_spans (fraction_of MonthOfDays) (ratio halves 2) }
    ensures from { negsuc 3999999 ≤ℤ result }
    ensures to { result ≤ℤ pos 4000000 }
{
    days_of(SYNODIC_MONTH, halves, 2)
}

/// A day about the middle of a month.
#[tactic(auto, unfolding(book_model::specs::calendars::Islamic::mid_month_day))]
fn mid_month_day(year: i64, month: i64) -> i64
    requires month { IsMonth year month }
    ensures day { result ≡ spec.mid_month_day year month }
    ensures near { IsFactDay result }
{
    ISLAMIC_EPOCH + days_of_halves(half_months_to(year, month))
}

/// The fact of the first day of a month, asked of a day about its middle.
pub(crate) fn month_fact(year: i64, month: i64) -> Fact
    requires month { IsMonth year month }
    ensures fact { result ≡ spec.phasis_fact (spec.mid_month_day year month) }
{
    month_fact_on(mid_month_day(year, month))
}
