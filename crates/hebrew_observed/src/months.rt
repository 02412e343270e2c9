//! The months of the Hebrew calendar by observation, and the facts of their first days. Days are R.D.
ghost use Rattle.std.specs.Prelude.{◌≡◌, ◌≤ℤ◌, pos};
ghost use Rattle.book_model.specs.calendars.HebrewObserved as spec;
ghost use Rattle.book_model.specs.sky.Facts.{IsFactDay, IsFactValue};
ghost use Rattle.hebrew_observed.specs.Months.{IsMonth, IsNearMonth, IsNisanYear, IsIntervalOfDays};

use book_model::calendar_tables::OBSERVED_MONTH;
use book_model::{Fact, Kind, Place};
use calendar_math::{quotient, spans_of};
use civil_core::first_of_january;

/// The fact of the first day of the month that a day falls in.
pub(crate) fn month_fact_on(day: i64) -> Fact
    requires day { IsFactDay day }
    ensures fact { result ≡ spec.month_fact day }
{
    Fact::new(Kind::Phasis, Place::Haifa, day).unwrap()
}

/// The fact of the first day of Nisan in a Gregorian year.
pub(crate) fn nisan_fact(year: i64) -> Fact
    requires year { IsNisanYear year }
    ensures fact { result ≡ spec.nisan_fact year }
{
    Fact::new(Kind::Nisan, Place::Haifa, first_of_january(year)).unwrap()
}

/// How many months, to the nearest, so many days are.
#[tactic(auto, unfolding(book_model::specs::calendars::HebrewObserved::observed_months_of))]
fn months_of(days: i64) -> i64
    requires days { IsIntervalOfDays days }
    ensures months { result ≡ spec.observed_months_of days }
    ensures near { IsNearMonth result }
{
    spans_of(OBSERVED_MONTH, days, 1, 2)
}

/// The number, from 1, of the month that begins so many days after the first of Nisan.
pub(crate) fn month_begun(days: i64) -> i64
    requires days { IsIntervalOfDays days }
    ensures month { result ≡ spec.month_begun days }
{
    months_of(days) + 1
}

// The nearest by a quotient by 2, which is the same number: the half of a whole number is never a
// quarter off.
/// The days of so many months of a year, to the nearest.
#[tactic(auto, unfolding(book_model::specs::calendars::HebrewObserved::days_of_observed_months))]
fn days_of_months(months: i64) -> i64
    requires from { pos 0 ≤ℤ months }
    requires to { months ≤ℤ pos 12 }
    ensures days { result ≡ spec.days_of_observed_months months }
    ensures from_first { pos 0 ≤ℤ result }
    ensures to_last { result ≤ℤ pos 400 }
{
    quotient(59 * months + 1, 2)
}

/// A day about the middle of a month, by the first day of Nisan.
#[tactic(auto, unfolding(book_model::specs::calendars::HebrewObserved::mid_month_day))]
fn mid_month_day(nisan: i64, month: i64) -> i64
    requires value { IsFactValue nisan }
    requires month { IsMonth month }
    ensures day { result ≡ spec.mid_month_day nisan month }
    ensures near { IsFactDay result }
{
    nisan + days_of_months(month - 1) + 15
}

/// The fact of the first day of a month, asked of a day about its middle, by the first day of Nisan.
pub(crate) fn month_fact(nisan: i64, month: i64) -> Fact
    requires value { IsFactValue nisan }
    requires month { IsMonth month }
    ensures fact { result ≡ spec.month_fact (spec.mid_month_day nisan month) }
{
    month_fact_on(mid_month_day(nisan, month))
}
