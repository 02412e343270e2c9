//! The years of the Bahá'í calendar since its epoch, and the facts of their first days. Days are R.D.
ghost use Rattle.std.specs.Prelude.{◌≡◌, ◌≤ℤ◌, ◌+ℤ◌, pos, negsuc};
ghost use Rattle.book_model.specs.calendars.Bahai as spec;
ghost use Rattle.book_model.specs.sky.Facts.{IsFactDay, IsFactValue};
ghost use Rattle.bahai_cal.specs.Years.{IsNearYear};

use book_model::calendar_tables::{BAHAI_EPOCH, TROPICAL_YEAR};
use book_model::{Fact, Kind, Place};
use calendar_math::{days_of, years_of_days};

/// The fact of the first day of the Bahá'í year that a day falls in.
pub(crate) fn year_fact_on(day: i64) -> Fact
    requires day { IsFactDay day }
    ensures fact { result ≡ spec.bahai_fact day }
{
    Fact::new(Kind::BahaiYear, Place::None, day).unwrap()
}

/// The years that have passed before the one that begins on a day.
pub(crate) fn years_before(first: i64) -> i64
    requires value { IsFactValue first }
    ensures years { result ≡ spec.years_before first }
    ensures low { negsuc 29999 ≤ℤ result }
    ensures high { result ≤ℤ pos 30000 }
{
    years_of_days(first - BAHAI_EPOCH)
}

/// The days from the epoch to the middle of the year before which so many have passed.
fn days_to_mid_year(passed: i64) -> i64
    requires near { IsNearYear passed }
    ensures days { result ≡ spec.days_to_mid_year passed }
    ensures low { negsuc 19999999 ≤ℤ result }
    ensures high { result ≤ℤ pos 20000000 }
{
    days_of(TROPICAL_YEAR, 2 * passed + 1, 2)
}

/// A day in the middle of the year before which so many have passed since the epoch.
#[tactic(auto, unfolding(book_model::specs::calendars::Bahai::mid_year_after))]
fn mid_year_after(passed: i64) -> i64
    requires near { IsNearYear passed }
    ensures day { result ≡ spec.mid_year_after passed }
    ensures near { IsFactDay result }
{
    BAHAI_EPOCH + days_to_mid_year(passed)
}

/// The fact of the first day of the year before which so many have passed.
pub(crate) fn year_fact_after(passed: i64) -> Fact
    requires near { IsNearYear passed }
    ensures fact { result ≡ spec.bahai_fact (spec.mid_year_after passed) }
{
    year_fact_on(mid_year_after(passed))
}

/// The fact of the first day of the year after the one that begins on a day.
pub(crate) fn next_year_fact(first: i64) -> Fact
    requires value { IsFactValue first }
    ensures fact { result ≡ spec.bahai_fact
        (spec.mid_year_after (spec.years_before first +ℤ pos 1)) }
{
    year_fact_after(years_before(first) + 1)
}

/// The fact of the first day of the year that begins on a day, asked of a day in its middle.
pub(crate) fn same_year_fact(first: i64) -> Fact
    requires value { IsFactValue first }
    ensures fact { result ≡ spec.bahai_fact (spec.mid_year_after (spec.years_before first)) }
{
    year_fact_after(years_before(first))
}
