//! Months by the mean sun.
ghost use Rattle.std.specs.Prelude.{◌≡◌, ◌≤ℤ◌, ◌+ℤ◌, ◌-ℤ◌, ◌*ℤ◌, pos, negsuc};
ghost use Rattle.book_model.specs.numbers.Fractions.{fraction_of};
ghost use Rattle.book_model.specs.calendars.HinduSolar as spec;
ghost use Rattle.book_model.specs.calendars.Spans.{days_of as days_of_spans, ratio};
ghost use Rattle.book_model.specs.declared.calendar_tables.TheConstants.{SIDEREAL_YEAR as year_of_days};
ghost use Rattle.hindu_astro.specs.Days.{IsSunMonth};

use book_model::calendar_tables::SIDEREAL_YEAR;
use calendar_math::days_of;

/// The days of so many twelfths of the mean sidereal year, rounded down.
fn days_of_twelfths(twelfths: i64) -> i64
    requires low { negsuc 119999 ≤ℤ twelfths }
    requires high { twelfths ≤ℤ pos 170000 }
    ensures days { result ≡ days_of_spans (fraction_of year_of_days) (ratio twelfths 12) }
    ensures from { negsuc 3999999 ≤ℤ result }
    ensures to { result ≤ℤ pos 6000000 }
{
    days_of(SIDEREAL_YEAR, twelfths, 12)
}

/// The twelfths of years from the epoch to the beginning of a month of a year of an era.
fn twelfths_to(era: i64, year: i64, month: i64) -> i64
    requires era_from { pos 0 ≤ℤ era }
    requires era_to { era ≤ℤ pos 4000 }
    requires month { IsSunMonth year month }
    ensures twelfths { result ≡ pos 12 *ℤ (year +ℤ era) +ℤ month -ℤ pos 1 }
    ensures low { negsuc 119999 ≤ℤ result }
    ensures high { result ≤ℤ pos 170000 }
{
    12 * (year + era) + month - 1
}

/// The days from the epoch to the beginning of a month of a year of an era.
#[tactic(auto, unfolding(book_model::specs::calendars::HinduSolar::days_to_month))]
pub(crate) fn days_to_month(era: i64, year: i64, month: i64) -> i64
    requires era_from { pos 0 ≤ℤ era }
    requires era_to { era ≤ℤ pos 4000 }
    requires month { IsSunMonth year month }
    ensures days { result ≡ spec.days_to_month era year month }
    ensures from { negsuc 3999999 ≤ℤ result }
    ensures to { result ≤ℤ pos 6000000 }
{
    days_of_twelfths(twelfths_to(era, year, month))
}
