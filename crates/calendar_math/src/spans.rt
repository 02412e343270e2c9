//! Spans, as a year or a month, and their days. A span's length is an exact fraction, from one day to a thousand.
//!
//! Two functions serve all: a count is a number over another, so that half years, twelfths and half months need no
//! function more, and to the nearest is with a half more. Counts of up to 100,000,000 are asked for, so that products
//! with the parts of a span fit.
ghost use Rattle.std.specs.Prelude.{◌≡◌, ◌<◌, ◌≤◌, ◌^◌, pos, negsuc, ◌≤ℤ◌, ◌*ℤ◌};
ghost use Rattle.book_model.specs.numbers.Fractions.{fraction_of};
ghost use Rattle.book_model.specs.calendars.Spans.{quotient_down, ratio, days_of as days_of_spans, spans_of as spans_of_days, days_of_years as days_of_tropical_years, months_of_days as synodic_months_of, years_of_days as tropical_years_of};
ghost use Rattle.int_division.specs.Counts.{IsCount};
ghost use Rattle.calendar_math.specs.Days.{IsSpan, IsSpanCount};

use book_model::Frac;
use book_model::calendar_tables::{SYNODIC_MONTH, TROPICAL_YEAR};
use int_division::wide_quotient;

/// The greatest whole number that isn't above a quotient from -100,000,000,000 to 100,000,000,000.
fn quotient_within(number: i128, divisor: u64) -> i64
    requires positive { 0 < divisor }
    requires low { (negsuc 99999999999 *ℤ pos divisor) ≤ℤ number }
    requires high { number ≤ℤ (pos 100000000000 *ℤ pos divisor) }
    ensures quotient { result ≡ quotient_down number divisor }
{
    wide_quotient(number, divisor) as i64
}

/// The numerator of a span.
fn parts_of(span: Frac) -> u64
    requires span { IsSpan span }
    ensures parts { pos result ≡ span.num }
{
    span.num() as u64
}

/// A count times a number of parts.
fn product(count: i64, parts: u64) -> i128
    requires count { IsSpanCount count }
    requires few_parts { parts ≤ 2 ^ 60 }
    ensures product { result ≡ count *ℤ pos parts }
    ensures low { (negsuc 99999999 *ℤ pos parts) ≤ℤ result }
    ensures high { result ≤ℤ (pos 100000000 *ℤ pos parts) }
{
    i128::from(count) * i128::from(parts)
}

/// The whole days of a count of spans, rounded down. The count is `num / den`.
pub fn days_of(span: Frac, num: i64, den: u16) -> i64
    requires span { IsSpan span }
    requires at_most_1000_days { span.num ≤ℤ (pos 1000 *ℤ pos span.den) }
    requires num { IsSpanCount num }
    requires over { 0 < den }
    ensures days { result ≡ days_of_spans (fraction_of span) (ratio num den) }
{
    quotient_within(product(num, parts_of(span)), span.den() * u64::from(den))
}

/// How many spans so many days are, and `num / den` more, rounded down. With a half more it is the number of spans that is
/// nearest, the greater of two.
pub fn spans_of(span: Frac, days: i64, num: i64, den: u16) -> i64
    requires span { IsSpan span }
    requires days { IsSpanCount days }
    requires num { IsSpanCount num }
    requires over { 0 < den }
    ensures spans { result ≡ spans_of_days (fraction_of span) days (ratio num den) }
{
    let parts = parts_of(span);
    let whole = product(days, span.den() * u64::from(den));
    let more = product(num, parts);
    quotient_within(whole + more, parts * u64::from(den))
}

/// The whole days of so many mean tropical years, rounded down.
pub fn days_of_years(years: i64) -> i64
    requires years { IsCount years }
    ensures days { result ≡ days_of_tropical_years years }
{
    days_of(TROPICAL_YEAR, years, 1)
}

/// The number of mean synodic months that is nearest to so many days, the greater of two.
pub fn months_of_days(days: i64) -> i64
    requires days { IsCount days }
    ensures months { result ≡ synodic_months_of days }
{
    spans_of(SYNODIC_MONTH, days, 1, 2)
}

/// The number of mean tropical years that is nearest to so many days, the greater of two.
pub fn years_of_days(days: i64) -> i64
    requires days { IsCount days }
    ensures years { result ≡ tropical_years_of days }
{
    spans_of(TROPICAL_YEAR, days, 1, 2)
}
