//! The days that a line may name: those of its version of which its calendars tell the dates.
ghost use Rattle.std.specs.Prelude.{◌≡◌};
ghost use Rattle.book_model.specs.lines.Reach as spec;
ghost use Rattle.book_model.specs.sky.Correction.{is_between};

use book_model::{FromWord, Meaning, ToWord, Version};

/// The later of two days.
fn later(day: i64, other: i64) -> i64
    ensures later { result ≡ spec.later day other }
{
    if day <= other { other } else { day }
}

/// The first day (R.D.) for which what a word is about exists: the first day that a calendar tells, for a date; 0, which limits
/// nothing, for the value of a fact.
fn first_day_of(meaning: Meaning) -> i64
    ensures first { result ≡ spec.first_day_of meaning }
{
    match meaning {
        Meaning::Date(calendar) => calendar.row().first_day,
        Meaning::Value(_, _) => 0,
    }
}

// Of all calendars the French alone has a first day within the versions' range. A line whose FROM
// is a fact is judged by the day of its Gregorian date, though the day that the fact names might lie
// later.
/// The first and the last day (R.D.) that a line of a version may name, by the words before and after its date.
pub(crate) fn reach_of(version: Version, from: FromWord, to: ToWord) -> (i64, i64)
    ensures reach { result ≡ spec.reach_of version from to }
{
    let (first, last) = version.days();
    let told = later(first_day_of(from.names()), first_day_of(to.shows()));
    (later(first, told), last)
}

/// Whether a day (R.D.) is one of those from the first to the last.
pub(crate) fn is_within(reach: (i64, i64), day: i64) -> bool
    ensures within { result ≡ is_between reach.0 reach.1 day }
{
    let (first, last) = reach;
    first <= day && day <= last
}
