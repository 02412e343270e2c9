//! Dates of all calendars: which may be asked, the day that a date names, and the date of a day.
ghost use Rattle.std.specs.Prelude.{◌≡◌, IsTrue, IfOk, MatchOption, true, false};
ghost use Rattle.book_model.specs.calendars.Dates as spec;
ghost use Rattle.book_model.specs.calendars.Moving.{at_place};
ghost use Rattle.book_model.specs.lines.Requests.{ranged, checked, fields_of};
ghost use Rattle.line_core.specs.Days as days;
ghost use Rattle.line_core.specs.Checking.{date_in};
ghost use Rattle.moved_oracle.specs.Moving.{is_moved_to};
ghost use Rattle.oracle_core.specs.Asking.{Asks};

use crate::fields::{are_within, has_year, spelled_fields};
use crate::gregorian::{gregorian_date, gregorian_day};
use crate::reach::is_within;
use book_model::{Calendar, Fields, Place, Rule, Version};
use calendar_math::to_32_bits;
use chinese_cal::ChineseDate;
use moved_oracle::Moved;
use oracle_core::{CalendarDate, Oracle, Stop};

/// The day (R.D.) that a day number names.
fn fixed_day(date: &Fields) -> i64
    ensures day { result ≡ spec.fixed_day date.now }
{
    i64::from(date.field(0))
}

// Only Gregorian dates and day numbers are judged here, whose days are known without any fact; the rows of these two calendars
// refuse no year.
/// The day (R.D.) of a date, where it is known without any fact, and else 0, and whether it lies in the reach of a line, from its
/// first to its last day, where it is known; `None` where the month of the date hasn't this day.
pub(crate) fn known_day(reach: (i64, i64), calendar: Calendar, date: &Fields) -> Option<(i64, bool)>
    ensures day { MatchOption result (spec.has_day_of_month calendar date.now ≡ false)
        (λ p. (spec.has_day_of_month calendar date.now ≡ true)
        × (p.0 ≡ days.known_day calendar date.now)
        × (p.1 ≡ spec.has_day_in_reach reach calendar date.now)) }
{
    match calendar {
        Calendar::Gregorian => {
            let day = gregorian_day(date)?;
            Some((day, is_within(reach, day)))
        }
        Calendar::Fixed => {
            let day = fixed_day(date);
            Some((day, is_within(reach, day)))
        }
        _ => Some((0, true)),
    }
}

// One rule for all calendars. A date whose day is found by facts is judged twice: by its year first (`refused 4`), and by its day
// once that is computed (`refused 4 DAY`, with the facts that say so).
/// A date of a calendar itself, with its day where that is known without any fact, if it is one that a line of a version answers,
/// which may name the days from the first to the last of its reach, as far as that can be told without any fact: `Field` where the
/// calendar can have no such date, `Range` where it is out of range.
#[tactic(auto, unfolding(book_model::specs::calendars::Dates::may_have, book_model::specs::calendars::Dates::is_answered))]
pub(crate) fn checked_date(
    version: Version,
    reach: (i64, i64),
    calendar: Calendar,
    date: &Fields,
) -> Result<(Fields, i64), Rule>
    ensures date { date_in result ≡ ranged version reach calendar (checked calendar date.now) }
    ensures known { IfOk result (λ p. p.1 ≡ days.known_day calendar p.0) }
    ensures possible { IfOk result (λ p. IsTrue (spec.may_have calendar p.0)) }
    ensures in_reach { IfOk result (λ p. IsTrue (spec.is_answered version reach calendar p.0)) }
{
    let row = calendar.row();
    if date.count != row.count || !are_within(&row, date) {
        return Err(Rule::Field);
    }
    let (day, is_near) = known_day(reach, calendar, date).ok_or(Rule::Field)?;
    if is_near && has_year(version, &row, date) {
        Ok((*date, day))
    } else {
        Err(Rule::Range)
    }
}

/// The date that a word spells in a calendar, with its day where that is known without any fact, if it is one that such a line
/// answers, as far as that can be told without any fact: `Field` where the calendar can have no such date, `Range` where it is out of
/// range.
pub(crate) fn ranged_date(
    version: Version,
    reach: (i64, i64),
    calendar: Calendar,
    date: &[u8],
) -> Result<(Fields, i64), Rule>
    ensures date { date_in result ≡ ranged version reach calendar (fields_of calendar date.now) }
    ensures known { IfOk result (λ p. p.1 ≡ days.known_day calendar p.0) }
    ensures possible { IfOk result (λ p. IsTrue (spec.may_have calendar p.0)) }
    ensures in_reach { IfOk result (λ p. IsTrue (spec.is_answered version reach calendar p.0)) }
{
    let fields = spelled_fields(date).ok_or(Rule::Field)?;
    checked_date(version, reach, calendar, &fields)
}

/// A number as the only field of a date or of a result.
pub(crate) fn one_field(value: i64) -> Fields
    ensures { result ≡ spec.one_field value }
{
    Fields {
        count: 1,
        values: [to_32_bits(value), 0, 0, 0, 0],
    }
}

/// Whether two dates have the same fields.
pub(crate) fn have_same_fields(date: &Fields, other: &Fields) -> bool
    ensures same { result ≡ spec.are_same_fields date.now other.now }
{
    date.count == other.count && date.values == other.values
}

/// The day (R.D.) that the fields of a date name whose day is found by facts. It returns early where the oracle does.
fn day_by<D: CalendarDate, O: Oracle>(oracle: &mut O, date: &Fields) -> Result<i64, Stop>
    requires askable { spec.IsAskable D.calendar date.now }
    ensures day { Asks O.Oracle (spec.day_named D.calendar date.now) oracle.old oracle.new result }
{
    D::day_by(oracle, date)
}

/// The fields of the date of a day (R.D.) whose date the calendar tells, found by facts. It returns early where the oracle does.
#[tactic(auto, using(oracle_core::proofs::Inquiring::asking))]
fn fields_on<D: CalendarDate, O: Oracle>(oracle: &mut O, day: i64) -> Result<Fields, Stop>
    requires told { spec.IsDateDay D.calendar day }
    ensures date { Asks O.Oracle (spec.date_on D.calendar day) oracle.old oracle.new result }
{
    Ok(D::of_day(oracle, day)?.fields())
}

/// The day (R.D.) that the fields of a date name by the Chinese rules over the sky of another place. It returns early where the
/// oracle does.
fn day_at<O: Oracle>(oracle: &mut O, place: Place, date: &Fields) -> Result<i64, Stop>
    requires moved_to { IsTrue (is_moved_to place) }
    requires askable { spec.IsAskable Calendar.Chinese date.now }
    ensures day { Asks O.Oracle (at_place place (spec.day_named Calendar.Chinese date.now))
        oracle.old oracle.new result }
{
    day_by::<ChineseDate, Moved<O>>(&mut Moved::new(oracle, place), date)
}

/// The fields of the date of a day (R.D.) by the Chinese rules over the sky of another place. It returns early where the oracle does.
fn fields_at<O: Oracle>(oracle: &mut O, place: Place, day: i64) -> Result<Fields, Stop>
    requires moved_to { IsTrue (is_moved_to place) }
    requires told { spec.IsDateDay Calendar.Chinese day }
    ensures date { Asks O.Oracle (at_place place (spec.date_on Calendar.Chinese day))
        oracle.old oracle.new result }
{
    fields_on::<ChineseDate, Moved<O>>(&mut Moved::new(oracle, place), day)
}

// The calendars stand here once, for the day of a date and for the date of a day.
/// The one table of all calendars: an expression for the Gregorian calendar and one for day numbers, a call that takes the date's
/// type for any other calendar, and one that takes the place for a calendar of the Chinese rules.
macro_rules! by_calendar {
    ($calendar:expr, $gregorian:expr, $fixed:expr, $call:ident, $at:ident($oracle:expr, $given:expr)) => {
        match $calendar {
            Calendar::Gregorian => Ok($gregorian),
            Calendar::Fixed => Ok($fixed),
            Calendar::Persian => $call::<persian_cal::PersianDate, O>($oracle, $given),
            Calendar::Bahai => $call::<bahai_cal::BahaiDate, O>($oracle, $given),
            Calendar::Chinese => $call::<ChineseDate, O>($oracle, $given),
            Calendar::Vietnamese => $at($oracle, Place::Hanoi, $given),
            Calendar::Korean => $at($oracle, Place::Seoul, $given),
            Calendar::Japanese => $at($oracle, Place::Tokyo, $given),
            Calendar::Islamic => $call::<islamic_observed::IslamicDate, O>($oracle, $given),
            Calendar::HinduSolar => $call::<hindu_astro::solar::HinduSolar, O>($oracle, $given),
            Calendar::HinduLunar => $call::<hindu_astro::lunar::HinduLunar, O>($oracle, $given),
            Calendar::French => $call::<french_astro::FrenchDate, O>($oracle, $given),
            Calendar::HebrewObserved => $call::<hebrew_observed::HebrewDate, O>($oracle, $given),
        }
    };
}

/// The day (R.D.) that a date names, which is this one where it is known without any fact. It returns early where the oracle does.
#[tactic(auto, using(oracle_core::proofs::Inquiring::asking))]
pub(crate) fn named_day<O: Oracle>(
    oracle: &mut O,
    calendar: Calendar,
    date: &Fields,
    day: i64,
) -> Result<i64, Stop>
    requires known { day ≡ days.known_day calendar date.now }
    requires askable { spec.IsAskable calendar date.now }
    ensures comes { Asks O.Oracle (spec.day_named calendar date.now) oracle.old oracle.new result }
{
    by_calendar!(calendar, day, day, day_by, day_at(oracle, date))
}

/// The date of a day (R.D.) whose date the calendar tells. It returns early where the oracle does.
#[tactic(auto, using(oracle_core::proofs::Inquiring::asking))]
pub(crate) fn date_on<O: Oracle>(
    oracle: &mut O,
    calendar: Calendar,
    day: i64,
) -> Result<Fields, Stop>
    requires told { spec.IsDateDay calendar day }
    ensures comes { Asks O.Oracle (spec.date_on calendar day) oracle.old oracle.new result }
{
    by_calendar!(
        calendar,
        gregorian_date(day),
        one_field(day),
        fields_on,
        fields_at(oracle, day)
    )
}
