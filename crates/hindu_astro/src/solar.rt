//! Hindu solar dates. Days are R.D.
ghost use Rattle.std.specs.Prelude.{◌≡◌, ◌≤◌, ◌≤ℤ◌, ◌+ℤ◌, ◌-ℤ◌, pos, IsTrue};
ghost use Rattle.book_model.specs.calendars.Dates.{IsAskable, IsDateDay};
ghost use Rattle.book_model.specs.sky.Facts.{IsFactValue};
ghost use Rattle.book_model.specs.calendars.HinduSolar as spec;
ghost use Rattle.book_model.specs.declared.calendar.Calendar.TheVariants.{HinduSolar as SolarCalendar};
ghost use Rattle.hindu_astro.specs.Dates.{fields_of_solar};
ghost use Rattle.hindu_astro.specs.Days.{IsAskedDay, IsSunMonth};
ghost use Rattle.oracle_core.specs.Asking.{Asks, AsksAs};
ghost use Rattle.calendar_math.specs.Days.{IsCalendarDay};

use crate::facts::fact_on;
use crate::months::days_to_month;
use book_model::calendar_tables::{HINDU_EPOCH, SAKA_ERA};
use book_model::{Fields, Kind};
use calendar_math::{to_8_bits, to_32_bits};
use oracle_core::{CalendarDate, Oracle, Stop, three_fields, year_month_day};

/// A date of the Hindu solar calendar; the year counts in the Saka era.
#[derive(Clone, Copy, Debug, PartialEq, Eq)]
pub struct HinduSolar {
    pub year: i32,
    pub month: u8,
    pub day: u8,
}

/// The day of a month by its first day.
fn day_of(day: i64, first: i64) -> i64
    requires day { IsCalendarDay day }
    requires value { IsFactValue first }
    ensures day { result ≡ day -ℤ first +ℤ pos 1 }
{
    day - first + 1
}

/// The year of the Saka era.
fn year_of(year: i64) -> i64
    requires value { IsFactValue year }
    ensures year { result ≡ year -ℤ pos 3179 }
{
    year - SAKA_ERA
}

/// The date of a day by the sign of its sunset, the year of the Kali Yuga and the first day of its month.
#[tactic(auto, unfolding(book_model::specs::calendars::HinduSolar::solar_fields))]
fn date_from_facts(day: i64, sign: i64, year: i64, first: i64) -> HinduSolar
    requires day { IsCalendarDay day }
    requires sign_value { IsFactValue sign }
    requires year_value { IsFactValue year }
    requires first_value { IsFactValue first }
    ensures date { fields_of_solar result ≡ spec.solar_fields day sign year first }
{
    HinduSolar {
        year: to_32_bits(year_of(year)),
        month: to_8_bits(sign),
        day: to_8_bits(day_of(day, first)),
    }
}

/// The date of a day (R.D.): its month is the sign in which the sun stands at sunset, and its day counts from the one on which the
/// sun came into it. A field that its type doesn't hold is clamped to the nearest bound. It returns early where the oracle does, at
/// one of the three facts that are asked (Reingold and Dershowitz, Calendrical Calculations, chapter 20).
///
/// ```
/// let evaluator = Staged::new();
/// let mut oracle = Asking::new(rt.alloc(), &evaluator);
/// let date = hindu_astro::solar::from_fixed(&mut oracle, 738_990)?; // HinduSolar { year: 1946, month: 1, day: 1 }
/// ```
pub fn from_fixed<O: Oracle>(oracle: &mut O, day: i64) -> Result<HinduSolar, Stop>
    requires day { IsDateDay SolarCalendar day }
    ensures date { AsksAs fields_of_solar O.Oracle (spec.hindu_solar_on day)
        oracle.old oracle.new result }
{
    let sign = oracle.ask(fact_on(Kind::Sign, day))?;
    let year = oracle.ask(fact_on(Kind::SolarYear, day))?;
    let first = oracle.ask(fact_on(Kind::Sankranti, day))?;
    Ok(date_from_facts(day, sign, year, first))
}

/// A day within a month, late in it.
#[tactic(auto, unfolding(book_model::specs::calendars::HinduSolar::day_late_in_month))]
fn day_late_in_month(year: i64, month: i64) -> i64
    requires month { IsSunMonth year month }
    ensures day { result ≡ spec.day_late_in_month year month }
    ensures near { IsAskedDay result }
{
    HINDU_EPOCH + days_to_month(SAKA_ERA, year, month) + 25
}

/// A day of a month by its first day.
fn day_by(first: i64, day: i64) -> i64
    requires value { IsFactValue first }
    requires from_first_day { pos 1 ≤ℤ day }
    requires to_last_day { day ≤ℤ pos 32 }
    ensures day { result ≡ first +ℤ day -ℤ pos 1 }
{
    first + day - 1
}

/// The day (R.D.) of a date: the first day of the month in which a day late in it falls, and the day of the month; a rule of this
/// project's own. The date needn't be one that the calendar has. It returns early where the oracle does, at the one fact that is asked.
///
/// ```
/// let evaluator = Staged::new();
/// let mut oracle = Asking::new(rt.alloc(), &evaluator);
/// let date = HinduSolar { year: 1946, month: 1, day: 1 };
/// let day = hindu_astro::solar::to_fixed(&mut oracle, date)?; // 738_990, which is 14 April 2024
/// ```
pub fn to_fixed<O: Oracle>(oracle: &mut O, date: HinduSolar) -> Result<i64, Stop>
    requires askable { IsAskable SolarCalendar (fields_of_solar date) }
    ensures day { Asks O.Oracle (spec.hindu_solar_day date.year (pos date.month) (pos date.day))
        oracle.old oracle.new result }
{
    let within = day_late_in_month(i64::from(date.year), i64::from(date.month));
    let first = oracle.ask(fact_on(Kind::Sankranti, within))?;
    Ok(day_by(first, i64::from(date.day)))
}

impl CalendarDate for HinduSolar {
    ghost calendar = { SolarCalendar };

    ghost fields_of = { fields_of_solar };

    fn fields(self) -> Fields {
        three_fields(self.year, self.month, self.day)
    }

    #[tactic(auto, unfolding(book_model::specs::calendars::Dates::may_have, book_model::specs::calendars::Dates::has_some_year, book_model::specs::calendars::Dates::year_number))]
    fn day_by<O: Oracle>(oracle: &mut O, fields: &Fields) -> Result<i64, Stop> {
        let (year, month, day) = year_month_day(fields);
        to_fixed(oracle, HinduSolar { year, month, day })
    }

    fn of_day<O: Oracle>(oracle: &mut O, day: i64) -> Result<Self, Stop> {
        from_fixed(oracle, day)
    }
}
