//! Hindu lunar dates. Days are R.D.
ghost use Rattle.std.specs.Prelude.{◌≡◌, ◌≤◌, ◌≤ℤ◌, ◌+ℤ◌, ◌-ℤ◌, pos, negsuc, IsTrue, IfOk};
ghost use Rattle.std.specs.Ordering.{int_eq};
ghost use Rattle.book_model.specs.calendars.Dates.{IsAskable, IsDateDay};
ghost use Rattle.book_model.specs.sky.Facts.{IsFactValue};
ghost use Rattle.book_model.specs.calendars.HinduLunar as spec;
ghost use Rattle.book_model.specs.calendars.Inquiries.{flag, first_of as first_of_days};
ghost use Rattle.book_model.specs.calendars.HinduSolar.{hindu_fact};
ghost use Rattle.book_model.specs.declared.calendar.Calendar.TheVariants.{HinduLunar as LunarCalendar};
ghost use Rattle.book_model.specs.declared.fact.Kind.TheVariants.{CalendarYear};
ghost use Rattle.hindu_astro.specs.Dates.{fields_of_lunar};
ghost use Rattle.hindu_astro.specs.Days.{AreAbout, IsAbout, IsAskedDay, IsDatedDay, IsSearchedDay, IsSunMonth};
ghost use Rattle.hindu_astro.specs.Searches.{inquiry_of};
ghost use Rattle.oracle_core.specs.Asking.{Asks, AsksAs};
ghost use Rattle.calendar_math.specs.Days.{IsCalendarDay};

use crate::facts::fact_on;
use crate::months::days_to_month;
use book_model::calendar_tables::{HINDU_EPOCH, VIKRAMA_ERA};
use book_model::{Fact, Fields, Kind};
use calendar_math::{amod, to_8_bits, to_32_bits};
use oracle_core::{CalendarDate, Oracle, Stop};

/// A date of the Hindu lunar calendar; the year counts in the Vikrama era. A leap month is an added one, before that of the same
/// number; a leap day is the second with its tithi.
#[derive(Clone, Copy, Debug, PartialEq, Eq)]
pub struct HinduLunar {
    pub year: i32,
    pub month: u8,
    pub leap_month: bool,
    pub day: u8,
    pub leap_day: bool,
}

/// What a day is sought for.
#[derive(Clone, Copy, Debug)]
enum Search {
    /// That it lies in the month of a date.
    Month(HinduLunar),
    /// That it has a date.
    Day(HinduLunar),
}

/// The number of a month, by the sign of the sun at the new moon with which it begins.
fn month_by_sign(sign: i64) -> u8
    requires value { IsFactValue sign }
    ensures month { pos result ≡ spec.month_by_sign sign }
{
    amod(sign + 1, 12) as u8
}

/// The day of which the year of a month is asked.
#[tactic(auto, unfolding(book_model::specs::calendars::HinduLunar::year_asked_of))]
fn year_asked_of(day: i64, month: u8) -> i64
    requires day { IsDatedDay day }
    ensures day { result ≡ spec.year_asked_of day (pos month) }
    ensures near { IsAskedDay result }
{
    if month <= 2 { day + 180 } else { day }
}

/// The fact of the year of a day's month, by the sign at the new moon before.
fn year_fact(day: i64, before: i64) -> Fact
    requires day { IsDatedDay day }
    requires value { IsFactValue before }
    ensures fact { result ≡ hindu_fact CalendarYear
        (spec.year_asked_of day (spec.month_by_sign before)) }
{
    fact_on(
        Kind::CalendarYear,
        year_asked_of(day, month_by_sign(before)),
    )
}

/// The year of the Vikrama era.
fn year_of(year: i64) -> i64
    requires value { IsFactValue year }
    ensures year { result ≡ year -ℤ pos 3044 }
{
    year - VIKRAMA_ERA
}

/// Whether two numbers are the same.
fn is_same(one: i64, other: i64) -> bool
    ensures same { result ≡ int_eq one other }
{
    one == other
}

/// The date by the tithis of the day and of the day before, the signs at the new moons before and after, and the year of the Kali
/// Yuga.
#[tactic(auto, unfolding(book_model::specs::calendars::HinduLunar::lunar_fields))]
fn date_from_signs(tithi: i64, earlier: i64, before: i64, after: i64, year: i64) -> HinduLunar
    requires before_value { IsFactValue before }
    requires year_value { IsFactValue year }
    ensures date { fields_of_lunar result ≡ spec.lunar_fields tithi earlier before after year }
{
    HinduLunar {
        year: to_32_bits(year_of(year)),
        month: month_by_sign(before),
        leap_month: is_same(after, before),
        day: to_8_bits(tithi),
        leap_day: is_same(earlier, tithi),
    }
}

/// The date of a day by its tithi and that of the day before.
fn date_from_tithis<O: Oracle>(
    oracle: &mut O,
    day: i64,
    tithi: i64,
    earlier: i64,
) -> Result<HinduLunar, Stop>
    requires day { IsDatedDay day }
    ensures date { AsksAs fields_of_lunar O.Oracle (spec.lunar_date_by day tithi earlier)
        oracle.old oracle.new result }
{
    let before = oracle.ask(fact_on(Kind::SignBefore, day))?;
    let after = oracle.ask(fact_on(Kind::SignAfter, day))?;
    let year = oracle.ask(year_fact(day, before))?;
    Ok(date_from_signs(tithi, earlier, before, after, year))
}

/// The date of a day (R.D.) to which values of facts lead.
fn date_from_facts<O: Oracle>(oracle: &mut O, day: i64) -> Result<HinduLunar, Stop>
    requires day { IsDatedDay day }
    ensures date { AsksAs fields_of_lunar O.Oracle (spec.hindu_lunar_on day)
        oracle.old oracle.new result }
{
    let tithi = oracle.ask(fact_on(Kind::Tithi, day))?;
    let earlier = oracle.ask(fact_on(Kind::Tithi, day - 1))?;
    date_from_tithis(oracle, day, tithi, earlier)
}

/// The date of a day (R.D.): its month has the number of the sign that the sun enters in it, and is an added one where it enters
/// none; its day is the tithi at sunrise, and a leap day where the day before has the same. A day or a year that its type doesn't
/// hold is clamped to the nearest bound; the other fields always fit. It returns early where the oracle does, at one of the five
/// facts that are asked (Reingold and Dershowitz, Calendrical Calculations, chapter 20).
///
/// ```
/// let evaluator = Staged::new();
/// let mut oracle = Asking::new(rt.alloc(), &evaluator);
/// let date = hindu_astro::lunar::from_fixed(&mut oracle, 738_719)?;
/// // HinduLunar { year: 2080, month: 5, leap_month: true, day: 1, leap_day: false }: the month is an added one
/// ```
pub fn from_fixed<O: Oracle>(oracle: &mut O, day: i64) -> Result<HinduLunar, Stop>
    requires day { IsDateDay LunarCalendar day }
    ensures date { AsksAs fields_of_lunar O.Oracle (spec.hindu_lunar_on day)
        oracle.old oracle.new result }
{
    date_from_facts(oracle, day)
}

/// Whether a date lies in the month of the one that is sought.
#[tactic(auto, unfolding(book_model::specs::calendars::HinduLunar::is_of_month))]
fn is_of_month(sought: HinduLunar, date: HinduLunar) -> bool
    ensures same { result ≡ spec.is_of_month (fields_of_lunar sought) (fields_of_lunar date) }
{
    date.year == sought.year && date.month == sought.month && date.leap_month == sought.leap_month
}

/// Whether a date is the one that is sought.
#[tactic(auto, unfolding(book_model::specs::calendars::HinduLunar::is_sought_date))]
fn is_sought_date(sought: HinduLunar, date: HinduLunar) -> bool
    ensures same { result ≡ spec.is_sought_date (fields_of_lunar sought) (fields_of_lunar date) }
{
    is_of_month(sought, date) && date.day == sought.day && date.leap_day == sought.leap_day
}

/// Whether a day lies in the month of a date. It returns early where the oracle does.
fn lies_in_month<O: Oracle>(oracle: &mut O, sought: HinduLunar, day: i64) -> Result<bool, Stop>
    requires day { IsDatedDay day }
    ensures lies { Asks O.Oracle (spec.lies_in_month (fields_of_lunar sought) day)
        oracle.old oracle.new result }
{
    let date = date_from_facts(oracle, day)?;
    Ok(is_of_month(sought, date))
}

/// Whether a day has a date. It returns early where the oracle does.
fn has_date<O: Oracle>(oracle: &mut O, sought: HinduLunar, day: i64) -> Result<bool, Stop>
    requires day { IsDatedDay day }
    ensures has { Asks O.Oracle (spec.has_date (fields_of_lunar sought) day)
        oracle.old oracle.new result }
{
    let date = date_from_facts(oracle, day)?;
    Ok(is_sought_date(sought, date))
}

/// Whether a day is one that is sought. It returns early where the oracle does.
#[tactic(auto, using(oracle_core::proofs::Inquiring::asking), unfolding(crate::specs::Searches::inquiry_of))]
fn is_sought<O: Oracle>(oracle: &mut O, search: Search, day: i64) -> Result<bool, Stop>
    requires day { IsDatedDay day }
    ensures sought { Asks O.Oracle (inquiry_of search day) oracle.old oracle.new result }
{
    match search {
        Search::Month(date) => lies_in_month(oracle, date, day),
        Search::Day(date) => has_date(oracle, date, day),
    }
}

// The two searches of the rule are uses of one, here and in the definition: the days that are
// looked at, and an inquiry of each.
/// The first of some days about one that is sought, else that one. It returns early where the oracle does.
#[tactic(auto, using(oracle_core::proofs::Inquiring::asking), unfolding(book_model::specs::calendars::Inquiries::first_of))]
fn first_of<O: Oracle>(
    oracle: &mut O,
    days: &[i64],
    search: Search,
    about: i64,
) -> Result<i64, Stop>
    requires near { AreAbout about days.now }
    requires about { IsSearchedDay about }
    ensures day { Asks O.Oracle (first_of_days days.now (inquiry_of search) about)
        oracle.old oracle.new result }
    ensures about { IfOk result (IsAbout about) }
{
    let Some((day, rest)) = days.split_first() else {
        return Ok(about);
    };
    let here = is_sought(oracle, search, *day)?;
    if here {
        return Ok(*day);
    }
    first_of(oracle, rest, search, about)
}

/// A day, that 30 days before and that 30 days after it.
#[tactic(auto, unfolding(book_model::specs::calendars::HinduLunar::month_candidates))]
fn month_candidates(day: i64) -> [i64; 3]
    requires day { IsSearchedDay day }
    ensures days { result ≡ spec.month_candidates day }
    ensures about { AreAbout day result }
{
    [day, day - 30, day + 30]
}

/// The days from two before a day to two after it.
#[tactic(auto, unfolding(book_model::specs::calendars::HinduLunar::day_candidates))]
fn day_candidates(day: i64) -> [i64; 5]
    requires day { IsSearchedDay day }
    ensures days { result ≡ spec.day_candidates day }
    ensures about { AreAbout day result }
{
    [day - 2, day - 1, day, day + 1, day + 2]
}

/// About the middle of a month: the first of a day, that 30 days before and that 30 days after it that lies in the month, else the
/// day. It returns early where the oracle does.
#[tactic(auto, using(oracle_core::proofs::Inquiring::asking), unfolding(book_model::specs::calendars::HinduLunar::middle_about, crate::specs::Searches::inquiry_of))]
fn middle_about<O: Oracle>(oracle: &mut O, sought: HinduLunar, day: i64) -> Result<i64, Stop>
    requires low { negsuc 16999999 ≤ℤ day }
    requires high { day ≤ℤ pos 17000100 }
    ensures day { Asks O.Oracle (spec.middle_about (fields_of_lunar sought) day)
        oracle.old oracle.new result }
    ensures about { IfOk result (IsAbout day) }
{
    let days = month_candidates(day);
    first_of(oracle, &days, Search::Month(sought), day)
}

/// The first of a day, the two before and the two after it, in order, that has a date, else the day. It returns early where the
/// oracle does.
#[tactic(auto, using(oracle_core::proofs::Inquiring::asking), unfolding(book_model::specs::calendars::HinduLunar::day_about, crate::specs::Searches::inquiry_of))]
fn day_about<O: Oracle>(oracle: &mut O, sought: HinduLunar, day: i64) -> Result<i64, Stop>
    requires day { IsSearchedDay day }
    ensures day { Asks O.Oracle (spec.day_about (fields_of_lunar sought) day)
        oracle.old oracle.new result }
{
    let days = day_candidates(day);
    first_of(oracle, &days, Search::Day(sought), day)
}

/// A day about the middle of a month, by the mean sun.
#[tactic(auto, unfolding(book_model::specs::calendars::HinduLunar::day_by_sun))]
fn day_by_sun(year: i64, month: i64) -> i64
    requires month { IsSunMonth year month }
    ensures day { result ≡ spec.day_by_sun year month }
    ensures low { negsuc 6999999 ≤ℤ result }
    ensures high { result ≤ℤ pos 6999999 }
{
    HINDU_EPOCH + days_to_month(VIKRAMA_ERA, year, month) + 12
}

/// The day with the tithi 15 of the month in which a day falls, by the tithi of that day.
fn middle_by(by_sun: i64, tithi: i64) -> i64
    requires low { negsuc 6999999 ≤ℤ by_sun }
    requires high { by_sun ≤ℤ pos 6999999 }
    requires value { IsFactValue tithi }
    ensures day { result ≡ by_sun -ℤ tithi +ℤ pos 15 }
    ensures near_from { negsuc 16999999 ≤ℤ result }
    ensures near_to { result ≤ℤ pos 17000100 }
{
    by_sun - tithi + 15
}

/// The day to which the tithi of the month's middle leads.
fn day_by_tithi(middle: i64, tithi: i64, day: u8) -> i64
    requires low { negsuc 17000999 ≤ℤ middle }
    requires high { middle ≤ℤ pos 17001100 }
    requires value { IsFactValue tithi }
    ensures day { result ≡ middle -ℤ tithi +ℤ pos day }
    ensures near_from { negsuc 29998000 ≤ℤ result }
    ensures near_to { result ≤ℤ pos 29998000 }
{
    middle - tithi + i64::from(day)
}

/// The day of a date by the middle of its month, whose tithi leads to it or near it. It returns early where the oracle does.
fn day_by_middle<O: Oracle>(oracle: &mut O, sought: HinduLunar, middle: i64) -> Result<i64, Stop>
    requires low { negsuc 17000999 ≤ℤ middle }
    requires high { middle ≤ℤ pos 17001100 }
    ensures day { Asks O.Oracle (spec.day_by_middle (fields_of_lunar sought) middle)
        oracle.old oracle.new result }
{
    let tithi = oracle.ask(fact_on(Kind::Tithi, middle))?;
    day_about(oracle, sought, day_by_tithi(middle, tithi, sought.day))
}

/// The day of a date by a day about the middle of its month, whose tithi leads to the middle of a month. It returns early where
/// the oracle does.
fn day_by_month<O: Oracle>(oracle: &mut O, sought: HinduLunar, day: i64) -> Result<i64, Stop>
    requires low { negsuc 6999999 ≤ℤ day }
    requires high { day ≤ℤ pos 6999999 }
    ensures day { Asks O.Oracle (spec.day_by_month (fields_of_lunar sought) day)
        oracle.old oracle.new result }
{
    let tithi = oracle.ask(fact_on(Kind::Tithi, day))?;
    let middle = middle_about(oracle, sought, middle_by(day, tithi))?;
    day_by_middle(oracle, sought, middle)
}

/// The day (R.D.) of a date, by a rule of this project's own: from a day about the middle of the month by the mean sun its tithi
/// leads to the month's middle, or to that of the month before or after, and the tithi there to the day, of which two days before
/// and two after are looked at too. The date needn't be one that the calendar has. It returns early where the oracle does, at one
/// of the facts that the rules ask.
///
/// ```
/// let evaluator = Staged::new();
/// let mut oracle = Asking::new(rt.alloc(), &evaluator);
/// let date = HinduLunar { year: 2080, month: 5, leap_month: true, day: 1, leap_day: false };
/// let day = hindu_astro::lunar::to_fixed(&mut oracle, date)?; // 738_719, which is 18 July 2023
/// ```
pub fn to_fixed<O: Oracle>(oracle: &mut O, date: HinduLunar) -> Result<i64, Stop>
    requires askable { IsAskable LunarCalendar (fields_of_lunar date) }
    ensures day { Asks O.Oracle (spec.hindu_lunar_day date.year (pos date.month)
        (flag date.leap_month) (pos date.day) (flag date.leap_day)) oracle.old oracle.new result }
{
    let by_sun = day_by_sun(i64::from(date.year), i64::from(date.month));
    day_by_month(oracle, date, by_sun)
}

impl CalendarDate for HinduLunar {
    ghost calendar = { LunarCalendar };

    ghost fields_of = { fields_of_lunar };

    fn fields(self) -> Fields {
        Fields {
            count: 5,
            values: [
                self.year,
                i32::from(self.month),
                // The rule compares flags and numbers alike as whole numbers, a flag as 0 or 1.
                i32::from(self.leap_month),
                i32::from(self.day),
                i32::from(self.leap_day),
            ],
        }
    }

    #[tactic(auto, unfolding(book_model::specs::calendars::Dates::may_have, book_model::specs::calendars::Dates::has_some_year, book_model::specs::calendars::Dates::year_number))]
    fn day_by<O: Oracle>(oracle: &mut O, fields: &Fields) -> Result<i64, Stop> {
        let date = HinduLunar {
            year: fields.field(0) as i32,
            month: fields.field(1) as u8,
            leap_month: fields.field(2) == 1,
            day: fields.field(3) as u8,
            leap_day: fields.field(4) == 1,
        };
        to_fixed(oracle, date)
    }

    fn of_day<O: Oracle>(oracle: &mut O, day: i64) -> Result<Self, Stop> {
        from_fixed(oracle, day)
    }
}
