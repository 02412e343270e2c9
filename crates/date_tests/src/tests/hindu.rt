//! Dates over tables in memory, each compared with an independent implementation.
#![tactic(auto, unfolding(book_model::specs::calendars::Dates::may_have, book_model::specs::calendars::Dates::has_some_year, book_model::specs::calendars::Dates::year_number))]

ghost use Rattle.std.specs.Prelude.{◌≡◌, ◌≤◌, ◌≤ℤ◌, pos, length, IsTrue};
ghost use Rattle.book_model.specs.calendars.Dates.{IsAskable};
ghost use Rattle.book_model.specs.declared.calendar.Calendar.TheVariants.{HinduLunar as LunarCalendar};
ghost use Rattle.hindu_astro.specs.Dates.{fields_of_lunar};
ghost use Rattle.oracle_core.specs.Pairs.{AreFactValues, are_distinct};

use crate::tests::facts::fact_on;
use book_model::{Fact, Kind};
use hindu_astro::lunar::HinduLunar;
use hindu_astro::solar::HinduSolar;
use hindu_astro::{lunar, solar};
use oracle_core::{Listed, Stop};
use std::alloc::Global;

/// The solar date of a day over a table, and the number of facts asked.
fn solar_over(
    alloc: Global,
    facts: &[Fact],
    values: &[i64],
    day: i64,
) -> (Result<HinduSolar, Stop>, usize)
    requires from { pos 0 ≤ℤ day }
    requires to { day ≤ℤ pos 1000000 }
    requires same { length facts.now ≡ length values.now }
    requires distinct { IsTrue (are_distinct facts.now) }
    requires known { AreFactValues values.now }
{
    let mut oracle = Listed::new(alloc, facts, values);
    let date = solar::from_fixed(&mut oracle, day);
    (date, oracle.asked().len())
}

/// The lunar date of a day over a table, and the number of facts asked.
fn lunar_over(
    alloc: Global,
    facts: &[Fact],
    values: &[i64],
    day: i64,
) -> (Result<HinduLunar, Stop>, usize)
    requires from { pos 0 ≤ℤ day }
    requires to { day ≤ℤ pos 1000000 }
    requires same { length facts.now ≡ length values.now }
    requires distinct { IsTrue (are_distinct facts.now) }
    requires known { AreFactValues values.now }
{
    let mut oracle = Listed::new(alloc, facts, values);
    let date = lunar::from_fixed(&mut oracle, day);
    (date, oracle.asked().len())
}

/// The solar new year of 2024.
fn new_year(alloc: Global) -> (Result<HinduSolar, Stop>, usize) {
    let facts = [
        fact_on(Kind::Sankranti, 738_990),
        fact_on(Kind::SolarYear, 738_990),
        fact_on(Kind::Sign, 738_990),
    ];
    solar_over(alloc, &facts, &[738_990, 5125, 1], 738_990)
}

/// The day of that over a table of its one fact.
fn day_of_new_year(alloc: Global) -> Result<i64, Stop> {
    let facts = [fact_on(Kind::Sankranti, 739_004)];
    let mut oracle = Listed::new(alloc, &facts, &[738_990]);
    solar::to_fixed(
        &mut oracle,
        HinduSolar {
            year: 1946,
            month: 1,
            day: 1,
        },
    )
}

/// The first day of an added month, in 2023.
fn added_month(alloc: Global) -> (Result<HinduLunar, Stop>, usize) {
    let facts = [
        fact_on(Kind::Tithi, 738_719),
        fact_on(Kind::Tithi, 738_718),
        fact_on(Kind::SignBefore, 738_719),
        fact_on(Kind::SignAfter, 738_719),
        fact_on(Kind::CalendarYear, 738_719),
    ];
    lunar_over(alloc, &facts, &[1, 30, 4, 4, 5124], 738_719)
}

/// The first day of the lunar year 2081, whose own year is asked of a day half a year on.
fn lunar_new_year(alloc: Global) -> (Result<HinduLunar, Stop>, usize) {
    let facts = [
        fact_on(Kind::Tithi, 738_985),
        fact_on(Kind::Tithi, 738_984),
        fact_on(Kind::SignBefore, 738_985),
        fact_on(Kind::SignAfter, 738_985),
        fact_on(Kind::CalendarYear, 739_165),
    ];
    lunar_over(alloc, &facts, &[1, 30, 12, 1, 5125], 738_985)
}

/// The day of the first of an added month over a table of the first fact that it asks.
fn day_of_added_month(alloc: Global) -> Result<i64, Stop> {
    let facts = [fact_on(Kind::Tithi, 738_748)];
    let mut oracle = Listed::new(alloc, &facts, &[30]);
    lunar::to_fixed(
        &mut oracle,
        HinduLunar {
            year: 2080,
            month: 5,
            leap_month: true,
            day: 1,
            leap_day: false,
        },
    )
}

/// The first day of a month of the lunar calendar.
fn first_of(year: i32, month: u8, leap_month: bool) -> HinduLunar {
    HinduLunar {
        year,
        month,
        leap_month,
        day: 1,
        leap_day: false,
    }
}

/// The day of a lunar date over a table, and the number of facts asked.
fn lunar_day_over(
    alloc: Global,
    facts: &[Fact],
    values: &[i64],
    date: HinduLunar,
) -> (Result<i64, Stop>, usize)
    requires askable { IsAskable LunarCalendar (fields_of_lunar date) }
    requires same { length facts.now ≡ length values.now }
    requires distinct { IsTrue (are_distinct facts.now) }
    requires known { AreFactValues values.now }
{
    let mut oracle = Listed::new(alloc, facts, values);
    let day = lunar::to_fixed(&mut oracle, date);
    (day, oracle.asked().len())
}

/// The first of an added month, over a table of its facts.
fn day_of_whole_month(alloc: Global) -> (Result<i64, Stop>, usize) {
    let facts = [
        fact_on(Kind::Tithi, 738_748),
        fact_on(Kind::Tithi, 738_733),
        fact_on(Kind::Tithi, 738_732),
        fact_on(Kind::SignBefore, 738_733),
        fact_on(Kind::SignAfter, 738_733),
        fact_on(Kind::CalendarYear, 738_733),
        fact_on(Kind::Tithi, 738_717),
        fact_on(Kind::Tithi, 738_716),
        fact_on(Kind::SignBefore, 738_717),
        fact_on(Kind::SignAfter, 738_717),
        fact_on(Kind::CalendarYear, 738_717),
        fact_on(Kind::Tithi, 738_718),
        fact_on(Kind::SignBefore, 738_718),
        fact_on(Kind::SignAfter, 738_718),
        fact_on(Kind::CalendarYear, 738_718),
        fact_on(Kind::Tithi, 738_719),
        fact_on(Kind::SignBefore, 738_719),
        fact_on(Kind::SignAfter, 738_719),
        fact_on(Kind::CalendarYear, 738_719),
    ];
    let values = [
        30, 15, 13, 4, 4, 5_124, 29, 28, 3, 4, 5_124, 30, 3, 4, 5_124, 1, 4, 4, 5_124,
    ];
    let date = HinduLunar {
        year: 2080,
        month: 5,
        leap_month: true,
        day: 1,
        leap_day: false,
    };
    lunar_day_over(alloc, &facts, &values, date)
}

/// The 15th of a common month, over a table of its facts.
fn day_of_full_moon(alloc: Global) -> (Result<i64, Stop>, usize) {
    let facts = [
        fact_on(Kind::Tithi, 738_961),
        fact_on(Kind::Tithi, 738_969),
        fact_on(Kind::Tithi, 738_968),
        fact_on(Kind::SignBefore, 738_969),
        fact_on(Kind::SignAfter, 738_969),
        fact_on(Kind::CalendarYear, 738_969),
        fact_on(Kind::Tithi, 738_967),
        fact_on(Kind::SignBefore, 738_968),
        fact_on(Kind::SignAfter, 738_968),
        fact_on(Kind::CalendarYear, 738_968),
        fact_on(Kind::Tithi, 738_970),
        fact_on(Kind::SignBefore, 738_970),
        fact_on(Kind::SignAfter, 738_970),
        fact_on(Kind::CalendarYear, 738_970),
    ];
    let values = [
        7, 14, 13, 11, 12, 5_124, 13, 11, 12, 5_124, 15, 11, 12, 5_124,
    ];
    lunar_day_over(
        alloc,
        &facts,
        &values,
        HinduLunar {
            year: 2080,
            month: 12,
            leap_month: false,
            day: 15,
            leap_day: false,
        },
    )
}

#[test]
fn solar_dates_follow_the_tables(rt: HostRuntime) {
    let date = HinduSolar {
        year: 1946,
        month: 1,
        day: 1,
    };
    assert!(rt; new_year(rt.alloc()) == (Ok(date), 3));
    assert!(rt; day_of_new_year(rt.alloc()) == Ok(738_990));
}

#[test]
fn lunar_dates_follow_the_tables(rt: HostRuntime) {
    let alloc = rt.alloc();
    assert!(rt; added_month(alloc) == (Ok(first_of(2080, 5, true)), 5));
    assert!(rt; lunar_new_year(alloc) == (Ok(first_of(2081, 1, false)), 5));
    let missing = Stop::Missing(fact_on(Kind::Tithi, 738_733));
    assert!(rt; day_of_added_month(alloc) == Err(missing));
    assert!(rt; day_of_whole_month(alloc) == (Ok(738_719), 19));
    assert!(rt; day_of_full_moon(alloc) == (Ok(738_970), 14));
}
