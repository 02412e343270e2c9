//! Dates and days over tables in memory, each compared with an independent implementation.
#![tactic(auto, unfolding(book_model::specs::calendars::Dates::may_have, book_model::specs::calendars::Dates::has_some_year, book_model::specs::calendars::Dates::year_number))]

ghost use Rattle.std.specs.Prelude.{◌≡◌, length, IsTrue};
ghost use Rattle.book_model.specs.calendars.Dates.{IsAskable};
ghost use Rattle.book_model.specs.declared.calendar.Calendar.TheVariants.{Chinese};
ghost use Rattle.chinese_cal.specs.Dates.{fields_of_date};
ghost use Rattle.chinese_cal.specs.Days.{IsNearDay};
ghost use Rattle.oracle_core.specs.Oracles.{by_table, one_by_table};
ghost use Rattle.oracle_core.specs.Pairs.{AreFactValues, FactTable, are_distinct};

use crate::tests::facts::{major_term, moon_before, moon_from, solstice_on};
use book_model::Fact;
use chinese_cal::{ChineseDate, from_fixed, to_fixed};
use oracle_core::{Listed, Oracle, Stop};
use std::alloc::Global;

/// An oracle over a table that counts how often it is asked.
#[derive(Drop)]
struct Counting<'a> {
    table: Listed<'a>,
    asks: usize,
}

impl<'a> Oracle for Counting<'a> {
    ghost Known = { FactTable };

    ghost meaning = { by_table };

    ghost state = { λ c. c.table };

    ghost one_value = { one_by_table };

    fn ask(&mut self, fact: Fact) -> Result<i64, Stop> {
        self.asks = self.asks.saturating_add(1);
        self.table.ask(fact)
    }
}

/// The result of a call, the number of facts that it asked, and how often it asked.
type Counted<T> = (Result<T, Stop>, usize, usize);

/// The date of a day over a table.
fn date_from_listed(alloc: Global, facts: &[Fact], values: &[i64], day: i64) -> Counted<ChineseDate>
    requires near { IsNearDay day }
    requires same { length facts.now ≡ length values.now }
    requires distinct { IsTrue (are_distinct facts.now) }
    requires known { AreFactValues values.now }
{
    let mut oracle = Counting {
        table: Listed::new(alloc, facts, values),
        asks: 0,
    };
    let date = from_fixed(&mut oracle, day);
    (date, oracle.table.asked().len(), oracle.asks)
}

/// The day of a date over a table.
fn day_over(alloc: Global, facts: &[Fact], values: &[i64], date: ChineseDate) -> Counted<i64>
    requires askable { IsAskable Chinese (fields_of_date date) }
    requires same { length facts.now ≡ length values.now }
    requires distinct { IsTrue (are_distinct facts.now) }
    requires known { AreFactValues values.now }
{
    let mut oracle = Counting {
        table: Listed::new(alloc, facts, values),
        asks: 0,
    };
    let day = to_fixed(&mut oracle, date);
    (day, oracle.table.asked().len(), oracle.asks)
}

/// 22 March 2023, the first day of a leap month, over a table of its facts.
fn date_of_2023(alloc: Global) -> Counted<ChineseDate> {
    let facts = [
        solstice_on(738_601),
        solstice_on(738_881),
        moon_from(738_512),
        moon_before(738_877),
        moon_before(738_602),
        moon_before(738_601),
        moon_before(738_571),
        moon_before(738_542),
        moon_before(738_512),
        major_term(738_512),
        moon_from(738_513),
        major_term(738_542),
        moon_from(738_543),
        major_term(738_571),
        moon_from(738_572),
        major_term(738_601),
        moon_from(738_602),
        major_term(738_630),
    ];
    let values = [
        738_511, 738_876, 738_512, 738_867, 738_601, 738_571, 738_542, 738_512, 738_483, 11,
        738_542, 12, 738_571, 1, 738_601, 2, 738_630, 2,
    ];
    date_from_listed(alloc, &facts, &values, 738_601)
}

/// 22 December 2033, the first day of the first of several months without a major term in its sui, over a table of its facts.
fn date_of_2033(alloc: Global) -> Counted<ChineseDate> {
    let facts = [
        solstice_on(742_529),
        solstice_on(742_898),
        moon_from(742_529),
        moon_before(742_895),
        moon_before(742_530),
        moon_before(742_529),
        major_term(742_529),
        moon_from(742_530),
        major_term(742_558),
    ];
    let values = [
        742_528, 742_894, 742_529, 742_883, 742_529, 742_499, 11, 742_558, 11,
    ];
    date_from_listed(alloc, &facts, &values, 742_529)
}

/// The facts of a day in a common sui with the values of 10 February 2024.
fn date_of_2024(alloc: Global) -> Counted<ChineseDate> {
    let facts = [
        solstice_on(738_926),
        solstice_on(739_246),
        moon_from(738_877),
        moon_before(739_242),
        moon_before(738_927),
    ];
    date_from_listed(
        alloc,
        &facts,
        &[738_876, 739_241, 738_896, 739_221, 738_926],
        738_926,
    )
}

/// The same over a table without the last of its facts.
fn date_without_its_month(alloc: Global) -> Counted<ChineseDate> {
    let facts = [
        solstice_on(738_926),
        solstice_on(739_246),
        moon_from(738_877),
        moon_before(739_242),
    ];
    date_from_listed(
        alloc,
        &facts,
        &[738_876, 739_241, 738_896, 739_221],
        738_926,
    )
}

/// The same day by values at their bounds.
fn date_by_bounds(alloc: Global) -> Counted<ChineseDate> {
    let facts = [
        solstice_on(738_926),
        solstice_on(-9_999_630),
        moon_from(-9_999_999),
        moon_before(10_000_001),
        moon_before(738_927),
    ];
    date_from_listed(
        alloc,
        &facts,
        &[-10_000_000, 10_000_000, -10_000_000, 9_999_999, 10_000_000],
        738_926,
    )
}

/// The same day by a leap sui in which each month comes before itself.
fn date_in_a_circle(alloc: Global) -> Counted<ChineseDate> {
    let facts = [
        solstice_on(738_926),
        solstice_on(739_246),
        moon_from(738_877),
        moon_before(739_242),
        moon_before(738_927),
        moon_before(738_926),
        major_term(738_926),
        moon_from(738_927),
    ];
    let values = [
        738_876, 739_241, 738_896, 739_250, 738_926, 738_926, 5, 738_926,
    ];
    date_from_listed(alloc, &facts, &values, 738_926)
}

/// The first day of the year that began in February 2024, over a table of its facts.
fn day_of_new_year(alloc: Global) -> Counted<i64> {
    let facts = [
        solstice_on(739_112),
        solstice_on(739_246),
        moon_from(738_877),
        moon_from(738_897),
        moon_before(739_242),
        moon_from(738_926),
        solstice_on(738_926),
        moon_before(738_927),
    ];
    let values = [
        738_876, 739_241, 738_896, 738_926, 739_221, 738_926, 738_876, 738_926,
    ];
    let date = ChineseDate {
        cycle: 78,
        year: 41,
        month: 1,
        leap: false,
        day: 1,
    };
    day_over(alloc, &facts, &values, date)
}

/// The fifth day of the leap month of 2023, over a table of its facts: the month after the one that the search begins with.
fn day_of_leap_month(alloc: Global) -> Counted<i64> {
    let facts = [
        solstice_on(738_746),
        solstice_on(738_881),
        moon_from(738_512),
        moon_from(738_513),
        moon_before(738_877),
        major_term(738_512),
        major_term(738_542),
        moon_from(738_543),
        major_term(738_571),
        moon_from(738_571),
        solstice_on(738_571),
        moon_before(738_572),
        moon_before(738_571),
        moon_before(738_542),
        moon_before(738_512),
        moon_from(738_572),
        major_term(738_601),
    ];
    let values = [
        738_511, 738_876, 738_512, 738_542, 738_867, 11, 12, 738_571, 1, 738_571, 738_511, 738_571,
        738_542, 738_512, 738_483, 738_601, 2,
    ];
    let date = ChineseDate {
        cycle: 78,
        year: 40,
        month: 2,
        leap: true,
        day: 5,
    };
    day_over(alloc, &facts, &values, date)
}

/// A date of the 78th cycle.
fn dated(year: u8, month: u8, leap: bool, day: u8) -> ChineseDate {
    ChineseDate {
        cycle: 78,
        year,
        month,
        leap,
        day,
    }
}

#[test]
fn dates_follow_the_tables(rt: HostRuntime) {
    let alloc = rt.alloc();
    assert!(rt; date_of_2024(alloc) == (Ok(dated(41, 1, false, 1)), 5, 5));
    let missing = Stop::Missing(moon_before(738_927));
    assert!(rt; date_without_its_month(alloc) == (Err(missing), 4, 5));
    // No fact is asked twice.
    assert!(rt; date_of_2023(alloc) == (Ok(dated(40, 2, true, 1)), 18, 18));
    assert!(rt; date_of_2033(alloc) == (Ok(dated(50, 11, true, 1)), 9, 9));
    // False tables have dates too.
    assert!(rt; date_by_bounds(alloc) == (Ok(dated(40, 8, false, 0)), 5, 5));
    assert!(rt; date_in_a_circle(alloc) == (Ok(dated(40, 12, false, 1)), 8, 8));
}

#[test]
fn days_follow_the_tables(rt: HostRuntime) {
    assert!(rt; day_of_new_year(rt.alloc()) == (Ok(738_926), 8, 8));
    assert!(rt; day_of_leap_month(rt.alloc()) == (Ok(738_605), 17, 17));
}
