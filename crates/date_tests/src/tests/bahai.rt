//! Dates over tables in memory, each compared with an independent implementation.
ghost use Rattle.std.specs.Prelude.{◌≡◌, ◌≤ℤ◌, pos, length, IsTrue};
ghost use Rattle.oracle_core.specs.Pairs.{AreFactValues, are_distinct};

use crate::tests::facts::bahai_year_on;
use bahai_cal::{BahaiDate, from_fixed};
use book_model::Fact;
use oracle_core::{Listed, Stop};
use std::alloc::Global;

/// The date of a day over a table, and the number of facts asked.
fn date_from_listed(
    alloc: Global,
    facts: &[Fact],
    values: &[i64],
    day: i64,
) -> (Result<BahaiDate, Stop>, usize)
    requires from { pos 0 ≤ℤ day }
    requires to { day ≤ℤ pos 1000000 }
    requires same { length facts.now ≡ length values.now }
    requires distinct { IsTrue (are_distinct facts.now) }
    requires known { AreFactValues values.now }
{
    let mut oracle = Listed::new(alloc, facts, values);
    let date = from_fixed(&mut oracle, day);
    (date, oracle.asked().len())
}

/// The date of the last day of Ayyám-i-Há in 2024.
fn last_day_of_ayyam_i_ha(alloc: Global) -> (Result<BahaiDate, Stop>, usize) {
    let facts = [
        bahai_year_on(738_945),
        bahai_year_on(739_148),
        bahai_year_on(738_782),
    ];
    date_from_listed(alloc, &facts, &[738_600, 738_965, 738_600], 738_945)
}

/// The date of the day after.
fn first_day_of_the_last_month(alloc: Global) -> (Result<BahaiDate, Stop>, usize) {
    let facts = [
        bahai_year_on(738_946),
        bahai_year_on(739_148),
        bahai_year_on(738_782),
    ];
    date_from_listed(alloc, &facts, &[738_600, 738_965, 738_600], 738_946)
}

/// The date of a day over a table without the first day of its year.
fn date_without_its_year(alloc: Global) -> (Result<BahaiDate, Stop>, usize) {
    let facts = [bahai_year_on(739_695), bahai_year_on(740_243)];
    date_from_listed(alloc, &facts, &[739_695, 740_061], 739_695)
}

/// The date of a day by values at their bounds.
fn date_by_bounds(alloc: Global) -> (Result<BahaiDate, Stop>, usize) {
    let facts = [
        bahai_year_on(0),
        bahai_year_on(-9_999_338),
        bahai_year_on(-9_999_703),
    ];
    date_from_listed(alloc, &facts, &[-10_000_000, 10_000_000, 10_000_000], 0)
}

/// A date of the year that is the tenth cycle's in the first major cycle.
fn date(year: u8, month: u8, day: u8) -> BahaiDate {
    BahaiDate {
        major: 1,
        cycle: 10,
        year,
        month,
        day,
    }
}

/// The date of values at their bounds.
const FAR: BahaiDate = BahaiDate {
    major: -80,
    cycle: 2,
    year: 1,
    month: 255,
    day: 0,
};

#[test]
fn dates_follow_the_tables(rt: HostRuntime) {
    let alloc = rt.alloc();
    assert!(rt; last_day_of_ayyam_i_ha(alloc) == (Ok(date(9, 0, 4)), 3));
    assert!(rt; first_day_of_the_last_month(alloc) == (Ok(date(9, 19, 1)), 3));
    let missing = Stop::Missing(bahai_year_on(739_878));
    assert!(rt; date_without_its_year(alloc) == (Err(missing), 2));
    // False tables have dates too.
    assert!(rt; date_by_bounds(alloc) == (Ok(FAR), 3));
}
