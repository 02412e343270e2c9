//! Dates over tables in memory, each compared with an independent implementation.
ghost use Rattle.std.specs.Prelude.{◌≤ℤ◌, pos, negsuc};

use crate::tests::facts::{french_year_on, within};
use french_astro::{FrenchDate, from_fixed, to_fixed};
use oracle_core::{Listed, Stop};
use std::alloc::Global;

/// The date of a day over a table of its one fact, and the number of facts asked.
fn date_from_listed(
    alloc: Global,
    day: i64,
    listed: i64,
    value: i64,
) -> (Result<FrenchDate, Stop>, usize)
    requires from { pos 654415 ≤ℤ day }
    requires to { day ≤ℤ pos 1000000 }
    requires listed_from { pos 0 ≤ℤ listed }
    requires listed_to { listed ≤ℤ pos 1000000 }
    requires value_from { negsuc 9999999 ≤ℤ value }
    requires value_to { value ≤ℤ pos 10000000 }
{
    let facts = [french_year_on(listed)];
    let values = [value];
    let mut oracle = Listed::new(alloc, &facts, &values);
    let date = from_fixed(&mut oracle, day);
    (date, oracle.asked().len())
}

/// The day of 4-13-6, which no day has, over a table of its fact, which is asked of the middle of the year.
#[tactic(auto, unfolding(book_model::specs::calendars::Dates::may_have, book_model::specs::calendars::Dates::has_some_year, book_model::specs::calendars::Dates::year_number))]
fn sixth_day_of_the_year_4(alloc: Global, listed: i64) -> Result<i64, Stop>
    requires listed_from { pos 0 ≤ℤ listed }
    requires listed_to { listed ≤ℤ pos 1000000 }
{
    let facts = [french_year_on(listed)];
    let mut oracle = Listed::new(alloc, &facts, &[655_511]);
    to_fixed(
        &mut oracle,
        FrenchDate {
            year: 4,
            month: 13,
            day: 6,
        },
    )
}

/// Days with the first day of their year by the table, and their year, month and day.
const ROWS: [(i64, i64, i32, u8, u8); 9] = [
    (654_415, 654_415, 1, 1, 1),
    (655_510, 655_145, 3, 13, 6),
    (655_511, 655_511, 4, 1, 1),
    (655_875, 655_511, 4, 13, 5),
    (739_151, 739_151, 233, 1, 1),
    (784_541, 784_441, 357, 4, 11),
    (655_511, 655_512, 4, 0, 30),
    (739_151, -10_000_000, -29_170, 255, 22),
    (1_000_000, 10_000_000, 25_588, 0, 1),
];

#[test]
fn dates_follow_the_table(rt: HostRuntime) {
    for (day, first, year, month, number) in ROWS {
        let date = FrenchDate {
            year,
            month,
            day: number,
        };
        let day = within(&rt, day, 654_415, 1_000_000);
        let first = within(&rt, first, -10_000_000, 10_000_000);
        let found = date_from_listed(rt.alloc(), day, day, first);
        assert!(rt; found == (Ok(date), 1), "day {day}");
    }
    let missing = Stop::Missing(french_year_on(739_151));
    let found = date_from_listed(rt.alloc(), 739_151, 739_150, 739_151);
    assert!(rt; found == (Err(missing), 0));
}

#[test]
fn a_year_is_asked_by_its_middle(rt: HostRuntime) {
    assert!(rt; sixth_day_of_the_year_4(rt.alloc(), 655_690) == Ok(655_876));
    let missing = Stop::Missing(french_year_on(655_690));
    assert!(rt; sixth_day_of_the_year_4(rt.alloc(), 655_691) == Err(missing));
}
