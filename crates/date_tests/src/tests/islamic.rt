//! Dates over tables in memory, each compared with an independent implementation.
ghost use Rattle.std.specs.Prelude.{◌≤ℤ◌, pos};

use crate::tests::facts::{phasis_on, within};
use islamic_observed::{IslamicDate, from_fixed, to_fixed};
use oracle_core::{Listed, Stop};
use std::alloc::Global;

/// The date of a day over a table of its one fact, and the number of facts asked.
fn date_from_listed(
    alloc: Global,
    day: i64,
    listed: i64,
    value: i64,
) -> (Result<IslamicDate, Stop>, usize)
    requires from { pos 0 ≤ℤ day }
    requires to { day ≤ℤ pos 1000000 }
    requires listed_from { pos 0 ≤ℤ listed }
    requires listed_to { listed ≤ℤ pos 1000000 }
    requires value_from { pos 0 ≤ℤ value }
    requires value_to { value ≤ℤ pos 1000000 }
{
    let facts = [phasis_on(listed)];
    let values = [value];
    let mut oracle = Listed::new(alloc, &facts, &values);
    let date = from_fixed(&mut oracle, day);
    (date, oracle.asked().len())
}

/// The day of the first of Ramadan 1445 over a table of its fact, which is asked of the middle of the month.
#[tactic(auto, unfolding(book_model::specs::calendars::Dates::may_have, book_model::specs::calendars::Dates::has_some_year, book_model::specs::calendars::Dates::year_number))]
fn first_of_ramadan(alloc: Global) -> Result<i64, Stop> {
    let facts = [phasis_on(738_972)];
    let mut oracle = Listed::new(alloc, &facts, &[738_957]);
    to_fixed(
        &mut oracle,
        IslamicDate {
            year: 1445,
            month: 9,
            day: 1,
        },
    )
}

/// Days with the first day of their month by the table, and their year, month and day.
const ROWS: [(i64, i64, i32, u8, u8); 8] = [
    (738_957, 738_957, 1445, 9, 1),
    (738_986, 738_957, 1445, 9, 30),
    (738_956, 738_927, 1445, 8, 30),
    (657_802, 657_797, 1216, 9, 6),
    (227_015, 227_015, 1, 1, 1),
    (0, 0, -640, 6, 1),
    (0, 738_957, 1445, 9, 0),
    (738_957, 0, -640, 6, 255),
];

#[test]
fn dates_follow_the_table(rt: HostRuntime) {
    for (day, first, year, month, number) in ROWS {
        let date = IslamicDate {
            year,
            month,
            day: number,
        };
        let day = within(&rt, day, 0, 1_000_000);
        let first = within(&rt, first, 0, 1_000_000);
        let found = date_from_listed(rt.alloc(), day, day, first);
        assert!(rt; found == (Ok(date), 1), "day {day}");
    }
    // A month is asked by its middle.
    assert!(rt; first_of_ramadan(rt.alloc()) == Ok(738_957));
    // At a fact that is missing a call returns early.
    let missing = Stop::Missing(phasis_on(738_957));
    let found = date_from_listed(rt.alloc(), 738_957, 738_958, 738_957);
    assert!(rt; found == (Err(missing), 0));
}
