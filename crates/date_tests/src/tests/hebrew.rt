//! Dates over tables in memory, each compared with an independent implementation.
ghost use Rattle.std.specs.Prelude.{◌≢◌, ◌≤ℤ◌, pos};

use crate::tests::facts::{hebrew_month_on, nisan_from, within};
use hebrew_observed::{HebrewDate, from_fixed, to_fixed};
use oracle_core::{Listed, Stop};
use std::alloc::Global;

/// The date of a day over a table of its month and of two first days of Nisan, and the number of facts asked.
fn date_from_listed(
    alloc: Global,
    day: i64,
    first: i64,
    nisan: (i64, i64),
    earlier: (i64, i64),
) -> (Result<HebrewDate, Stop>, usize)
    requires from { pos 400 ≤ℤ day }
    requires to { day ≤ℤ pos 1000000 }
    requires first_from { pos 0 ≤ℤ first }
    requires first_to { first ≤ℤ pos 1000000 }
    requires nisan_day_from { pos 0 ≤ℤ nisan.0 }
    requires nisan_day_to { nisan.0 ≤ℤ pos 1000000 }
    requires nisan_from { pos 0 ≤ℤ nisan.1 }
    requires nisan_to { nisan.1 ≤ℤ pos 1000000 }
    requires earlier_day_from { pos 0 ≤ℤ earlier.0 }
    requires earlier_day_to { earlier.0 ≤ℤ pos 1000000 }
    requires earlier_from { pos 0 ≤ℤ earlier.1 }
    requires earlier_to { earlier.1 ≤ℤ pos 1000000 }
    requires apart { nisan.0 ≢ earlier.0 }
{
    let facts = [
        hebrew_month_on(day),
        nisan_from(nisan.0),
        nisan_from(earlier.0),
    ];
    let values = [first, nisan.1, earlier.1];
    let mut oracle = Listed::new(alloc, &facts, &values);
    let date = from_fixed(&mut oracle, day);
    (date, oracle.asked().len())
}

/// The day of the first of Tishri 5785 over a table of its two facts: Nisan came last in 2024, and the month is asked by its middle.
#[tactic(auto, unfolding(book_model::specs::calendars::Dates::may_have, book_model::specs::calendars::Dates::has_some_year, book_model::specs::calendars::Dates::year_number))]
fn first_of_tishri(alloc: Global, nisan: i64, middle: i64) -> Result<i64, Stop>
    requires nisan_day_from { pos 0 ≤ℤ nisan }
    requires nisan_day_to { nisan ≤ℤ pos 1000000 }
    requires middle_from { pos 0 ≤ℤ middle }
    requires middle_to { middle ≤ℤ pos 1000000 }
{
    let facts = [nisan_from(nisan), hebrew_month_on(middle)];
    let mut oracle = Listed::new(alloc, &facts, &[738_957, 739_134]);
    to_fixed(
        &mut oracle,
        HebrewDate {
            year: 5785,
            month: 7,
            day: 1,
        },
    )
}

/// A day, the first day of its month, the first of Nisan in its Gregorian year and in the one before, each with the day of which it
/// is asked, the date, and how many facts are asked.
type Row = (i64, i64, (i64, i64), (i64, i64), (i32, u8, u8), usize);

#[rattlefmt::skip]
const ROWS: [Row; 6] = [
    (621_278, 621_277, (621_278, 621_366), (620_913, 620_983), (5462, 11, 2), 3),
    (738_926, 738_898, (738_886, 738_957), (738_521, 738_602), (5784, 11, 29), 3),
    (738_957, 738_957, (738_886, 738_957), (738_521, 738_602), (5784, 1, 1), 2),
    (739_163, 739_134, (738_886, 738_957), (738_521, 738_602), (5785, 7, 30), 2),
    (784_541, 784_523, (784_176, 784_257), (783_811, 783_902), (5909, 10, 19), 2),
    (654_415, 654_411, (654_150, 654_233), (653_785, 653_848), (5553, 7, 5), 2),
];

#[test]
fn dates_follow_the_table(rt: HostRuntime) {
    for (day, first, nisan, earlier, (year, month, number), facts) in ROWS {
        let date = HebrewDate {
            year,
            month,
            day: number,
        };
        let nisan = (
            within(&rt, nisan.0, 0, 1_000_000),
            within(&rt, nisan.1, 0, 1_000_000),
        );
        let earlier = (
            within(&rt, earlier.0, 0, 1_000_000),
            within(&rt, earlier.1, 0, 1_000_000),
        );
        assert!(rt; nisan.0 != earlier.0);
        let found = date_from_listed(
            rt.alloc(),
            within(&rt, day, 400, 1_000_000),
            within(&rt, first, 0, 1_000_000),
            nisan,
            earlier,
        );
        assert!(rt; found == (Ok(date), facts), "on {day}");
    }
}

#[test]
fn a_month_is_asked_by_its_middle(rt: HostRuntime) {
    assert!(rt; first_of_tishri(rt.alloc(), 738_886, 739_149) == Ok(739_134));
    let no_month = Stop::Missing(hebrew_month_on(739_149));
    assert!(rt; first_of_tishri(rt.alloc(), 738_886, 739_148) == Err(no_month));
    let no_year = Stop::Missing(nisan_from(738_886));
    assert!(rt; first_of_tishri(rt.alloc(), 738_521, 739_149) == Err(no_year));
}
