//! Dates and days over tables in memory, each compared with an independent implementation.
ghost use Rattle.std.specs.Prelude.{◌≢◌, ◌≤◌, ◌≤ℤ◌, pos, negsuc};
ghost use Rattle.book_model.specs.sky.Facts.{IsFactDay};

use crate::tests::facts::{nowruz_on, within};
use oracle_core::{Listed, Stop};
use persian_cal::{PersianDate, from_fixed, to_fixed};
use std::alloc::Global;
use std::process::Abort;

/// The date of a day over a table of its two facts, and the number of facts asked.
fn date_from_listed(
    alloc: Global,
    day: i64,
    first: i64,
    within: i64,
    new_year: i64,
) -> (Result<PersianDate, Stop>, usize)
    requires from { pos 0 ≤ℤ day }
    requires to { day ≤ℤ pos 1000000 }
    requires within { IsFactDay within }
    requires apart { within ≢ day }
    requires first_low { negsuc 9999999 ≤ℤ first }
    requires first_high { first ≤ℤ pos 10000000 }
    requires new_year_low { negsuc 9999999 ≤ℤ new_year }
    requires new_year_high { new_year ≤ℤ pos 10000000 }
{
    let facts = [nowruz_on(within), nowruz_on(day)];
    let values = [new_year, first];
    let mut oracle = Listed::new(alloc, &facts, &values);
    let date = from_fixed(&mut oracle, day);
    (date, oracle.asked().len())
}

/// The same over a table of one fact.
fn date_over_one(
    alloc: Global,
    day: i64,
    listed: i64,
    value: i64,
) -> (Result<PersianDate, Stop>, usize)
    requires from { pos 0 ≤ℤ day }
    requires to { day ≤ℤ pos 1000000 }
    requires listed { IsFactDay listed }
    requires low { negsuc 9999999 ≤ℤ value }
    requires high { value ≤ℤ pos 10000000 }
{
    let facts = [nowruz_on(listed)];
    let values = [value];
    let mut oracle = Listed::new(alloc, &facts, &values);
    let date = from_fixed(&mut oracle, day);
    (date, oracle.asked().len())
}

/// The day of a date over a table of its fact, and the number of facts asked.
fn day_over(
    alloc: Global,
    date: PersianDate,
    within: i64,
    new_year: i64,
) -> (Result<i64, Stop>, usize)
    requires from_1180 { pos 1180 ≤ℤ date.year }
    requires to_1427 { date.year ≤ℤ pos 1427 }
    requires from_first_month { 1 ≤ date.month }
    requires to_last_month { date.month ≤ 12 }
    requires from_first_day { 1 ≤ date.day }
    requires to_last_day { date.day ≤ 31 }
    requires within { IsFactDay within }
    requires low { negsuc 9999999 ≤ℤ new_year }
    requires high { new_year ≤ℤ pos 10000000 }
{
    let facts = [nowruz_on(within)];
    let values = [new_year];
    let mut oracle = Listed::new(alloc, &facts, &values);
    let day = to_fixed(&mut oracle, date);
    (day, oracle.asked().len())
}

/// A day, the first day of its year, the day that the new year is asked of, the new year, and the date.
type Row = (i64, i64, i64, i64, (i32, u8, u8));

const TRUE_ROWS: [Row; 12] = [
    (657_802, 657_516, 657_696, 657_516, (1180, 10, 11)),
    (738_599, 738_235, 738_415, 738_235, (1401, 12, 29)),
    (738_600, 738_600, 738_780, 738_600, (1402, 1, 1)),
    (738_964, 738_600, 738_780, 738_600, (1402, 12, 29)),
    (738_965, 738_965, 739_145, 738_965, (1403, 1, 1)),
    (739_150, 738_965, 739_145, 738_965, (1403, 6, 31)),
    (739_151, 738_965, 739_145, 738_965, (1403, 7, 1)),
    (739_180, 738_965, 739_145, 738_965, (1403, 7, 30)),
    (739_181, 738_965, 739_145, 738_965, (1403, 8, 1)),
    (739_330, 738_965, 739_145, 738_965, (1403, 12, 30)),
    (739_331, 739_331, 739_510, 739_331, (1404, 1, 1)),
    (748_017, 747_731, 747_911, 747_731, (1427, 10, 11)),
];

/// Rows of tables that are false.
const FALSE_ROWS: [Row; 9] = [
    (
        738_965,
        -10_000_000,
        -9_999_706,
        10_000_000,
        (-27999, 0, 30),
    ),
    (
        738_965,
        10_000_000,
        10_000_226,
        -10_000_000,
        (26759, 255, 10),
    ),
    (0, 10_000_000, 10_000_226, 10_000_000, (26759, 0, 12)),
    (
        1_000_000,
        -10_000_000,
        -9_999_706,
        -10_000_000,
        (-27999, 255, 15),
    ),
    (0, 226_896, 227_076, 226_896, (1, 0, 25)),
    (738_965, 738_965, 739_145, 731_337, (1403, 255, 3)),
    (738_965, 739_147, 739_145, 738_965, (1403, 1, 1)),
    (738_965, 738_782, 738_780, 738_965, (1402, 1, 1)),
    (738_965, 738_783, 739_145, 738_965, (1403, 1, 1)),
];

/// The dates of rows are found over tables of two facts, by asking both.
fn rows_hold(rt: &impl Abort, alloc: Global, rows: &[Row]) {
    for (day, first, of_day, new_year, (year, month, number)) in rows {
        let day = within(rt, *day, 0, 1_000_000);
        let of_day = within(rt, *of_day, -40_000_000, 40_000_000);
        assert!(rt; of_day != day);
        let first = within(rt, *first, -10_000_000, 10_000_000);
        let new_year = within(rt, *new_year, -10_000_000, 10_000_000);
        let date = PersianDate {
            year: *year,
            month: *month,
            day: *number,
        };
        let found = date_from_listed(alloc, day, first, of_day, new_year);
        assert!(rt; found == (Ok(date), 2), "on {day}");
    }
}

#[test]
fn dates_are_those_of_the_tables(rt: HostRuntime) {
    rows_hold(&rt, rt.alloc(), &TRUE_ROWS);
    rows_hold(&rt, rt.alloc(), &FALSE_ROWS);
}

#[test]
fn an_early_return_keeps_what_was_asked_before(rt: HostRuntime) {
    let second = date_over_one(rt.alloc(), 738_965, 738_965, 738_965);
    let missing = Stop::Missing(nowruz_on(739_145));
    assert!(rt; second == (Err(missing), 1));
    let first = date_over_one(rt.alloc(), 739_181, 739_145, 738_965);
    assert!(rt; first == (Err(Stop::Missing(nowruz_on(739_181))), 0));
    let date = date_of(&rt, 1403, 1, 1);
    let day = day_over(rt.alloc(), date, 738_965, 738_965);
    assert!(rt; day == (Err(missing), 0));
}

/// A date of these years.
fn date_of(rt: &impl Abort, year: i32, month: u8, day: u8) -> PersianDate
    ensures from_1180 { pos 1180 ≤ℤ result.year }
    ensures to_1427 { result.year ≤ℤ pos 1427 }
    ensures from_first_month { 1 ≤ result.month }
    ensures to_last_month { result.month ≤ 12 }
    ensures from_first_day { 1 ≤ result.day }
    ensures to_last_day { result.day ≤ 31 }
{
    assert!(rt; 1180 <= year);
    assert!(rt; year <= 1427);
    assert!(rt; 1 <= month);
    assert!(rt; month <= 12);
    assert!(rt; 1 <= day);
    assert!(rt; day <= 31);
    PersianDate { year, month, day }
}

/// A date, the day that its new year is asked of, the new year, and the day.
const DAYS: [(i32, u8, u8, i64, i64, i64); 12] = [
    (1180, 1, 1, 657_696, -10_000_000, -10_000_000),
    (1180, 10, 11, 657_696, 657_516, 657_802),
    (1402, 12, 29, 738_780, 738_600, 738_964),
    (1402, 12, 30, 738_780, 738_600, 738_965),
    (1403, 1, 1, 739_145, 738_965, 738_965),
    (1403, 6, 31, 739_145, 738_965, 739_150),
    (1403, 7, 1, 739_145, 738_965, 739_151),
    (1403, 7, 31, 739_145, 738_965, 739_181),
    (1403, 12, 30, 739_145, 738_965, 739_330),
    (1404, 1, 1, 739_510, 739_331, 739_331),
    (1427, 10, 11, 747_911, 747_731, 748_017),
    (1427, 12, 31, 747_911, 10_000_000, 10_000_366),
];

#[test]
fn days_are_those_of_the_dates(rt: HostRuntime) {
    for (year, month, day, of_day, new_year, want) in DAYS {
        let of_day = within(&rt, of_day, 0, 1_000_000);
        let new_year = within(&rt, new_year, -10_000_000, 10_000_000);
        let found = day_over(rt.alloc(), date_of(&rt, year, month, day), of_day, new_year);
        assert!(rt; found == (Ok(want), 1), "at {year}-{month}-{day}");
    }
}
