//! Gregorian dates and days of an independent implementation, and the dates and days that there aren't.
use civil_core::{Civil, NoSuchDay, from_fixed, to_fixed};

/// Years, months and days with their day numbers.
const DAYS: [(i32, u8, u8, i64); 19] = [
    (1, 1, 1, 1),
    (1, 1, 31, 31),
    (1, 12, 31, 365),
    (4, 2, 29, 1_155),
    (100, 2, 28, 36_218),
    (100, 3, 1, 36_219),
    (400, 2, 29, 145_791),
    (1582, 10, 15, 577_736),
    (1802, 1, 1, 657_802),
    (1900, 2, 28, 693_654),
    (1900, 3, 1, 693_655),
    (1970, 1, 1, 719_163),
    (2000, 2, 29, 730_179),
    (2000, 12, 31, 730_485),
    (2024, 2, 10, 738_926),
    (2024, 2, 29, 738_945),
    (2048, 12, 31, 748_017),
    (9996, 2, 29, 3_650_658),
    (9999, 12, 31, 3_652_059),
];

const NO_DATES: [(i32, u8, u8); 19] = [
    (i32::MIN, 1, 1),
    (-2024, 2, 10),
    (0, 12, 31),
    (10_000, 1, 1),
    (67_560, 2, 10),
    (2024, 0, 1),
    (2024, 13, 1),
    (2024, 255, 1),
    (2024, 1, 0),
    (2024, 1, 32),
    (2024, 1, 255),
    (2024, 2, 30),
    (2024, 4, 31),
    (2024, 6, 31),
    (2024, 9, 31),
    (2024, 11, 31),
    (2023, 2, 29),
    (1900, 2, 29),
    (2100, 2, 29),
];

const NO_DAYS: [i64; 5] = [i64::MIN, -1, 0, 3_652_060, i64::MAX];

#[test]
fn dates_and_days_are_those_of_the_reference(rt: HostRuntime) {
    for (year, month, day, number) in DAYS {
        let date = Civil { year, month, day };
        assert!(rt; to_fixed(year, month, day) == Ok(number), "date {date:?}");
        assert!(rt; from_fixed(number) == Ok(date), "day {number}");
    }
    for (year, month, day) in NO_DATES {
        assert!(rt;
            to_fixed(year, month, day) == Err(NoSuchDay),
            "{year}-{month}-{day}"
        );
    }
    for day in NO_DAYS {
        assert!(rt; from_fixed(day) == Err(NoSuchDay), "day {day}");
    }
}
