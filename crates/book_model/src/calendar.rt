//! The calendars: the fields of a date and the years that are answered. Each calendar stands here once; the definitions
//! read the table too.
ghost use Rattle.std.specs.Prelude.{◌≡◌};

use crate::calendar_tables::FRENCH_EPOCH;

/// The last day whose date the calendars tell (R.D.).
pub const LAST_DATE_DAY: i64 = 1_000_000;

/// A calendar of dates: the Gregorian calendar, the day number of the book (R.D.), the Persian, the Bahá'í, the Chinese, the
/// Vietnamese, the Korean, the Japanese, the Islamic, the Hindu solar, the Hindu lunar, the French or the Hebrew calendar, whose
/// months begin by observation.
#[derive(Clone, Copy, Debug, PartialEq, Eq)]
pub enum Calendar {
    Gregorian,
    Fixed,
    Persian,
    Bahai,
    Chinese,
    Vietnamese,
    Korean,
    Japanese,
    Islamic,
    HinduSolar,
    HinduLunar,
    French,
    HebrewObserved,
}

/// What differs from calendar to calendar. The number of a date's year is the offset and the sum of the fields, each
/// times its weight.
#[derive(Clone, Copy)]
pub struct CalendarRow {
    pub calendar: Calendar,
    /// How many fields a date has.
    pub count: u8,
    /// The least and the greatest number of each field; those that a date hasn't are 0.
    pub limits: [(u32, u32); 5],
    /// What each field counts in the number of the year.
    pub weights: [i32; 5],
    /// The number of the year, less the weighed fields.
    pub offset: i32,
    /// The first day whose date the calendar tells (R.D.).
    pub first_day: i64,
    /// The first and the last number of a year that each version answers, in the order of the versions.
    pub years: [(i32, i32); 2],
    /// Whether a date has to be its day's own date.
    pub is_confirmed: bool,
    /// Whether a year is written with four digits, and a month and a day with two.
    pub is_padded: bool,
}

/// The calendars, in the order of their values. The days of Gregorian dates and day numbers are known without any fact
/// and tell which of them are answered.
#[rattlefmt::skip]
pub static CALENDARS: [CalendarRow; 13] = [
    CalendarRow { calendar: Calendar::Gregorian, count: 3, limits: [(1, 9999), (1, 12), (1, 31), (0, 0), (0, 0)],
        weights: [1, 0, 0, 0, 0], offset: 0, first_day: 1, years: [(1, 9999), (1, 9999)], is_confirmed: false, is_padded: true },
    CalendarRow { calendar: Calendar::Fixed, count: 1, limits: [(0, 9_999_999), (0, 0), (0, 0), (0, 0), (0, 0)],
        weights: [0, 0, 0, 0, 0], offset: 0, first_day: 0, years: [(0, 0), (0, 0)], is_confirmed: false, is_padded: false },
    CalendarRow { calendar: Calendar::Persian, count: 3, limits: [(1, 9999), (1, 12), (1, 31), (0, 0), (0, 0)],
        weights: [1, 0, 0, 0, 0], offset: 0, first_day: 0, years: [(1180, 1427), (1080, 1527)], is_confirmed: true, is_padded: false },
    CalendarRow { calendar: Calendar::Bahai, count: 5, limits: [(0, 9), (1, 19), (1, 19), (0, 19), (1, 19)],
        weights: [361, 19, 1, 0, 0], offset: -380, first_day: 0, years: [(-42, 205), (-142, 305)], is_confirmed: true, is_padded: false },
    CalendarRow { calendar: Calendar::Chinese, count: 5, limits: [(1, 99), (1, 60), (1, 12), (0, 1), (1, 30)],
        weights: [60, 1, 0, 0, 0], offset: -60, first_day: 0, years: [(4438, 4685), (4338, 4785)], is_confirmed: true, is_padded: false },
    CalendarRow { calendar: Calendar::Vietnamese, count: 5, limits: [(1, 99), (1, 60), (1, 12), (0, 1), (1, 30)],
        weights: [60, 1, 0, 0, 0], offset: -60, first_day: 0, years: [(4438, 4685), (4338, 4785)], is_confirmed: true, is_padded: false },
    CalendarRow { calendar: Calendar::Korean, count: 5, limits: [(1, 99), (1, 60), (1, 12), (0, 1), (1, 30)],
        weights: [60, 1, 0, 0, 0], offset: -60, first_day: 0, years: [(4438, 4685), (4338, 4785)], is_confirmed: true, is_padded: false },
    CalendarRow { calendar: Calendar::Japanese, count: 5, limits: [(1, 99), (1, 60), (1, 12), (0, 1), (1, 30)],
        weights: [60, 1, 0, 0, 0], offset: -60, first_day: 0, years: [(4438, 4685), (4338, 4785)], is_confirmed: true, is_padded: false },
    CalendarRow { calendar: Calendar::Islamic, count: 3, limits: [(1, 9999), (1, 12), (1, 30), (0, 0), (0, 0)],
        weights: [1, 0, 0, 0, 0], offset: 0, first_day: 0, years: [(1216, 1471), (1113, 1574)], is_confirmed: true, is_padded: false },
    CalendarRow { calendar: Calendar::HinduSolar, count: 3, limits: [(1, 9999), (1, 12), (1, 32), (0, 0), (0, 0)],
        weights: [1, 0, 0, 0, 0], offset: 0, first_day: 0, years: [(1723, 1970), (1623, 2070)], is_confirmed: true, is_padded: false },
    CalendarRow { calendar: Calendar::HinduLunar, count: 5, limits: [(1, 9999), (1, 12), (0, 1), (1, 30), (0, 1)],
        weights: [1, 0, 0, 0, 0], offset: 0, first_day: 0, years: [(1858, 2105), (1758, 2205)], is_confirmed: true, is_padded: false },
    CalendarRow { calendar: Calendar::French, count: 3, limits: [(1, 9999), (1, 13), (1, 30), (0, 0), (0, 0)],
        weights: [1, 0, 0, 0, 0], offset: 0, first_day: FRENCH_EPOCH, years: [(10, 257), (1, 357)], is_confirmed: true, is_padded: false },
    CalendarRow { calendar: Calendar::HebrewObserved, count: 3, limits: [(1, 9999), (1, 13), (1, 30), (0, 0), (0, 0)],
        weights: [1, 0, 0, 0, 0], offset: 0, first_day: 400, years: [(5562, 5809), (5462, 5909)], is_confirmed: true, is_padded: false },
];

impl Calendar {
    ghost use Rattle.book_model.specs.calendars.Dates.{row_of};

    // By the places of the table, each a constant: where a place is computed, the whole table is written to the stack at each
    // call, 350 instructions, and a line needs some four rows.
    /// What the calendar differs in.
    pub fn row(self) -> CalendarRow
        ensures row { result ≡ row_of self }
    {
        let rows = CALENDARS;
        match self {
            Calendar::Gregorian => rows[0],
            Calendar::Fixed => rows[1],
            Calendar::Persian => rows[2],
            Calendar::Bahai => rows[3],
            Calendar::Chinese => rows[4],
            Calendar::Vietnamese => rows[5],
            Calendar::Korean => rows[6],
            Calendar::Japanese => rows[7],
            Calendar::Islamic => rows[8],
            Calendar::HinduSolar => rows[9],
            Calendar::HinduLunar => rows[10],
            Calendar::French => rows[11],
            Calendar::HebrewObserved => rows[12],
        }
    }
}
