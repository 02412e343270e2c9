//! Dates and day numbers, each from the other.
ghost use Rattle.std.specs.Prelude.{◌↔◌, ◌≤ℤ◌, pos, IsTrue, IsOk, IfOk};
ghost use Rattle.civil_core.specs.Dates.{has_date, IsDateOfDay};

use crate::jiff_date::{date_on, day_number, find_date};

/// The last day of the year 9999 (R.D.).
const LAST_DAY: i64 = 3_652_059;

/// A Gregorian date: its year, its month from 1, and its day of the month from 1.
#[derive(Clone, Copy, Debug, PartialEq, Eq)]
pub struct Civil {
    pub year: i32,
    pub month: u8,
    pub day: u8,
}

/// The years 1 to 9999 have no such date, or no such day.
#[derive(Clone, Copy, Debug, PartialEq, Eq)]
pub struct NoSuchDay;

// Both calls share one relation of a date and its day (`IsDateOfDay`), so that each gives back what
// the other was given.
/// The day number (R.D.) of a Gregorian date: its year, its month from 1, and its day of the month from 1.
/// `NoSuchDay` comes exactly where the calendar has no such date, or the year isn't one of 1 to 9999.
///
/// ```
/// let day = civil_core::to_fixed(2024, 2, 10); // Ok(738_926)
/// let none = civil_core::to_fixed(2023, 2, 29); // Err(NoSuchDay)
/// ```
pub fn to_fixed(year: i32, month: u8, day: u8) -> Result<i64, NoSuchDay>
    ensures found { IsOk result ↔ IsTrue (has_date year month day) }
    ensures date { IfOk result (IsDateOfDay year month day) }
{
    match find_date(year, month, day) {
        Some(date) => Ok(day_number(date)),
        None => Err(NoSuchDay),
    }
}

/// The Gregorian date of a day number (R.D.). `NoSuchDay` comes exactly where the day isn't one of 1 to 3,652,059,
/// which are those of the years 1 to 9999.
///
/// ```
/// let date = civil_core::from_fixed(738_926); // Ok(Civil { year: 2024, month: 2, day: 10 })
/// ```
pub fn from_fixed(day: i64) -> Result<Civil, NoSuchDay>
    ensures found { IsOk result ↔ ((pos 1 ≤ℤ day) × (day ≤ℤ pos 3652059)) }
    ensures date { IfOk result (λ c. IsDateOfDay c.year c.month c.day day) }
{
    if day < 1 || LAST_DAY < day {
        return Err(NoSuchDay);
    }
    let date = date_on(day);
    Ok(Civil {
        year: i32::from(date.year()),
        month: date.month().unsigned_abs(),
        day: date.day().unsigned_abs(),
    })
}
