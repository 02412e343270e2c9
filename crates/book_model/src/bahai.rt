//! What the rules of the Bahá'í calendar find on the way to a date and to a day.

// Both types stand here, since the definition of the Bahá'í rules speaks of them.
/// A month of the Bahá'í calendar: its number from 1 to 19, or 0 for Ayyám-i-Há, and the day on which it begins (R.D.).
#[derive(Clone, Copy)]
pub struct BahaiMonth {
    pub number: i64,
    pub first_day: i64,
}

/// From where a month is counted: the first day of the year before which so many years have passed since the epoch, and the days
/// from it to the first day of the month, which are below 0 where the month comes before it.
#[derive(Clone, Copy)]
pub struct MonthStart {
    pub passed: i64,
    pub days: i64,
}
