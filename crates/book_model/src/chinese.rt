//! What the rules of the Chinese calendar find on the way to a date.

// Both types stand here, since the definition of the Chinese rules speaks of them.
/// A sui, the span of the months from one winter solstice to the next: the day on which the month after the one of the first
/// solstice begins, and the day of the second solstice (both R.D.).
#[derive(Clone, Copy)]
pub struct Sui {
    pub first_month: i64,
    pub next_solstice: i64,
}

/// A month of the Chinese calendar: the day on which it begins (R.D.), its number from 1 to 12, and whether it is a leap month,
/// which has the number of the month before it.
#[derive(Clone, Copy)]
pub struct ChineseMonth {
    pub first_day: i64,
    pub number: i64,
    pub is_leap: bool,
}
