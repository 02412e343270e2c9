//! Gregorian dates of the years 1 to 9999 and their day numbers (R.D.): day 1 is 1 January of the year 1, and day
//! 3,652,059 is 31 December of the year 9999. The dates are those of `jiff`. Nothing here takes memory.
//!
//! - `to_fixed`: the day number of a date;
//! - `from_fixed`: the date of a day number, as a `Civil`;
//! - `year_of`: the year of any day number; `first_of_january`, `first_of_july`: the day numbers of 1 January and 1 July of a year.
#![tactic(auto)]

mod civil;
mod jiff_date;
mod years;

pub use civil::{Civil, NoSuchDay, from_fixed, to_fixed};
pub use years::{first_of_january, first_of_july, year_of};
