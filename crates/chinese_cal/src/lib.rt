//! Dates of the Chinese calendar by the new moons and the solar terms in Beijing, over any oracle that answers facts: which
//! facts are asked, in which order, and what follows from their values. All of it is in whole numbers; the mean synodic
//! month and the mean tropical year are exact fractions. `facts` names what is asked, `kept` holds the values of a call, and
//! `asks` asks what isn't cached. `sui` finds the months from one winter solstice to the next, `walk` goes back over its
//! months (`months_back`) and forwards to one without a major term, `leap_months` tells the leap month, `months` the month of
//! a day, `date` the date of a day, `years` the first day of a year, `day` the day of a date; `fields` has dates as the
//! fields of a line.
#![tactic(auto)]

mod asks;
mod date;
mod day;
mod facts;
mod fields;
mod kept;
mod leap_months;
mod months;
mod months_back;
mod sui;
mod walk;
mod years;

pub use date::{ChineseDate, from_fixed};
pub use day::to_fixed;
