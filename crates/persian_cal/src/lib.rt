//! Dates of the Persian calendar by the equinox, over any oracle that answers facts: which facts are asked, in which
//! order, and what follows from their values. All of it is in whole numbers; the mean tropical year is an exact
//! fraction. `months` counts the months of a year, `date` asks the oracle, `fields` has dates as the fields of a line.
#![tactic(auto)]

mod date;
mod fields;
mod months;

pub use date::{PersianDate, from_fixed, to_fixed};
