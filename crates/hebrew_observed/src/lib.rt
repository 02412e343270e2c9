//! Dates of the Hebrew calendar by observation, over any oracle that answers facts: which facts are asked, in which order, and what
//! follows from their values. All of it is in whole numbers. `months` counts months and names the facts, `date` asks the oracle,
//! `fields` has dates as the fields of a line.
#![tactic(auto)]

mod date;
mod fields;
mod months;

pub use date::{HebrewDate, from_fixed, to_fixed};
