//! Dates of the Bahá'í calendar by the sunset of Tehran, over any oracle that answers facts: which facts are asked, in which
//! order, and what follows from their values. All of it is in whole numbers; the mean tropical year is an exact fraction.
//! `years` counts years and names their facts, `months` counts the months of a year, `date` asks the oracle, `fields` has dates
//! as the fields of a line.
#![tactic(auto)]

mod date;
mod fields;
mod months;
mod years;

pub use date::{BahaiDate, from_fixed, to_fixed};
