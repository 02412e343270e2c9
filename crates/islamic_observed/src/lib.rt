//! Dates of the Islamic calendar by observation, over any oracle that answers facts: which facts are asked, in which order, and
//! what follows from their values. All of it is in whole numbers; the mean synodic month is an exact fraction. `months` counts
//! months and names their facts, `date` asks the oracle, `fields` has dates as the fields of a line.
#![tactic(auto)]

mod date;
mod fields;
mod months;

pub use date::{IslamicDate, from_fixed, to_fixed};
