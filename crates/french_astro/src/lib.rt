//! Dates of the French calendar of the Revolution by the equinox, over any oracle that answers facts: which facts are asked, in which
//! order, and what follows from their values. All of it is in whole numbers; the mean tropical year is an exact fraction. `date` asks
//! the oracle, `fields` has dates as the fields of a line.
#![tactic(auto)]

mod date;
mod fields;

pub use date::{FrenchDate, from_fixed, to_fixed};
