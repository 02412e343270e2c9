//! Dates of the Hindu calendars, solar and lunar, over any oracle that answers facts: which facts are asked, in which order, and
//! what follows from their values. All of it is in whole numbers; the mean sidereal year is an exact fraction. `months` counts
//! months by the mean sun, `facts` names the facts; `solar` and `lunar` ask the oracle, and have dates as the fields of a line.
#![tactic(auto)]

mod facts;
pub mod lunar;
mod months;
pub mod solar;
