//! Arithmetic that calendars share: whole numbers of days, and of spans as a year or a month, whose length is an exact
//! fraction of a day. `spans` counts spans and their days, `endpoints` gives the nearest number of a type; the quotients of counts
//! are those of `int_division`.
#![tactic(auto)]

mod endpoints;
mod spans;

pub use endpoints::{to_8_bits, to_32_bits};
pub use int_division::{amod, modulo, quotient, quotient_before, quotient_up};
pub use spans::{days_of, days_of_years, months_of_days, spans_of, years_of_days};
