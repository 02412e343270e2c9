//! Answers facts one at a time: the contract of an evaluator, and oracles, which also keep the list of the facts
//! that they were asked. `Asking` asks an evaluator, `Listed` looks facts up in a list of facts with their values.
//! `CalendarDate` is what the dates of a calendar, which are found by facts, have in common; `three_fields` and `year_month_day`
//! turn dates of three fields into these and back.
#![tactic(auto)]

mod asking;
mod date;
mod evaluator;
mod fields;
mod kept;
pub mod laws;
mod listed;
mod lists;
mod noted;
mod oracle;

pub use asking::Asking;
pub use date::CalendarDate;
pub use evaluator::{Answer, Evaluator};
pub use fields::{three_fields, year_month_day};
pub use kept::Kept;
pub use listed::Listed;
pub use lists::{Answers, FactList, FactValues};
pub use oracle::{Oracle, Stop};
