//! Sums of the periodic terms of a table in whole numbers: one pass over its rows at the middle of each argument, and one radius for what
//! the roundings and the widths of the arguments may add. A row costs a few products of whole numbers, where an enclosure of each term
//! reduces an angle, takes a sine and rounds a product by itself. An angle is a count of parts of a turn, which wraps at a turn as its
//! number does, so that nothing is reduced. What is left out anywhere is in the radius: so the result holds the definition's sum, at every
//! depth from `DEPTH` on, and it is never wider than any sum of the rows.
//!
//! The terms of the sun and of the planets go by the days: each has a phase and a rate.
//!
//! - `sum_of_periodic_terms`: the sum of the rows of a table over days as an enclosure of any kind, and `sum_over` over a span of days;
//! - `TurningTerm`: a row by turns and days, which are `Turns64` and `Rate80`;
//! - `sine_at_turn`: the sine at a binary angle, a `Sine56`.
//!
//! The terms of the moon go by a few mean angles: each takes multiples of these, and a power of the eccentricity's factor.
//!
//! - `MeanAngles`: the mean angles and the factor;
//! - `longitude_terms`, `latitude_terms`, `distance_terms`: the sums of the moon's terms; `new_moon_terms`: those of a new moon;
//! - `greatest_terms`, `other_terms`: the two parts of the longitude's, of which a linear model keeps the other one.
//!
//! The sines of `trig_series` are re-exported to the formulas above.
//!
//! Within, a table's row becomes `Multiples` (the trait `MultipleRow`), the mean angles become turns (`mean_turns`, `two_turns`), and
//! `sum_of_rows` sums the rows. Numbers pass from one function to the next with their units as types (`units`).
#![tactic(auto)]

mod angle_turns;
mod by_time;
mod mean;
mod rows_by_time;
mod sines;
mod spans_by_time;
mod sums_by_time;
mod tables;
mod term_rows;
mod term_spans;
mod term_sums;
mod units;

pub use by_time::sum_of_periodic_terms;
pub use mean::MeanAngles;
pub use rows_by_time::TurningTerm;
pub use sines::sine_at_turn;
pub use spans_by_time::sum_over;
pub use tables::{
    distance_terms, greatest_terms, latitude_terms, longitude_terms, new_moon_terms, other_terms,
};
pub use trig_series::{cos_deg, pi, sin_deg, tan_deg};
pub use units::{Rate80, Sine56, Turns64};
