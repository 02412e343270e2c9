//! The new moons: the moment of each by its number, counted from that of January of the year 1, as an enclosure. The
//! formula makes the test of its definition, and its answer holds what the definition gives, at every depth from `DEPTH`
//! on.
//!
//! - `new_moon`: the moment of a new moon, in universal time;
//! - `trail_with_first_moon`: a trail that keeps the first new moon that each walk asks;
//! - `eccentricity_factor`: by which a term is multiplied that takes the sun's anomaly, here and in the moon's longitude.
#![tactic(auto)]

mod angles;
mod months;
mod moons;
mod planets;

pub use months::eccentricity_factor;
pub use moons::{new_moon, trail_with_first_moon};
