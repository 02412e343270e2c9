//! Arctangents, arcsines and arccosines of enclosures, in degrees. Each makes no test and has no refusal, and holds the
//! model's at every depth from `DEPTH` on. The definitions are those of Reingold and Dershowitz, Calendrical
//! Calculations, chapter 14.
//!
//! - `arctan_deg`: over the closed pieces of the line that an enclosure meets;
//! - `arcsin_deg` and `arccos_deg`: of what is cut to -1..1 first;
//! - `arctan2_deg`: the angle of a direction, from -180 to 180.
#![tactic(auto)]

mod degrees;
mod kernel;
mod pieces;
mod quotients;
mod spans;

pub use degrees::{arccos_deg, arcsin_deg, arctan_deg, arctan2_deg};
