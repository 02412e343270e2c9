//! Bisection over any angle that grows with time: the moment at which it passes a given angle. Angles are in degrees.
//!
//! - `Angular`: such an angle, as a formula and as calls: at a moment, and by its linear model over an interval of time;
//! - `invert_angular`: the bisection, which tries each iteration by a linear model first; `HALF_TURN`, 180 degrees.
#![tactic(auto)]

mod angular;
mod bisection;
mod known;
mod narrowings;
mod tries;

pub use angular::Angular;
pub use bisection::{HALF_TURN, invert_angular};
