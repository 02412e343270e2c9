//! The moon over the horizon: its distance, its observed altitude at a location, and the minutes of a day in which it rises and sets.
//! Angles are in degrees, moments in days (R.D., with a fraction) of universal time, all as enclosures. Each formula makes the tests of
//! its definition in the same order, and its answer holds what the definition gives, at every depth from `DEPTH` on.
//!
//! - `distance`: in kilometres; `observed`: the altitude at which the moon's upper edge is seen;
//! - `moonrise`, `moonset`: a day is walked in quarters of an hour, and the first in which the moon comes over the horizon, or goes below
//!   it, is halved four times; quarters in which it can't are passed over, by one altitude over hours;
//! - `laws`: what a minute that is found says.
//!
//! Three numbers are computed in another order than defined, since an enclosure can't hold the parts of the defined
//! one: the distance, the parallax and a moment. A lemma each says that both are one number (`thousandth_holds`,
//! `parallax_holds`, `moment_holds`).
#![tactic(auto)]

mod altitudes;
mod distances;
pub mod laws;
mod moments;
mod rises;
mod steady_intervals;
mod walk;

pub use altitudes::observed;
pub use distances::distance;
pub use rises::{moonrise, moonset};
