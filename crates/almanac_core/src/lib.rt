//! The lines of an almanac, of a year in the eastern calendars and of a sample, as requests.
//!
//! - `almanac_line`: one of the 104 lines of the almanac of a year, and `almanac_requests` all of them;
//! - `east_line`: one of the 52 lines of a year in the eastern calendars, and `east_requests` all of them;
//! - `sample_line`: a line of a large sample, by a generator, and `sample_requests` so many of them.
#![tactic(auto)]

mod almanac;
mod east;
pub mod laws;
mod numbers;
mod sample;

pub use almanac::{almanac_line, almanac_requests};
pub use east::{east_line, east_requests};
pub use sample::{sample_line, sample_requests};
