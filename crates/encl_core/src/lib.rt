//! Enclosures: what the code knows of a number. An enclosure shows an interval, and every operation gives one
//! that holds what the model's operation gives, and that is no wider than the model's bounds promise. So a
//! formula that is written over the trait holds its value, at whatever scale it runs. A test is made only where
//! the enclosures decide it; where they don't, it says which test that was and what the enclosures were.
//!
//! - `Enclosure`: the trait, with the clauses that formulas are proved from;
//! - `Trail`: the count of the tests of a run, and what it caches of what it may ask again (`Asked`);
//! - `Coarse`: the first kind, by endpoints of 64 bits in units of 2⁻³⁶;
//! - `floor_step`, `less_step` and `wrap_step`: the tests as steps of a formula's program;
//! - `first_day`: the search for the first day of which a `DayTest` is true;
//! - `lies_within`: whether an enclosure lies within another;
//! - `greatest_widths`: how wide the results of formulas are at most, a row for each;
//! - `parts`, `shr_floor`, `high_half`, `modulo`, `amod`: of `interval_endpoints`, re-exported to the formulas above.
//!
//! Widths through tests are said at the scale 2⁻⁵⁶ alone, for all widths of the argument (`Measured` of `Widths.antt`). That a
//! failure's bounds are close doesn't speak of the program, and so passes through `?`. Lemmas lead from the computed bound of an
//! expression to the width of what is enclosed (`Measuring`, `Covering`, `TermCovers`), and from the widths of a test's sides to
//! how far apart its endpoints lie where it is undecided (`Closing`).
#![tactic(auto)]

mod asked;
mod circle;
mod coarse;
mod enclosure;
mod fractions;
pub mod greatest_widths;
mod kept;
mod search;
mod span;
mod steps;
mod sums;
mod trail;
mod turning;
mod within;

pub use asked::Asked;
pub use circle::pi;
pub use coarse::Coarse;
pub use enclosure::Enclosure;
pub use interval_endpoints::{amod, high_half, modulo, parts, shr_floor};
pub use search::{DayTest, first_day};
pub use span::Span;
pub use steps::{floor_step, less_step, wrap_step};
pub use sums::{Term, sum_of_terms};
pub use trail::Trail;
pub use within::lies_within;
