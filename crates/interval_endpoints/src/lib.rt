//! Two endpoints of an enclosure, over words of 64 and of 128 bits: what doesn't depend on the word stands here once. A
//! `MachineWord` is a whole number of so many bits and counts the units of a scale, 2⁻³⁶ in 64 bits and 2⁻⁵⁶ in 128. `Endpoints` are two
//! of them in order. An operation takes and gives an `Option` of endpoints: none stand for every number, and come where a word has
//! no room. Each holds what the operation on intervals gives (`holds`), and keeps the bound that the model promises at the
//! word's scale (`narrow`); sums, differences and opposites are exact besides (`endpoints`), and a hull, a lesser and a greater
//! are no wider than they must be (`tight`). `proofs` has the lemmas on endpoints at a scale, one for both scales.
//!
//! - `MachineWord`, `Endpoints`, `endpoints_of`: a word, two endpoints, those of so many units;
//! - `int_endpoints`, `add_endpoints`, `sub_endpoints`, `neg_endpoints`: whole numbers, sums, differences, opposites;
//! - `min_endpoints`, `max_endpoints`, `hull_endpoints`, `clamp_endpoints`: the lesser, the greater, the hull, what is cut to -1..1;
//! - `endpoints_of_fraction`, `scale_endpoints`, `widen_endpoints`, `denominator`: fractions, products with them, endpoints moved outwards by them;
//! - `endpoints_of_span`, `endpoints_at_fine_scale`: from endpoints in units of 2⁻⁵⁶, and to them;
//! - `parts`: one, and binary angles (fractions of a turn), in units of 2⁻⁵⁶;
//! - `order_of_endpoints`, `cell_of_endpoints`, `period_of_endpoints`, `rest_of_period`, `undecided_test_at`: the tests, and what an undecided one tells.
//!
//! It re-exports from `int_division` what the crates above divide by, so that these list one crate.
#![tactic(auto)]

mod comparing;
mod endpoints;
mod fractions;
pub mod parts;
mod ranges;
mod spans;
mod sums;
mod word;
mod wrapping;

pub use comparing::{cell_of_endpoints, order_of_endpoints, undecided_test_at};
pub use endpoints::Endpoints;
pub use fractions::{denominator, endpoints_of_fraction, scale_endpoints, widen_endpoints};
pub use int_division::{
    amod, ceil_div, floor_div, greatest_of, high_half, least_of, modulo, shr_floor, sorted,
};
pub use ranges::{clamp_endpoints, hull_endpoints, max_endpoints, min_endpoints};
pub use spans::{endpoints_at_fine_scale, endpoints_of_span};
pub use sums::{add_endpoints, endpoints_of, int_endpoints, neg_endpoints, sub_endpoints};
pub use word::MachineWord;
pub use wrapping::{period_of_endpoints, rest_of_period};
