//! Products, squares, quotients and roots of endpoints, over words of 64 and of 128 bits: each rule stands here once. What
//! differs from word to word is its own arithmetic, the methods of `RoundingWord`: a product in 64 bits always fits in 128,
//! and one of 128 bits may not; a quotient of 128 bits is taken in two steps, where the dividend can't be raised to the scale.
//! Each method says when it has no room (`none`), and an operation gives no endpoints there, which stand for every number. An
//! operation holds what the one on intervals gives (`holds`), keeps the bound that the model promises at the word's scale
//! (`narrow`), and says how far apart its endpoints are (`close`) and when 128 bits have room for them (`some`).
//!
//! - `RoundingWord`: a word's products, quotients and roots, rounded to its scale;
//! - `mul_endpoints`, `square_endpoints`: products and squares;
//! - `div_endpoints`: quotients; every number, where the divisor may be 0;
//! - `root_endpoints`: roots; a negative number counts as 0.
//!
//! These stand apart from `interval_endpoints`, since a crate has at most a hundred functions.
#![tactic(auto)]

mod dividing;
mod products;
mod roots;
mod stepping;
mod whole_roots;
mod word;

pub use dividing::div_endpoints;
pub use products::{mul_endpoints, square_endpoints};
pub use roots::root_endpoints;
pub use word::RoundingWord;
