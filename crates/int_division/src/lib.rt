//! Exact steps on whole numbers of 128 bits, of which the endpoints of enclosures are made: quotients rounded down and up,
//! taken in 64 bits where that can be, and the lesser and the greater of numbers; and the quotients of counts that dates and
//! formulas share.
//!
//! - `floor_div` and `ceil_div`: a quotient, rounded down and up; `floor_div_i64`: one of 64 bits, rounded down;
//! - `shr_floor`: a number over a power of two, rounded down; `high_half`: the high half of a product;
//! - `sorted`, `least_of`, `greatest_of`: numbers in order, the least and the greatest of four;
//! - `quotient`, `quotient_up`, `quotient_before`, `wide_quotient`: quotients of counts as the definitions take them, and
//! `modulo` and `amod`: their remainders, from 0 and from 1 on.
#![tactic(auto)]

mod counts;
mod floors;
mod halves;
mod order;
mod shifts;

pub use counts::{amod, modulo, quotient, quotient_before, quotient_up, wide_quotient};
pub use floors::{ceil_div, floor_div, floor_div_i64};
pub use halves::high_half;
pub use order::{greatest_of, least_of, sorted};
pub use shifts::shr_floor;
