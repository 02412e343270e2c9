//! Enclosures by two endpoints of 128 bits in units of 2⁻⁵⁶: `Fine`, the second kind of `Enclosure`, for what the coarse one
//! leaves undecided. Every operation works on plain numbers of 128 bits; where one doesn't fit, nothing is known of the result.
#![tactic(auto)]

mod fine;

pub use fine::Fine;
