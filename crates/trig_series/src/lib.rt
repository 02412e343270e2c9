//! The sine, the cosine and the tangent of enclosures of degrees. Each makes no test and has no refusal, and holds
//! the model's at every depth from `DEPTH` on.
//!
//! - `sin_deg`, `cos_deg` and `tan_deg`: of degrees, which are reduced exactly;
//! - `pi`: the number, from the crate of the enclosures;
//! - `wave_of_degrees_56`: the sine or the cosine (`Wave`) of the degrees of one octant in 64 bits, on which the others stand, and sums of
//!   periodic terms in whole numbers too.
#![tactic(auto)]

mod degrees;
mod kernel;
mod octants;
mod parts;
mod points;
mod waves;

pub use degrees::{cos_deg, sin_deg, tan_deg};
pub use encl_core::pi;
pub use kernel::wave_of_degrees_56;
pub use waves::Wave;
