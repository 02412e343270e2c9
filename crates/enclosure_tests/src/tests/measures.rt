//! How close an enclosure is to an expected value.
use encl_core::{Coarse, Enclosure};

/// A unit of `Coarse`, in units of 2⁻⁵⁶.
pub const UNIT: i128 = 1_048_576;

/// Whether an enclosure holds a number, given as its floor at 2⁻⁵⁶, and is at most so wide, in 2⁻⁵⁶.
pub fn is_within<E: Enclosure>(found: E, value: i128, most: i128) -> bool {
    match found.span() {
        Some(span) => span.lo <= value
            && value <= span.hi
            && span.hi.saturating_sub(span.lo) <= most,
        None => false,
    }
}

/// The same by units of `Coarse`.
pub fn is_near(found: Coarse, value: i128, units: i128) -> bool {
    is_within(found, value, units.saturating_mul(UNIT))
}

/// The next of a sequence of numbers that look random.
pub fn after(state: u64) -> u64 {
    state
        .wrapping_mul(6_364_136_223_846_793_005)
        .wrapping_add(1_442_695_040_888_963_407)
}
