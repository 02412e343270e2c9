//! Numbers in units of 2⁻⁵⁶: of one, of a day, of a degree; and one in units of 2⁻³⁶.

/// One, a day, or a degree.
pub const ONE: i128 = 1 << 56;

/// One, in 64 bits.
pub const NATURAL_ONE: u64 = 1 << 56;

/// One, in units of 2⁻³⁶.
pub const ONE_36: i64 = 1 << 36;

/// One, in units of 2⁻³⁶, in 128 bits.
pub const WIDE_ONE_36: i128 = 1 << 36;

/// A half.
pub const HALF: i128 = 1 << 55;

/// Three.
pub const THREE: i128 = 3 << 56;

/// 45 degrees, in 64 bits.
pub const OCTANT: u64 = 45 << 56;

/// 45 degrees.
pub const WIDE_OCTANT: i128 = 45 << 56;

/// 90 degrees.
pub const QUARTER: i128 = 90 << 56;

/// 180 degrees.
pub const HALF_TURN: i128 = 180 << 56;

/// 360 degrees.
pub const TURN: i128 = 360 << 56;
