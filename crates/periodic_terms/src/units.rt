//! Whole numbers with their units, as one function of a kernel hands them to the next: each type is named for its quantity and for its
//! scale, a power of two, so that a number in one unit can't be taken for one in another.
//!
//! A type whose field has a name bounds its number, and says of what the bound comes: a function that takes one has the bound without a
//! condition of its own. A type whose field has none holds any number of its width.
ghost use Rattle.std.specs.Prelude.{◌≤◌, ◌*◌, ◌^◌, pos, neg_ℤ, ◌≤ℤ◌};
ghost use Rattle.encl_core.specs.parts.TheConstants.{OCTANT};

/// A binary angle, in 2⁻⁶⁴ turns: it wraps at a turn as its number does, and whole turns are left out by themselves.
#[derive(Clone, Copy)]
pub struct Turns64(pub u64);

/// An angle with its whole turns, in 2⁻⁶⁴ turns.
#[derive(Clone, Copy)]
pub(crate) struct ManyTurns64(pub i128);

/// A rate, in 2⁻⁸⁰ turns a day, or a month where months stand for days.
#[derive(Clone, Copy)]
pub struct Rate80(pub i128);

/// A rate times days, in 2⁻¹²⁸ turns: 80 and 48 binary places make 128, so that it wraps at a turn too.
#[derive(Clone, Copy)]
pub(crate) struct Turns128(pub i128);

/// Days, in 2⁻⁴⁸, at most 2²⁰ from 0.
#[derive(Clone, Copy)]
pub(crate) struct Days48 {
    pub count: i128,
    ghost least: { neg_ℤ (pos (2 ^ 68)) ≤ℤ count },
    ghost greatest: { count ≤ℤ pos (2 ^ 68) },
}

/// How far days are apart, in 2⁻⁵⁶: 64 bits hold 256 of them.
#[derive(Clone, Copy)]
pub(crate) struct Days56(pub u64);

/// An angle in 2⁻⁵⁶ degrees, at most 2²⁵ degrees from 0: the fastest mean angle, of 483,202 degrees a century, goes 12.1 million from the
/// year 2000 back to where the table of ΔT begins, 25 centuries before, and 2²⁵ are 33.5 million.
#[derive(Clone, Copy)]
pub(crate) struct Degrees56 {
    pub count: i128,
    ghost least: { neg_ℤ (pos (2 ^ 81)) ≤ℤ count },
    ghost greatest: { count ≤ℤ pos (2 ^ 81) },
}

/// The same in 2⁻³⁷ degrees, which 64 bits hold: 2²⁵ degrees are 2⁶² of these.
#[derive(Clone, Copy)]
pub(crate) struct Degrees37 {
    pub count: i64,
    ghost least: { neg_ℤ (pos (2 ^ 62)) ≤ℤ count },
    ghost greatest: { count ≤ℤ pos (2 ^ 62) },
}

/// How far an angle may be off, in 2⁻⁶¹ degrees, at most 2 degrees: 2⁻⁶⁴ turns are 45 of these, so that an angle in either unit has a
/// whole number of them.
#[derive(Clone, Copy)]
pub(crate) struct Degrees61 {
    pub count: u64,
    ghost small: { count ≤ 2 ^ 62 },
}

/// How far an angle is into its octant, in 2⁻⁵⁶ degrees.
#[derive(Clone, Copy)]
pub(crate) struct OctantDegrees56 {
    pub count: u64,
    ghost octant: { count ≤ OCTANT },
}

/// A sine, in 2⁻⁵⁶.
#[derive(Clone, Copy)]
pub struct Sine56 {
    pub count: i64,
    pub ghost from: { neg_ℤ (pos (2 ^ 56)) ≤ℤ count },
    pub ghost to: { count ≤ℤ pos (2 ^ 56) },
}

/// A sine times a power of the eccentricity's factor, which is at most 5 / 4, in 2⁻⁵⁶.
#[derive(Clone, Copy)]
pub(crate) struct FactoredSine56 {
    pub count: i64,
    ghost from: { neg_ℤ (pos (5 * 2 ^ 54)) ≤ℤ count },
    ghost to: { count ≤ℤ pos (5 * 2 ^ 54) },
}

/// A factor, or how far one may be off, in 2⁻⁵⁶.
#[derive(Clone, Copy)]
pub(crate) struct Factor56(pub u64);

/// A bound of factors, in 2⁻³⁷, rounded up. Times a sine in 2⁻⁵⁶ it makes 2⁻⁹³, of which 128 bits hold 2³⁴ units of a sum.
#[derive(Clone, Copy)]
pub(crate) struct Factor37(pub u64);

/// A sum of sizes times sines, in 2⁻⁵⁶ of the unit of the sizes.
#[derive(Clone, Copy)]
pub(crate) struct Sum56(pub i128);

/// A sum of sizes times sines and factors, in 2⁻⁹³ of the unit of the sizes: a sine in 2⁻⁵⁶ times a factor in 2⁻³⁷.
#[derive(Clone, Copy)]
pub(crate) struct Sum93(pub i128);

/// Between what a sum of rows lies, in 2⁻⁹³ of the unit of their sizes. It leaves 128 bits room for one more, since an endpoint is the sum
/// of two numbers below 2¹²⁵.
#[derive(Clone, Copy)]
pub(crate) struct Span93 {
    pub lo: i128,
    pub hi: i128,
    ghost ordered: { lo ≤ℤ hi },
    ghost low: { neg_ℤ (pos (2 ^ 126)) ≤ℤ lo },
    ghost high: { hi ≤ℤ pos (2 ^ 126) },
}
