//! The shapes in which tables give polynomials and periodic terms.
use crate::Frac;

/// The coefficients of a quadratic polynomial.
#[derive(Clone, Copy)]
pub struct Quadratic {
    pub constant: Frac,
    pub linear: Frac,
    pub square: Frac,
}

/// The coefficients of a cubic polynomial.
#[derive(Clone, Copy)]
pub struct Cubic {
    pub constant: Frac,
    pub linear: Frac,
    pub square: Frac,
    pub cube: Frac,
}

// Whole numbers over one power of ten, so that a row's denominators are known to the compiler.
// Coefficients stay fractions, since the moon's have denominators like 538,841.
/// A periodic term in time: its size times the sine of its phase and its rate times the time. The phase is in
/// ten-millionths of a degree, the rate in the same a century, and the size in a unit of its table.
#[derive(Clone, Copy)]
pub struct PeriodicTerm {
    pub size: i64,
    pub phase: i64,
    pub rate: i64,
}

/// A periodic term whose angle is quadratic in time: its size times the sine of the angle, in degrees.
#[derive(Clone, Copy)]
pub struct QuadraticTerm {
    pub size: Frac,
    pub angle: Quadratic,
}

/// The coefficients of a polynomial of the fourth degree.
#[derive(Clone, Copy)]
pub struct Quartic {
    pub constant: Frac,
    pub linear: Frac,
    pub square: Frac,
    pub cube: Frac,
    pub fourth: Frac,
}
