//! Mean angles and their factor, and these as whole numbers.
ghost use Rattle.std.specs.Prelude.{◌≤◌, ◌+◌, ◌*◌, ◌^◌};

use crate::units::{Degrees61, Factor37, Factor56, Turns64};

/// The moon's mean elongation from the sun, the mean anomalies of the sun and of the moon and the argument of the moon's
/// latitude, in degrees, and the factor of the eccentricity of the earth's orbit.
#[derive(Clone, Copy, Drop)]
pub struct MeanAngles<E> {
    pub elongation: E,
    pub sun_anomaly: E,
    pub moon_anomaly: E,
    pub latitude_argument: E,
    pub eccentricity: E,
}

/// A mean angle, whole turns left out, and how far it may be from that; these say nothing where it isn't known well enough.
#[derive(Clone, Copy)]
pub(crate) struct MeanTurn {
    pub turn: Turns64,
    pub half: Degrees61,
    pub known: bool,
}

/// The factor of the eccentricity and its square, how far each may be from that, and what neither is above, nor 1. In the years of
/// which ΔT is known the factor is from 0.99 to 1.06, so that its square is below 5 / 4 too.
#[derive(Clone, Copy)]
pub(crate) struct MeanFactors {
    pub first: Factor56,
    pub second: Factor56,
    pub wide: Factor56,
    pub greatest: Factor37,
    ghost first_low: { wide.0 ≤ first.0 },
    ghost first_high: { first.0 + wide.0 ≤ greatest.0 * 2 ^ 19 },
    ghost second_low: { wide.0 ≤ second.0 },
    ghost second_high: { second.0 + wide.0 ≤ greatest.0 * 2 ^ 19 },
    ghost least: { 2 ^ 37 ≤ greatest.0 },
    ghost small: { greatest.0 ≤ 5 * 2 ^ 35 },
}

/// The mean angles of a moment, each with how far it may be off by itself, and the factor of the eccentricity.
#[derive(Clone, Copy)]
pub(crate) struct MeanTurns {
    pub elongation: MeanTurn,
    pub sun_anomaly: MeanTurn,
    pub moon_anomaly: MeanTurn,
    pub latitude_argument: MeanTurn,
    pub factors: MeanFactors,
}

/// A factor from 0 to 4, and how far it may be from that: so far 64 bits hold a sum of two.
#[derive(Clone, Copy)]
pub(crate) struct MeanFactor {
    pub middle: Factor56,
    pub wide: Factor56,
    ghost small: { middle.0 ≤ 2 ^ 58 },
    ghost narrow: { wide.0 ≤ 2 ^ 58 },
}
