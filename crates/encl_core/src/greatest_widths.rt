//! How wide the answers of calls are at most at the scale 2⁻⁵⁶. Each row stands here once: clauses and tests read it.

// Rows, since clauses and a test read them. What a call keeps beyond its row stands in its own
// clause (`wide`): phases and longitudes of the moon are narrow also of moments at which their
// failures aren't close.
/// How wide an answer is at most: the width of the argument times a fraction, rounded down, and a slack. Widths are in units of 2⁻⁶⁴.
#[derive(Clone, Copy)]
pub struct WidthRow {
    pub numerator: u64,
    pub denominator: u64,
    pub slack: u64,
}

/// ΔT of a year, in days: 2⁻⁴⁷.
#[rattlefmt::skip]
pub const CORRECTION: WidthRow = WidthRow { numerator: 0, denominator: 1, slack: 131_072 };

/// Centuries of dynamical time, by the width of the moment: a 36525th of it, and 2⁻⁵².
#[rattlefmt::skip]
pub const CENTURIES: WidthRow = WidthRow { numerator: 1, denominator: 36_525, slack: 4_096 };

/// The longitude of the sun, in degrees, by the width of the moment: twice that, and 2⁻³².
#[rattlefmt::skip]
pub const SUN: WidthRow = WidthRow { numerator: 2, denominator: 1, slack: 4_294_967_296 };

/// The longitude of the moon, in degrees, by the width of the moment: 20 times that, and 2⁻²⁸.
#[rattlefmt::skip]
pub const MOON: WidthRow = WidthRow { numerator: 20, denominator: 1, slack: 68_719_476_736 };

/// The latitude of the moon, in degrees, by the width of the moment: four times that, and 2⁻²⁸.
#[rattlefmt::skip]
pub const LATITUDE: WidthRow = WidthRow { numerator: 4, denominator: 1, slack: 68_719_476_736 };

/// The distance of the moon, in kilometres, by the width of the moment: 16384 times that, and 2⁻²².
#[rattlefmt::skip]
pub const DISTANCE: WidthRow = WidthRow { numerator: 16_384, denominator: 1, slack: 4_398_046_511_104 };

/// The moment of a new moon by its number: 2⁻³⁴.
#[rattlefmt::skip]
pub const NEW_MOON: WidthRow = WidthRow { numerator: 0, denominator: 1, slack: 1_073_741_824 };

/// The phase of the moon, in degrees, by the width of the moment: 24 times that, and 2⁻²⁷.
#[rattlefmt::skip]
pub const PHASE: WidthRow = WidthRow { numerator: 24, denominator: 1, slack: 137_438_953_472 };

/// The equation of time, in days, by the width of the moment: a hundredth of it, and 2⁻³⁴.
#[rattlefmt::skip]
pub const EQUATION_OF_TIME: WidthRow = WidthRow { numerator: 1, denominator: 100, slack: 1_073_741_824 };

/// The longitude of the sun among the stars, in degrees, by the width of a moment from 1700 on: three times that, and 2⁻³⁰.
#[rattlefmt::skip]
pub const SIDEREAL_SUN: WidthRow = WidthRow { numerator: 3, denominator: 1, slack: 17_179_869_184 };

/// Sidereal time, in degrees and not reduced, by the width of the moment: 362 times that, and 2⁻²⁷.
#[rattlefmt::skip]
pub const SIDEREAL: WidthRow = WidthRow { numerator: 362, denominator: 1, slack: 137_438_953_472 };

/// One approximation of dawn or dusk, by the width of the moment: a twentieth of it, and 2⁻³².
#[rattlefmt::skip]
pub const TWILIGHT: WidthRow = WidthRow { numerator: 1, denominator: 20, slack: 4_294_967_296 };

/// The moment that a bisection finds, by the width of the wider of its bounds: that, and 2⁻⁴⁰.
#[rattlefmt::skip]
pub const BISECTION: WidthRow = WidthRow { numerator: 1, denominator: 1, slack: 16_777_216 };

/// Sine and cosine, by the width of the degrees: a 57th of it, and 2⁻⁵⁰.
#[rattlefmt::skip]
pub const SINE: WidthRow = WidthRow { numerator: 1, denominator: 57, slack: 16_384 };

/// The arctangent of two numbers, in degrees, by the width of the wider of them: 230 times that, and 2⁻⁴⁴.
#[rattlefmt::skip]
pub const ARCTANGENT_OF_TWO: WidthRow = WidthRow { numerator: 230, denominator: 1, slack: 1_048_576 };
