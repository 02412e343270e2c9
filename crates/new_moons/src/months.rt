//! The polynomials of a new moon by its number. What a polynomial gains a month is a whole number of parts, so that its first two terms
//! are one fraction, which is rounded once; the others are small, and take powers of the centuries, which all polynomials share.
//! Horner's rule would multiply at each step what was rounded before.
//!
//! A number that is asked is at most 40,000,000 from 0, and counted from the new moon of January 2000, 24,724 months later, at most
//! 40,050,000: its parts are below 2⁶⁴ then, and are taken in 128 bits.
ghost use Rattle.std.specs.Prelude.{◌≡◌, ◌≤◌, ◌<◌, ◌-◌, ◌*◌, ◌^◌, ◌+ℤ◌, ◌*ℤ◌};
ghost use Rattle.book_model.specs.declared.new_moon_tables.TheConstants.{MEAN_NEW_MOON as MEAN, NEW_MOON_ANOMALY as MOON, NEW_MOON_LATITUDE_ARGUMENT as LATITUDE, NEW_MOON_NODE as NODE, NEW_MOON_SUN_ANOMALY as SUN, RECENT_DAYS};
ghost use Rattle.book_model.specs.numbers.Depth.{DEPTH};
ghost use Rattle.book_model.specs.numbers.Bounds.{Reach, limits_of};
ghost use Rattle.book_model.specs.numbers.Expressions.{Expression, World, multiply, scale};
ghost use Rattle.book_model.specs.numbers.Fractions.{fraction_of};
ghost use Rattle.book_model.specs.numbers.Polynomials.{polynomial_at, quadratic_of};
ghost use Rattle.book_model.specs.numbers.Relations.{Narrow, Within};
ghost use Rattle.book_model.specs.programs.Calls.{Encloses1, Encloses2};
ghost use Rattle.book_model.specs.programs.Widths.{IsAbout};
ghost use Rattle.book_model.specs.sky.NewMoons.{centuries_of_months, new_moon_angles_of};
ghost use Rattle.new_moons.specs.Angles.{HoldAngles};
ghost use Rattle.new_moons.specs.Months.{HoldPowers, cubic_sum};
ghost use Rattle.new_moons.specs.Widths.{AreNearAngles, ArePowers, IsNearMonth, IsNearTime, IsRecentMonth};

use crate::angles::Angles;
use book_model::Frac;
use book_model::moon_tables::ECCENTRICITY_FACTOR;
use book_model::new_moon_tables::{
    MEAN_NEW_MOON, NEW_MOON_ANOMALY, NEW_MOON_LATITUDE_ARGUMENT, NEW_MOON_NODE,
    NEW_MOON_SUN_ANOMALY,
};
use encl_core::Enclosure;

/// The first two terms of a polynomial by months: so many parts at the new moon of January 2000, and so many more a month, where so many
/// parts are a day or a degree. They are those of the polynomial's table: a century has 1236.85 months, and a second coefficient over
/// that ends after eight or nine decimals.
#[derive(Clone, Copy, Drop)]
pub(crate) struct Monthly {
    pub(crate) start: i64,
    pub(crate) month: i64,
    pub(crate) parts: u64,
}

/// The mean new moon, in days from noon of 1 January 2000: what it moves in a month is the synodic month.
const MEAN_BY_MONTHS: Monthly = Monthly {
    start: 5_097_660_000,
    month: 29_530_588_861,
    parts: 1_000_000_000,
};

/// The mean anomaly of the sun, in degrees, as the angles below.
const SUN_BY_MONTHS: Monthly = Monthly {
    start: 255_340_000,
    month: 2_910_535_670,
    parts: 100_000_000,
};

/// The mean anomaly of the moon.
const MOON_BY_MONTHS: Monthly = Monthly {
    start: 20_156_430_000,
    month: 38_581_693_528,
    parts: 100_000_000,
};

/// The argument of the moon's latitude.
const LATITUDE_BY_MONTHS: Monthly = Monthly {
    start: 16_071_080_000,
    month: 39_067_050_284,
    parts: 100_000_000,
};

/// The longitude of the moon's ascending node.
const NODE_BY_MONTHS: Monthly = Monthly {
    start: 12_477_460_000,
    month: -156_375_588,
    parts: 100_000_000,
};

/// A time in centuries, and its powers.
#[derive(Clone, Copy, Drop)]
pub(crate) struct Powers<E> {
    pub(crate) centuries: E,
    pub(crate) square: E,
    pub(crate) cube: E,
}

/// The powers of a time in centuries.
#[inline(always)]
pub(crate) fn powers_at<E: Enclosure>(time: Frac) -> Powers<E>
    ensures holds { (w : World) → DEPTH ≤ w.depth → HoldPowers E.shown w (fraction_of time) result }
    ensures measured { E.BITS ≡ 56 → IsNearTime (fraction_of time) → ArePowers E.shown result }
{
    let centuries = E::from_frac(time);
    let square = centuries.square();
    let cube = square.mul(centuries);
    Powers {
        centuries,
        square,
        cube,
    }
}

/// So many parts, and so many more for each month, which are rounded nowhere.
#[inline(always)]
fn parts_at(start: i64, month: i64, number: i64) -> i128
    ensures value { result ≡ start +ℤ month *ℤ number }
{
    i128::from(start) + i128::from(month) * i128::from(number)
}

// Inlined, as what calls it: the divisor is then a constant.
/// The first two terms at a number of months, counted from the new moon of January 2000: one fraction.
#[inline(always)]
fn first_terms(by: Monthly, number: i64) -> Frac
    requires some { 0 < by.parts }
    ensures value { fraction_of result ≡ record { num = by.start +ℤ by.month *ℤ number; below = by.parts - 1 } }
{
    Frac::new(parts_at(by.start, by.month, number), by.parts).unwrap()
}

/// A cubic polynomial by its first two terms.
#[inline(always)]
fn cubic_at<E: Enclosure>(first: E, square: Frac, cube: Frac, powers: Powers<E>) -> E
    ensures holds { (w : World) (f s k : Expression) → Within E.shown w f first
        → Within E.shown w s powers.square → Within E.shown w k powers.cube
        → Within E.shown w (cubic_sum (fraction_of square) (fraction_of cube) f s k) result }
    ensures narrow { (r : Reach) (f s k : Expression) → Narrow E.shown (limits_of E.BITS) r f first
        → Narrow E.shown (limits_of E.BITS) r s powers.square
        → Narrow E.shown (limits_of E.BITS) r k powers.cube
        → Narrow E.shown (limits_of E.BITS) r (cubic_sum (fraction_of square) (fraction_of cube) f s k) result }
{
    first
        .add(powers.square.mul_frac(square))
        .add(powers.cube.mul_frac(cube))
}

// The fourth power is the scaled cube times the time: the power itself is too large for the fine kind.
/// The last term of a quartic polynomial.
#[inline(always)]
fn fourth_at<E: Enclosure>(fourth: Frac, powers: Powers<E>) -> E
    ensures encloses { Encloses2 E.shown E.BITS (λ k c. multiply (scale (fraction_of fourth) k) c) powers.cube
        powers.centuries result }
{
    powers.cube.mul_frac(fourth).mul(powers.centuries)
}

/// The mean new moon, in days from noon of 1 January 2000.
#[inline(always)]
pub(crate) fn mean_by_months<E: Enclosure>(number: i64, powers: Powers<E>) -> E
    ensures holds { (w : World) → DEPTH ≤ w.depth
        → HoldPowers E.shown w (centuries_of_months number) powers
        → Within E.shown w (polynomial_at MEAN (centuries_of_months number)) result }
    ensures measured { E.BITS ≡ 56 → IsNearMonth number → ArePowers E.shown powers
        → IsAbout (2 ^ 53) (2 ^ 15) (E.shown result) }
    ensures recent { E.BITS ≡ 56 → IsRecentMonth number → ArePowers E.shown powers
        → IsAbout (RECENT_DAYS * 2 ^ 32) (2 ^ 15) (E.shown result) }
{
    cubic_at(
        E::from_frac(first_terms(MEAN_BY_MONTHS, number)),
        MEAN_NEW_MOON[2],
        MEAN_NEW_MOON[3],
        powers,
    )
    .add(fourth_at(MEAN_NEW_MOON[4], powers))
}

/// The longitude of the moon's ascending node.
#[inline(always)]
pub(crate) fn node_by_months<E: Enclosure>(number: i64, powers: Powers<E>) -> E
    ensures holds { (w : World) → DEPTH ≤ w.depth
        → HoldPowers E.shown w (centuries_of_months number) powers
        → Within E.shown w (polynomial_at NODE (centuries_of_months number)) result }
    ensures measured { E.BITS ≡ 56 → IsNearMonth number → ArePowers E.shown powers
        → IsAbout (2 ^ 57) (2 ^ 15) (E.shown result) }
{
    cubic_at(
        E::from_frac(first_terms(NODE_BY_MONTHS, number)),
        NEW_MOON_NODE[2],
        NEW_MOON_NODE[3],
        powers,
    )
}

/// The mean anomaly of the sun.
#[inline(always)]
fn sun_anomaly_by_months<E: Enclosure>(number: i64, powers: Powers<E>) -> E
    ensures holds { (w : World) → DEPTH ≤ w.depth
        → HoldPowers E.shown w (centuries_of_months number) powers
        → Within E.shown w (polynomial_at SUN (centuries_of_months number)) result }
    ensures measured { E.BITS ≡ 56 → IsNearMonth number → ArePowers E.shown powers
        → IsAbout (2 ^ 57) (2 ^ 15) (E.shown result) }
{
    cubic_at(
        E::from_frac(first_terms(SUN_BY_MONTHS, number)),
        NEW_MOON_SUN_ANOMALY[2],
        NEW_MOON_SUN_ANOMALY[3],
        powers,
    )
}

/// The mean anomaly of the moon.
#[inline(always)]
fn moon_anomaly_by_months<E: Enclosure>(number: i64, powers: Powers<E>) -> E
    ensures holds { (w : World) → DEPTH ≤ w.depth
        → HoldPowers E.shown w (centuries_of_months number) powers
        → Within E.shown w (polynomial_at MOON (centuries_of_months number)) result }
    ensures measured { E.BITS ≡ 56 → IsNearMonth number → ArePowers E.shown powers
        → IsAbout (2 ^ 57) (2 ^ 15) (E.shown result) }
{
    cubic_at(
        E::from_frac(first_terms(MOON_BY_MONTHS, number)),
        NEW_MOON_ANOMALY[2],
        NEW_MOON_ANOMALY[3],
        powers,
    )
    .add(fourth_at(NEW_MOON_ANOMALY[4], powers))
}

/// The argument of the moon's latitude.
#[inline(always)]
fn latitude_by_months<E: Enclosure>(number: i64, powers: Powers<E>) -> E
    ensures holds { (w : World) → DEPTH ≤ w.depth
        → HoldPowers E.shown w (centuries_of_months number) powers
        → Within E.shown w (polynomial_at LATITUDE (centuries_of_months number)) result }
    ensures measured { E.BITS ≡ 56 → IsNearMonth number → ArePowers E.shown powers
        → IsAbout (2 ^ 57) (2 ^ 15) (E.shown result) }
{
    cubic_at(
        E::from_frac(first_terms(LATITUDE_BY_MONTHS, number)),
        NEW_MOON_LATITUDE_ARGUMENT[2],
        NEW_MOON_LATITUDE_ARGUMENT[3],
        powers,
    )
    .add(fourth_at(NEW_MOON_LATITUDE_ARGUMENT[4], powers))
}

/// The factor of the eccentricity of the earth's orbit, by the centuries from noon of 1 January 2000.
#[tactic(auto, unfolding(book_model::specs::numbers::Polynomials::quadratic_of))]
pub fn eccentricity_factor<E: Enclosure>(c: E) -> E
    ensures encloses { Encloses1 E.shown E.BITS (quadratic_of ECCENTRICITY_FACTOR) c result }
{
    E::from_frac(ECCENTRICITY_FACTOR.constant)
        .add(c.mul_frac(ECCENTRICITY_FACTOR.linear))
        .add(c.square().mul_frac(ECCENTRICITY_FACTOR.square))
}

/// The angles of which the terms are made.
#[inline(always)]
pub(crate) fn angles_by_months<E: Enclosure>(number: i64, powers: Powers<E>) -> Angles<E>
    ensures holds { (w : World) → DEPTH ≤ w.depth
        → HoldPowers E.shown w (centuries_of_months number) powers
        → HoldAngles E.shown w (new_moon_angles_of (centuries_of_months number)) result }
    ensures measured { E.BITS ≡ 56 → IsNearMonth number → ArePowers E.shown powers
        → AreNearAngles E.shown result }
{
    Angles {
        sun_anomaly: sun_anomaly_by_months(number, powers),
        moon_anomaly: moon_anomaly_by_months(number, powers),
        latitude_argument: latitude_by_months(number, powers),
        eccentricity: eccentricity_factor(powers.centuries),
    }
}
