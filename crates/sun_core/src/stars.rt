//! Precession, and the longitude of the sun among the stars.
ghost use Rattle.book_model.specs.programs.Calls.{Encloses1, Encloses2, Encloses3, Follows1};
ghost use Rattle.book_model.specs.programs.Widths.{IsAbout, IsUpTo, Measured1, IsSince};
ghost use Rattle.std.specs.Prelude.{◌≡◌, ◌≤◌, ◌+◌, ◌*◌, ◌/◌, ◌^◌, ℕ, Ok, IfOk, IfErr};
ghost use Rattle.book_model.specs.Interval.{Interval};
ghost use Rattle.book_model.specs.numbers.Polynomials.{cubic_of, quadratic_of};
ghost use Rattle.book_model.specs.sky.Sidereal as spec;
ghost use Rattle.encl_core.specs.declared.greatest_widths.TheConstants.{SIDEREAL_SUN};
ghost use Rattle.encl_core.specs.GreatestWidths.{greatest_of};
ghost use Rattle.time_scales.specs.Steps.{IsYearUndecidedFor};
ghost use Rattle.time_scales.specs.Widths.{AreRecentCenturies};
ghost use Rattle.sun_core.specs.Widths.{IsTilt, IsCrossing, IsAdvance};
ghost use Rattle.book_model.specs.declared.time_tables.TheConstants.{RECENT_START};

use crate::linear_models::{SunLinearModel, sun_by};
use crate::longitude::sun;
use arc_series::arctan2_deg;
use book_model::sun_tables::{ECLIPTIC_CROSSING, ECLIPTIC_TILT, EQUINOX_ADVANCE, SIDEREAL_START};
use book_model::{Fail, Site};
use encl_core::{Enclosure, Trail, wrap_step};
use periodic_terms::{cos_deg, sin_deg};
use time_scales::centuries;

// Over recent moments, from R.D. 580,000 on, the direction keeps to one quadrant: so its arctangent
// is narrow.
/// Precession by the tilt of the ecliptic, where it crosses that of 2000, and the advance of the equinox, in degrees.
#[tactic(auto, unfolding(book_model::specs::sky::Sidereal::precession_by))]
fn precession_by<E: Enclosure>(tilt: E, crossing: E, advance: E) -> E
    ensures encloses { Encloses3 E.shown E.BITS spec.precession_by tilt crossing advance result }
    ensures measured { (v : ℕ) → E.BITS ≡ 56 → v ≤ 2 ^ 40 → IsTilt v (E.shown tilt)
        → IsCrossing v (E.shown crossing) → IsAdvance v (E.shown advance)
        → IsAbout (2 ^ 39) (7 * v + 2 ^ 23) (E.shown result) }
{
    let turned = arctan2_deg(cos_deg(tilt).mul(sin_deg(crossing)), cos_deg(crossing));
    advance.add(crossing).sub(turned)
}

/// The tilt of the ecliptic to that of 2000 by the centuries from noon of 1 January 2000, in degrees.
#[tactic(auto, using(time_scales::proofs::Powers::cubes), unfolding(book_model::specs::numbers::Polynomials::cubic_of))]
fn tilt_at<E: Enclosure>(c: E) -> E
    ensures encloses { Encloses1 E.shown E.BITS (cubic_of ECLIPTIC_TILT) c result }
{
    let square = c.square();
    E::from_frac(ECLIPTIC_TILT.constant)
        .add(c.mul_frac(ECLIPTIC_TILT.linear))
        .add(square.mul_frac(ECLIPTIC_TILT.square))
        .add(square.mul(c).mul_frac(ECLIPTIC_TILT.cube))
}

/// Where the ecliptic crosses that of 2000 by the centuries, in degrees.
#[tactic(auto, unfolding(book_model::specs::numbers::Polynomials::quadratic_of))]
fn crossing_at<E: Enclosure>(c: E) -> E
    ensures encloses { Encloses1 E.shown E.BITS (quadratic_of ECLIPTIC_CROSSING) c result }
{
    E::from_frac(ECLIPTIC_CROSSING.constant)
        .add(c.mul_frac(ECLIPTIC_CROSSING.linear))
        .add(c.square().mul_frac(ECLIPTIC_CROSSING.square))
}

/// The advance of the equinox by the centuries, in degrees.
#[tactic(auto, using(time_scales::proofs::Powers::cubes), unfolding(book_model::specs::numbers::Polynomials::cubic_of))]
fn advance_at<E: Enclosure>(c: E) -> E
    ensures encloses { Encloses1 E.shown E.BITS (cubic_of EQUINOX_ADVANCE) c result }
{
    let square = c.square();
    E::from_frac(EQUINOX_ADVANCE.constant)
        .add(c.mul_frac(EQUINOX_ADVANCE.linear))
        .add(square.mul_frac(EQUINOX_ADVANCE.square))
        .add(square.mul(c).mul_frac(EQUINOX_ADVANCE.cube))
}

/// Precession by the centuries from noon of 1 January 2000, in degrees, not reduced.
#[tactic(auto, unfolding(book_model::specs::sky::Sidereal::precession_at_of))]
fn precession_at<E: Enclosure>(c: E) -> E
    ensures encloses { Encloses1 E.shown E.BITS spec.precession_at_of c result }
    ensures measured { (v : ℕ) → E.BITS ≡ 56 → v ≤ 2 ^ 38 → AreRecentCenturies v (E.shown c)
        → IsAbout (2 ^ 39) (14 * v + 2 ^ 24) (E.shown result) }
{
    precession_by(tilt_at(c), crossing_at(c), advance_at(c))
}

/// How far the equinox has moved among the stars at a moment of universal time, in degrees, not reduced (Reingold and Dershowitz,
/// Calendrical Calculations, chapter 14): one test, the year's. It is void at `year` in a year without ΔT. From
/// R.D. 600,000 on, of the year 1643, it is at most a thousandth as wide as the moment, and 2⁻³¹ degrees.
#[tactic(auto, using(book_model::proofs::Leads::leading), unfolding(book_model::specs::sky::Sidereal::precession_of))]
pub fn precession<E: Enclosure>(t: E, trail: &mut Trail) -> Result<E, Fail>
    ensures leads { Follows1 E.shown spec.precession_of t trail.old.count trail.new.count result }
    ensures measured { Measured1 E.BITS E.shown (2 ^ 42) (IsSince RECENT_START)
        (λ v. IsAbout (2 ^ 39) (v / 1000 + 2 ^ 33)) t result }
    ensures open { IfErr result (IsYearUndecidedFor (E.shown t)) }
{
    let c = centuries(t, trail)?;
    Ok(precession_at(c))
}

/// The longitude of the sun less precession, from where the signs of the zodiac begin, not reduced.
#[tactic(auto, unfolding(book_model::specs::sky::Sidereal::sidereal_by))]
fn sidereal_by<E: Enclosure>(longitude: E, precession: E) -> E
    ensures encloses { Encloses2 E.shown E.BITS spec.sidereal_by longitude precession result }
{
    longitude.sub(precession).add(E::from_frac(SIDEREAL_START))
}

/// An angle, reduced to 0 up to 360 degrees: one test, at `sidereal`.
#[tactic(auto, using(book_model::proofs::Leads::leading, crate::proofs::UndecidedTests::opening), unfolding(book_model::specs::sky::Sidereal::starred_of))]
fn wrapped_sidereal<E: Enclosure>(angle: E, trail: &mut Trail) -> Result<E, Fail>
    ensures leads { Follows1 E.shown spec.starred_of angle trail.old.count trail.new.count result }
    ensures measured { Measured1 E.BITS E.shown (2 ^ 44) (IsAbout (2 ^ 90)) (IsUpTo 360) angle
        result }
    ensures elsewhere { (i : Interval) → IfErr result (IsYearUndecidedFor i) }
{
    wrap_step(angle, 360, Site::Sidereal, trail)
}

/// The longitude of the sun among the stars at a moment of universal time, in degrees from 0 up to 360, from where the signs of the
/// Hindu zodiac begin (Reingold and Dershowitz, Calendrical Calculations, chapters 14 and 20): four tests, the sun's two, the
/// year's, and one at `sidereal`. It is void at `year` in a year without ΔT.
#[tactic(auto, using(book_model::proofs::Leads::leading), unfolding(book_model::specs::sky::Sidereal::sidereal_sun_of))]
pub fn sidereal_sun<E: Enclosure>(t: E, trail: &mut Trail) -> Result<E, Fail>
    ensures leads { Follows1 E.shown spec.sidereal_sun_of t trail.old.count trail.new.count result }
    ensures measured { Measured1 E.BITS E.shown (2 ^ 42) (IsSince RECENT_START)
        (λ v. IsUpTo 360 (greatest_of SIDEREAL_SUN v)) t result }
    ensures open { IfErr result (IsYearUndecidedFor (E.shown t)) }
{
    let longitude = sun(t, trail)?;
    let moved = precession(t, trail)?;
    wrapped_sidereal(sidereal_by(longitude, moved), trail)
}

/// `sidereal_sun` by a linear model of the sun, as wide as it may be over its interval. Where it answers it has made the tests of
/// `sidereal_sun`. A failure says nothing of `sidereal_sun`: it is void where the moment isn't one of the linear model.
pub fn sidereal_sun_by<E: Enclosure>(
    linear_model: &SunLinearModel<E>,
    t: E,
    trail: &mut Trail,
) -> Result<E, Fail>
    ensures leads { IfOk result (λ s. Follows1 E.shown spec.sidereal_sun_of t trail.old.count
        trail.new.count (Ok s)) }
{
    let longitude = sun_by(linear_model, t, trail)?;
    let moved = precession(t, trail)?;
    wrapped_sidereal(sidereal_by(longitude, moved), trail)
}
