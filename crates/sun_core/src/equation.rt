//! The equation of time.
ghost use Rattle.book_model.specs.programs.Calls.{Encloses1, Encloses4, Follows1, Holds1, Narrows1};
ghost use Rattle.book_model.specs.programs.Widths.{IsAbout, IsMoment, Measured1};
ghost use Rattle.book_model.specs.numbers.Ranges.{IsInTable};
ghost use Rattle.std.specs.Prelude.{◌≡◌, ◌^◌, IfOk, IfErr};
ghost use Rattle.book_model.specs.programs.Leading.{next_turn};
ghost use Rattle.book_model.specs.sky.Noon.{radians_of, part_of_day, equation_of, equation_of_time_of};
ghost use Rattle.encl_core.specs.declared.greatest_widths.TheConstants.{EQUATION_OF_TIME};
ghost use Rattle.encl_core.specs.GreatestWidths.{greatest_of};
ghost use Rattle.time_scales.specs.Steps.{IsYearUndecidedFor};
ghost use Rattle.sun_core.specs.Steps.{first_radians_of};

use book_model::Fail;
use book_model::sun_tables::{
    ECCENTRICITY, FIVE_QUARTERS, FOUR, MEAN_SUN, MINUS_HALF, OBLIQUITY, SOLAR_ANOMALY, TWO,
};
use book_model::tables::HALF;
use encl_core::{Enclosure, Trail};
use periodic_terms::{cos_deg, pi, sin_deg, tan_deg};
use time_scales::centuries;

/// The first three terms of the equation of time, in radians.
#[tactic(auto, unfolding(crate::specs::Steps::first_radians_of, book_model::specs::sky::Noon::reduction_of, book_model::specs::sky::Noon::centre_of, book_model::specs::sky::Noon::joint_of))]
fn first_radians<E: Enclosure>(tilt: E, eccentricity: E, mean_sun: E, anomaly: E) -> E
    ensures encloses { Encloses4 E.shown E.BITS first_radians_of tilt eccentricity mean_sun
        anomaly result }
{
    // Each taken once for two terms.
    let sine = sin_deg(anomaly);
    let twice = mean_sun.mul_frac(TWO);
    let reduction = tilt.mul(sin_deg(twice));
    let centre = eccentricity.mul(sine).mul_frac(TWO);
    let joint = eccentricity.mul(tilt).mul(sine).mul(cos_deg(twice));
    reduction.sub(centre).add(joint.mul_frac(FOUR))
}

/// The equation of time in radians.
#[tactic(auto, unfolding(book_model::specs::sky::Noon::radians_of, book_model::specs::sky::Noon::second_reduction_of, book_model::specs::sky::Noon::second_centre_of, crate::specs::Steps::first_radians_of))]
fn radians<E: Enclosure>(tilt: E, eccentricity: E, mean_sun: E, anomaly: E) -> E
    ensures encloses { Encloses4 E.shown E.BITS radians_of tilt eccentricity mean_sun anomaly
        result }
{
    let reduction = tilt.square().mul(sin_deg(mean_sun.mul_frac(FOUR)));
    let centre = eccentricity.square().mul(sin_deg(anomaly.mul_frac(TWO)));
    first_radians(tilt, eccentricity, mean_sun, anomaly)
        .sub(reduction.mul_frac(HALF))
        .sub(centre.mul_frac(FIVE_QUARTERS))
}

/// Radians as a part of a day, and at most half a day.
#[tactic(auto, unfolding(book_model::specs::sky::Noon::part_of_day))]
fn in_days<E: Enclosure>(radians: E) -> E
    ensures encloses { Encloses1 E.shown E.BITS part_of_day radians result }
{
    let days = radians.div(pi::<E>().mul_frac(TWO));
    E::from_frac(MINUS_HALF).max(E::from_frac(HALF).min(days))
}

/// The equation of time by the centuries.
#[tactic(auto, using(time_scales::proofs::Powers::cubes), unfolding(book_model::specs::sky::Noon::equation_of, book_model::specs::sky::Noon::tilt_of, book_model::specs::numbers::Polynomials::quadratic_of, book_model::specs::numbers::Polynomials::cubic_of))]
fn equation<E: Enclosure>(c: E) -> E
    ensures holds { Holds1 E.shown equation_of c result }
    ensures narrow { Narrows1 E.shown E.BITS equation_of c result }
{
    // Written out, so that the powers are taken once and the denominators are known to the compiler.
    let square = c.square();
    let cube = square.mul(c);
    let obliquity = E::from_frac(OBLIQUITY.constant)
        .add(c.mul_frac(OBLIQUITY.linear))
        .add(square.mul_frac(OBLIQUITY.square))
        .add(cube.mul_frac(OBLIQUITY.cube));
    let eccentricity = E::from_frac(ECCENTRICITY.constant)
        .add(c.mul_frac(ECCENTRICITY.linear))
        .add(square.mul_frac(ECCENTRICITY.square));
    let mean_sun = E::from_frac(MEAN_SUN.constant)
        .add(c.mul_frac(MEAN_SUN.linear))
        .add(square.mul_frac(MEAN_SUN.square));
    let anomaly = E::from_frac(SOLAR_ANOMALY.constant)
        .add(c.mul_frac(SOLAR_ANOMALY.linear))
        .add(square.mul_frac(SOLAR_ANOMALY.square))
        .add(cube.mul_frac(SOLAR_ANOMALY.cube));
    let tilt = tan_deg(obliquity.mul_frac(HALF)).square();
    in_days(radians(tilt, eccentricity, mean_sun, anomaly))
}

/// The equation of time at a moment of universal time, in days: what apparent time is ahead of mean time (Reingold and
/// Dershowitz, Calendrical Calculations, chapter 14). It is at most half a day. One test, at `year`; it is void at
/// `year` in a year without ΔT.
#[tactic(auto, using(book_model::proofs::Leads::leading, crate::proofs::Measured::equation_within), unfolding(book_model::specs::sky::Noon::equation_of_time_of))]
pub fn equation_of_time<E: Enclosure>(t: E, trail: &mut Trail) -> Result<E, Fail>
    ensures leads { Follows1 E.shown equation_of_time_of t trail.old.count trail.new.count result }
    ensures in_table { IfOk result (λ e. IsInTable (E.shown t)) }
    ensures measured { Measured1 E.BITS E.shown (2 ^ 42) IsMoment
        (λ v. IsAbout (2 ^ 31) (greatest_of EQUATION_OF_TIME v)) t result }
    ensures open { IfErr result (IsYearUndecidedFor (E.shown t)) }
{
    let c = centuries(t, trail)?;
    Ok(equation(c))
}
