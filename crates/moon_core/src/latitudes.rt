//! The latitude of the moon.
ghost use Rattle.book_model.specs.programs.Calls.{Encloses2, Follows1};
ghost use Rattle.book_model.specs.programs.Leading.{Leads};
ghost use Rattle.book_model.specs.programs.Widths.{IsAbout, IsMoment, Measured1};
ghost use Rattle.std.specs.Prelude.{◌≡◌, ◌+◌, ◌*◌, ◌^◌, ℕ, Ok, IfErr};
ghost use Rattle.book_model.specs.numbers.Bounds.{limits_of};
ghost use Rattle.book_model.specs.numbers.Expressions.{Expression, World, argument};
ghost use Rattle.book_model.specs.sky.Latitude as spec;
ghost use Rattle.book_model.specs.sky.Moon.{lunar_angles_of};
ghost use Rattle.book_model.specs.numbers.Relations.{Within, Narrow};
ghost use Rattle.moon_core.specs.Daily.{days_from_2000, millionths_by};
ghost use Rattle.moon_core.specs.Elements.{AreElementsOf, AreMeasured, HoldElements};
ghost use Rattle.moon_core.specs.Widths.{days_and, latitude_bound};
ghost use Rattle.sun_core.specs.Daily.{in_centuries};
ghost use Rattle.time_scales.specs.Steps.{IsYearUndecidedFor};
ghost use Rattle.encl_core.specs.declared.greatest_widths.TheConstants.{LATITUDE};
ghost use Rattle.encl_core.specs.GreatestWidths.{greatest_of};

use crate::elements::{MoonElements, moon_elements};
use book_model::Fail;
use book_model::moon_tables::{
    FLATTENING_ALONE, FLATTENING_LESS_ANOMALY, FLATTENING_WITH_ANOMALY, LATITUDE_TERM, MILLIONTH,
    VENUS_IN_LATITUDE, VENUS_TERM,
};
use encl_core::{Enclosure, Trail};
use periodic_terms::{latitude_terms, sin_deg};
use sun_core::{sine_periodic_term, term_angle};

/// What Venus adds, by the angle of its periodic term and the argument of latitude, in millionths of a degree.
#[tactic(auto, unfolding(book_model::specs::sky::Latitude::venus_by))]
fn venus<E: Enclosure>(venus: E, argument: E) -> E
    ensures encloses { Encloses2 E.shown E.BITS spec.venus_by venus argument result }
{
    sin_deg(venus.add(argument))
        .times(VENUS_IN_LATITUDE)
        .add(sin_deg(venus.sub(argument)).times(VENUS_IN_LATITUDE))
}

/// What the flattening of the earth adds, by the mean longitude and the anomaly of the moon, in millionths of a degree.
#[tactic(auto, unfolding(book_model::specs::sky::Latitude::flattening_by))]
fn flattening<E: Enclosure>(longitude: E, anomaly: E) -> E
    ensures encloses { Encloses2 E.shown E.BITS spec.flattening_by longitude anomaly result }
{
    sin_deg(longitude)
        .times(FLATTENING_ALONE)
        .add(sin_deg(longitude.sub(anomaly)).times(FLATTENING_LESS_ANOMALY))
        .add(sin_deg(longitude.add(anomaly)).times(FLATTENING_WITH_ANOMALY))
}

/// The latitude by the elements of a moment, in millionths of a degree.
fn millionths<E: Enclosure>(elements: MoonElements<E>) -> E
    ensures holds { (w : World) (x : Expression) → HoldElements E.shown w x elements
        → Within E.shown w
        (spec.millionths_of (lunar_angles_of (in_centuries x)) (in_centuries x)) result }
    ensures narrow { (v : ℕ) → E.BITS ≡ 56 → AreMeasured E.shown E.BITS v elements
        → Narrow E.shown (limits_of E.BITS)
        (record { width = v + 2 ^ 17; bounds = days_and latitude_bound })
        (millionths_by (argument 1) days_from_2000) result }
{
    let angles = elements.angles;
    latitude_terms(angles)
        .add(venus(
            term_angle(&VENUS_TERM, elements.days),
            angles.latitude_argument,
        ))
        .add(flattening(elements.mean_longitude, angles.moon_anomaly))
        .add(sine_periodic_term(&LATITUDE_TERM, elements.days))
}

/// The latitude of the moon by the elements of a moment, in degrees.
#[tactic(auto, unfolding(book_model::specs::sky::Latitude::latitude_at_of))]
fn latitude_at<E: Enclosure>(elements: MoonElements<E>) -> E
    ensures holds { (w : World) (x : Expression) → HoldElements E.shown w x elements
        → Within E.shown w (spec.latitude_at_of (in_centuries x)) result }
    ensures measured { (v : ℕ) → E.BITS ≡ 56 → AreMeasured E.shown E.BITS v elements
        → IsAbout (7 * 2 ^ 32) (greatest_of LATITUDE v) (E.shown result) }
{
    millionths(elements).mul_frac(MILLIONTH)
}

/// The latitude of the moon, from the ecliptic, at a moment of universal time, in degrees (Reingold and Dershowitz, Calendrical
/// Calculations, chapter 14; Meeus, Astronomical Algorithms, chapter 47). One test, the year's. It is void at `year` in a year
/// without ΔT.
#[tactic(auto, using(book_model::proofs::Leads::leading), unfolding(book_model::specs::sky::Latitude::latitude_of))]
pub fn latitude<E: Enclosure>(t: E, trail: &mut Trail) -> Result<E, Fail>
    ensures leads { Follows1 E.shown spec.latitude_of t trail.old.count trail.new.count result }
    ensures measured { Measured1 E.BITS E.shown (2 ^ 44) IsMoment
        (λ v. IsAbout (7 * 2 ^ 32) (greatest_of LATITUDE v)) t result }
    ensures open { IfErr result (IsYearUndecidedFor (E.shown t)) }
{
    let elements = moon_elements(t, trail)?;
    Ok(latitude_at(elements))
}

/// The same by the elements, where a run has those of the moment. The test of their year is not made anew, since it is decided as it
/// was, but it counts.
pub fn latitude_again<E: Enclosure>(elements: MoonElements<E>, trail: &mut Trail) -> E
    ensures leads { (w : World) (x : Expression) → AreElementsOf E.shown w x elements
        → Leads w (Within E.shown w) (spec.latitude_of x) trail.old.count trail.new.count
        (Ok result) }
    ensures measured { (v : ℕ) → E.BITS ≡ 56 → AreMeasured E.shown E.BITS v elements
        → IsAbout (7 * 2 ^ 32) (greatest_of LATITUDE v) (E.shown result) }
{
    trail.step();
    latitude_at(elements)
}
