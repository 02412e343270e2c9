//! The distance of the moon.
ghost use Rattle.book_model.specs.numbers.Expressions.{Expression, World};
ghost use Rattle.book_model.specs.numbers.Fractions.{fraction_of};
ghost use Rattle.book_model.specs.numbers.Relations.{Within};
ghost use Rattle.book_model.specs.programs.Calls.{Follows1};
ghost use Rattle.book_model.specs.programs.Leading.{Leads};
ghost use Rattle.book_model.specs.programs.Widths.{IsMoment, Measured1};
ghost use Rattle.book_model.specs.sky.Moon.{lunar_angles_of};
ghost use Rattle.moon_core.specs.Elements.{AreElementsOf, AreMeasured, HoldElements};
ghost use Rattle.moon_rise.specs.Computed.{mean_kilometres as mean_kilometres_of};
ghost use Rattle.book_model.specs.sky.Distance as spec;
ghost use Rattle.moon_rise.specs.Widths.{IsDistance};
ghost use Rattle.std.specs.Prelude.{◌≡◌, ◌^◌, ℕ, Ok, IfErr};
ghost use Rattle.moon_core.specs.SunDaily.{in_centuries};
ghost use Rattle.time_scales.specs.Steps.{IsYearUndecidedFor};

use book_model::moon_tables::MEAN_DISTANCE;
use book_model::{Fail, Frac};
use encl_core::{Enclosure, Trail};
use moon_core::{MoonElements, moon_elements};
use periodic_terms::distance_terms;

/// The mean distance, in kilometres.
fn mean_kilometres() -> Frac
    ensures mean { fraction_of result ≡ mean_kilometres_of }
{
    Frac::new(i128::from(MEAN_DISTANCE), 1000).unwrap()
}

/// A metre, in kilometres.
fn metre() -> Frac
    ensures metre { fraction_of result ≡ spec.metre }
{
    Frac::new(1, 1000).unwrap()
}

// That a distance is a value that a fact may have is shown of the definition, at each depth: a term
// has at most 21,000,000 metres and the factor of the eccentricity at most twice, so that 60 terms
// are less than 5,040,000 kilometres.
/// The distance by the elements of a moment, in kilometres. The terms alone are taken in metres, since the mean distance in metres is no
/// number of the coarse scale.
fn distance_at<E: Enclosure>(elements: MoonElements<E>) -> E
    ensures holds { (w : World) (x : Expression) → HoldElements E.shown w x elements
        → Within E.shown w (spec.distance_by (lunar_angles_of (in_centuries x))) result }
    ensures measured { (v : ℕ) → E.BITS ≡ 56 → AreMeasured E.shown E.BITS v elements
        → IsDistance v (E.shown result) }
{
    let terms = distance_terms(elements.angles);
    E::from_frac(mean_kilometres()).add(terms.mul_frac(metre()))
}

/// The distance of the moon's centre from the earth's at a moment of universal time, in kilometres (Reingold and Dershowitz,
/// Calendrical Calculations, chapter 14; Meeus, Astronomical Algorithms, chapter 47). One test, the year's. It is void at `year`
/// in a year without ΔT.
#[tactic(auto, using(book_model::proofs::Leads::leading), unfolding(book_model::specs::sky::Distance::distance_of))]
pub fn distance<E: Enclosure>(t: E, trail: &mut Trail) -> Result<E, Fail>
    ensures leads { Follows1 E.shown spec.distance_of t trail.old.count trail.new.count result }
    ensures measured { Measured1 E.BITS E.shown (2 ^ 44) IsMoment IsDistance t result }
    ensures open { IfErr result (IsYearUndecidedFor (E.shown t)) }
{
    let elements = moon_elements(t, trail)?;
    Ok(distance_at(elements))
}

/// The same by the elements, where a run has those of the moment. The test of their year is not made anew, since it is decided as it
/// was, but it counts.
pub(crate) fn distance_again<E: Enclosure>(elements: MoonElements<E>, trail: &mut Trail) -> E
    ensures leads { (w : World) (x : Expression) → AreElementsOf E.shown w x elements
        → Leads w (Within E.shown w) (spec.distance_of x) trail.old.count trail.new.count
        (Ok result) }
    ensures measured { (v : ℕ) → E.BITS ≡ 56 → AreMeasured E.shown E.BITS v elements
        → IsDistance v (E.shown result) }
{
    trail.step();
    distance_at(elements)
}
