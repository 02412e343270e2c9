//! The apparent longitude of the moon.
ghost use Rattle.book_model.specs.declared.moon_tables.TheConstants.{LATITUDE_ARGUMENT, MOON_LONGITUDE};
ghost use Rattle.book_model.specs.numbers.Polynomials.{quartic_of};
ghost use Rattle.book_model.specs.programs.Calls.{Follows1};
ghost use Rattle.book_model.specs.programs.Leading.{Leads, next_turn};
ghost use Rattle.book_model.specs.programs.Widths.{IsAbout, IsMoment, IsUpTo, Measured1, Measures, Answers1};
ghost use Rattle.std.specs.Prelude.{◌≡◌, ◌≤◌, ℕ, ◌+◌, ◌^◌, Ok, IfOk, IfErr};
ghost use Rattle.book_model.specs.Interval.{Interval};
ghost use Rattle.book_model.specs.numbers.Bounds.{Reach, limits_of};
ghost use Rattle.book_model.specs.numbers.Expressions.{Expression, World, argument};
ghost use Rattle.book_model.specs.sky.Moon as spec;
ghost use Rattle.book_model.specs.numbers.Relations.{Within, Narrow};
ghost use Rattle.moon_core.specs.Daily.{daily_quartic_of, days_from_2000, computed_flattening_of, inequalities_by};
ghost use Rattle.moon_core.specs.Elements.{AreMeasured, HoldElements, reduced_longitude_of};
ghost use Rattle.moon_core.specs.MoonPlaces.{HasLongitude, IsMeasuredPlace, IsPlaceOf};
ghost use Rattle.moon_core.specs.Widths.{days_and, longitude_bound};
ghost use Rattle.sun_core.specs.Daily.{in_centuries};
ghost use Rattle.time_scales.specs.Steps.{IsYearUndecidedFor};
ghost use Rattle.encl_core.specs.declared.greatest_widths.TheConstants.{MOON};
ghost use Rattle.encl_core.specs.GreatestWidths.{greatest_of};

use crate::elements::{MoonElements, moon_elements};
use book_model::moon_tables::{FLATTENING, JUPITER_TERM, MILLIONTH, VENUS_TERM};
use book_model::{Fail, Site};
use encl_core::{Enclosure, Trail, wrap_step};
use periodic_terms::{longitude_terms, sin_deg};
use sun_core::{nutation, sine_periodic_term};

/// What the flattening of the earth adds, by the mean longitude and the argument of latitude, in millionths of a degree.
#[tactic(auto, unfolding(book_model::specs::sky::Moon::flattening_of, crate::specs::Daily::computed_flattening_of))]
pub(crate) fn flattening<E: Enclosure>(longitude: E, argument: E) -> E
    ensures holds { (w : World) (x : Expression)
        → Within E.shown w (quartic_of MOON_LONGITUDE (in_centuries x)) longitude
        → Within E.shown w (quartic_of LATITUDE_ARGUMENT (in_centuries x)) argument
        → Within E.shown w (spec.flattening_of (in_centuries x)) result }
    ensures narrow { (r : Reach) (x : Expression)
        → Narrow E.shown (limits_of E.BITS) r (daily_quartic_of MOON_LONGITUDE x) longitude
        → Narrow E.shown (limits_of E.BITS) r (daily_quartic_of LATITUDE_ARGUMENT x) argument
        → Narrow E.shown (limits_of E.BITS) r (computed_flattening_of x) result }
{
    sin_deg(longitude.sub(argument)).mul_frac(FLATTENING)
}

/// What the moon is ahead of its mean longitude, in millionths of a degree.
fn inequalities<E: Enclosure>(elements: MoonElements<E>) -> E
    ensures holds { (w : World) (x : Expression) → HoldElements E.shown w x elements
        → Within E.shown w (spec.inequalities_of (in_centuries x)) result }
    ensures narrow { (v : ℕ) → E.BITS ≡ 56 → AreMeasured E.shown E.BITS v elements
        → Narrow E.shown (limits_of E.BITS)
        (record { width = v + 2 ^ 17; bounds = days_and longitude_bound })
        (inequalities_by (argument 1) days_from_2000) result }
{
    longitude_terms(elements.angles)
        .add(sine_periodic_term(&VENUS_TERM, elements.days))
        .add(sine_periodic_term(&JUPITER_TERM, elements.days))
        .add(flattening(elements.mean_longitude, elements.angles.latitude_argument))
}

/// The longitude of the moon by the elements of a moment; not reduced.
#[tactic(auto, unfolding(book_model::specs::sky::Moon::moon_longitude_of))]
fn longitude<E: Enclosure>(elements: MoonElements<E>) -> E
    ensures holds { (w : World) (x : Expression) → HoldElements E.shown w x elements
        → Within E.shown w (spec.moon_longitude_of (in_centuries x)) result }
    ensures measured { (v : ℕ) → E.BITS ≡ 56 → AreMeasured E.shown E.BITS v elements
        → IsAbout (2 ^ 90) (greatest_of MOON v) (E.shown result) }
{
    elements
        .mean_longitude
        .add(inequalities(elements).mul_frac(MILLIONTH))
        .add(nutation(elements.centuries))
}

/// The apparent longitude of the moon by the elements of a moment, in degrees from 0 up to 360: one test, at `moon-wrap`.
#[tactic(auto, using(crate::proofs::UndecidedTests::opening), unfolding(crate::specs::Elements::reduced_longitude_of))]
pub fn longitude_at<E: Enclosure>(elements: MoonElements<E>, trail: &mut Trail) -> Result<E, Fail>
    ensures leads { (w : World) (x : Expression) → HoldElements E.shown w x elements
        → Leads w (Within E.shown w) (reduced_longitude_of (in_centuries x)) trail.old.count
        trail.new.count result }
    ensures measured { (v : ℕ) → E.BITS ≡ 56 → v ≤ 2 ^ 39
        → AreMeasured E.shown E.BITS v elements
        → Measures (λ l. IsUpTo 360 (greatest_of MOON v) (E.shown l)) result }
    ensures wide { (v : ℕ) → E.BITS ≡ 56 → v ≤ 2 ^ 40
        → AreMeasured E.shown E.BITS v elements
        → IfOk result (λ l. IsUpTo 360 (greatest_of MOON v) (E.shown l)) }
    ensures again { IfOk result (λ l. (w : World) (x : Expression) → HoldElements E.shown w x elements
        → (k : ℕ) → Leads w (Within E.shown w) (reduced_longitude_of (in_centuries x)) k (next_turn k)
        (Ok l)) }
    ensures elsewhere { (i : Interval) → IfErr result (IsYearUndecidedFor i) }
{
    wrap_step(longitude(elements), 360, Site::MoonWrap, trail)
}

/// The moon's place at a moment: the elements of the moment, and its apparent longitude by them, in degrees from 0 up to 360.
#[derive(Clone, Copy, Drop)]
pub struct MoonPlace<E> {
    pub elements: MoonElements<E>,
    pub longitude: E,
}

/// The place at a moment of universal time, by the tests of `moon`.
#[tactic(auto, using(book_model::proofs::Leads::leading), unfolding(book_model::specs::sky::Moon::moon_of))]
pub(crate) fn moon_place<E: Enclosure>(t: E, trail: &mut Trail) -> Result<MoonPlace<E>, Fail>
    ensures leads { (w : World) (x : Expression) → Within E.shown w x t
        → Leads w (HasLongitude E.shown w) (spec.moon_of x) trail.old.count trail.new.count result }
    ensures again { IfOk result (λ p. (w : World) (x : Expression) → Within E.shown w x t
        → IsPlaceOf E.shown w x p) }
    ensures measured { (v : ℕ) → E.BITS ≡ 56 → v ≤ 2 ^ 39 → IsMoment v (E.shown t)
        → Measures (IsMeasuredPlace E.shown E.BITS v) result }
    ensures wide { (v : ℕ) → E.BITS ≡ 56 → v ≤ 2 ^ 40 → IsMoment v (E.shown t)
        → IfOk result (λ p. IsUpTo 360 (greatest_of MOON v) (E.shown p.longitude)) }
    ensures open { IfErr result (IsYearUndecidedFor (E.shown t)) }
{
    let elements = moon_elements(t, trail)?;
    let longitude = longitude_at(elements, trail)?;
    Ok(MoonPlace {
        elements,
        longitude,
    })
}

/// The apparent longitude of the moon at a moment of universal time, in degrees from 0 up to 360 (Reingold and
/// Dershowitz, Calendrical Calculations, chapter 14; Meeus, Astronomical Algorithms, chapter 47). Two tests, the year's and
/// the one at `moon-wrap`. It is void at `year` in a year without ΔT.
pub fn moon<E: Enclosure>(t: E, trail: &mut Trail) -> Result<E, Fail>
    ensures leads { Follows1 E.shown spec.moon_of t trail.old.count trail.new.count result }
    ensures measured { Measured1 E.BITS E.shown (2 ^ 39) IsMoment
        (λ v. IsUpTo 360 (greatest_of MOON v)) t result }
    ensures wide { Answers1 E.BITS E.shown (2 ^ 40) IsMoment
        (λ v. IsUpTo 360 (greatest_of MOON v)) t
        result }
    ensures open { IfErr result (IsYearUndecidedFor (E.shown t)) }
{
    let place = moon_place(t, trail)?;
    Ok(place.longitude)
}

/// The same by the place, where a run has that of the moment. Its two tests aren't made anew, since they are decided as they were, but
/// they count.
pub fn longitude_again<E: Enclosure>(place: MoonPlace<E>, trail: &mut Trail) -> E
    ensures leads { (w : World) (x : Expression) → IsPlaceOf E.shown w x place
        → Leads w (Within E.shown w) (spec.moon_of x) trail.old.count trail.new.count (Ok result) }
    ensures same { result ≡ place.longitude }
{
    trail.step();
    trail.step();
    place.longitude
}
