//! Shaukat's criterion: whether the crescent is seen on an evening.
ghost use Rattle.book_model.specs.programs.Calls.{Decides, Decides1, Decides2, Decides3};
ghost use Rattle.std.specs.Prelude.{◌≡◌, ◌≤◌, ◌^◌, ◌≤ℤ◌, ◌*◌, pos, IfErr, ◌-ℤ◌};
ghost use Rattle.book_model.specs.programs.Widths.{IsAbout, IsClose, Closes1};
ghost use Rattle.moon_core.specs.MoonPlaces.{IsMeasuredPlace, IsPlaceOf};
ghost use Rattle.rise_set.specs.Widths.{IsNarrowLocation};
ghost use Rattle.rise_set.specs.Altitudes.{IsAltitudeSine, IsMoonAngle, IsMoonLatitude, IsTilt};
ghost use Rattle.crescent.specs.Widths.{IsArcCosine, IsDatedEvening, IsEvening, IsSiderealTime};
ghost use Rattle.book_model.specs.sky.Crescent as spec;
ghost use Rattle.book_model.specs.numbers.Depth.{DEPTH};
ghost use Rattle.book_model.specs.numbers.Expressions.{Expression, World};
ghost use Rattle.book_model.specs.programs.Leading.{Exact, Leads};
ghost use Rattle.book_model.specs.numbers.Relations.{Within};
ghost use Rattle.book_model.specs.sky.Facts.{IsFactDay};
ghost use Rattle.book_model.specs.declared.fact.TheConstants.{FIRST_FACT_DAY as first_fact_day};

use crate::arc_of_light::arc_cosine;
use crate::evening::Evenings;
use book_model::crescent_tables::{LEAST_ALTITUDE, LEAST_ARC_OF_LIGHT};
use book_model::{Fail, Location, Site};
use encl_core::{Enclosure, Trail, less_step};
use moon_core::{MoonPlace, count_again, latitude_again, longitude_again, placed_phase};
use rise_set::{altitude_sine, cos_deg, obliquity_at, sin_deg};
use time_scales::sidereal;

/// The phase of the moon at its first quarter, in degrees.
const FIRST_QUARTER: i64 = 90;

/// Whether the moon is past its new moon: one test.
#[tactic(auto, using(book_model::proofs::Leads::leading), unfolding(book_model::specs::sky::Crescent::is_past_new_of))]
fn is_past_new<E: Enclosure>(phase: E, trail: &mut Trail) -> Result<bool, Fail>
    ensures leads { Decides1 E.shown spec.is_past_new_of phase trail.old.count trail.new.count
        result }
    ensures close { Closes1 E.BITS E.shown (2 ^ 43) (IsAbout (2 ^ 90)) phase result }
{
    less_step(E::from_int(0), phase, Site::Crescent, trail)
}

/// Whether it isn't yet at its first quarter: one test.
#[tactic(auto, using(book_model::proofs::Leads::leading), unfolding(book_model::specs::sky::Crescent::is_before_quarter_of))]
fn is_before_quarter<E: Enclosure>(phase: E, trail: &mut Trail) -> Result<bool, Fail>
    ensures leads { Decides1 E.shown spec.is_before_quarter_of phase trail.old.count trail.new.count
        result }
    ensures close { Closes1 E.BITS E.shown (2 ^ 43) (IsAbout (2 ^ 90)) phase result }
{
    less_step(phase, E::from_int(FIRST_QUARTER), Site::Crescent, trail)
}

/// Whether the arc of light, by its cosine, is large enough: one test.
#[tactic(auto, using(book_model::proofs::Leads::leading), unfolding(book_model::specs::sky::Crescent::is_lit_of))]
fn is_lit<E: Enclosure>(arc: E, trail: &mut Trail) -> Result<bool, Fail>
    ensures leads { Decides1 E.shown spec.is_lit_of arc trail.old.count trail.new.count result }
    ensures close { Closes1 E.BITS E.shown (2 ^ 43) (IsAbout (2 ^ 90)) arc result }
{
    let least = cos_deg(E::from_frac(LEAST_ARC_OF_LIGHT));
    let more = less_step(least, arc, Site::Crescent, trail)?;
    Ok(!more)
}

/// Whether the arc of light, by its cosine, is at most 90 degrees: one test.
#[tactic(auto, using(book_model::proofs::Leads::leading), unfolding(book_model::specs::sky::Crescent::is_within_quarter_of))]
fn is_within_quarter<E: Enclosure>(arc: E, trail: &mut Trail) -> Result<bool, Fail>
    ensures leads { Decides1 E.shown spec.is_within_quarter_of arc trail.old.count trail.new.count
        result }
    ensures close { Closes1 E.BITS E.shown (2 ^ 43) (IsAbout (2 ^ 90)) arc result }
{
    let less = less_step(arc, E::from_int(0), Site::Crescent, trail)?;
    Ok(!less)
}

/// Whether the moon, by the sine of its altitude, stands high enough: one test.
#[tactic(auto, using(book_model::proofs::Leads::leading), unfolding(book_model::specs::sky::Crescent::is_high_of))]
fn is_high<E: Enclosure>(altitude: E, trail: &mut Trail) -> Result<bool, Fail>
    ensures leads { Decides1 E.shown spec.is_high_of altitude trail.old.count trail.new.count result }
    ensures close { Closes1 E.BITS E.shown (2 ^ 43) (IsAbout (2 ^ 90)) altitude result }
{
    let least = sin_deg(E::from_frac(LEAST_ALTITUDE));
    less_step(least, altitude, Site::Crescent, trail)
}

// One expression, as the definition is a chain (`and_also`): the first condition that doesn't hold ends
// it, and no further test is made.
/// The conditions on the arc of light and on the altitude, in order: three tests at most (`bright_few`).
#[tactic(auto, using(book_model::proofs::Leads::leading), unfolding(book_model::specs::sky::Crescent::is_bright_of, book_model::specs::sky::Crescent::and_also))]
fn is_bright<E: Enclosure>(arc: E, altitude: E, trail: &mut Trail) -> Result<bool, Fail>
    ensures leads { Decides2 E.shown spec.is_bright_of arc altitude trail.old.count trail.new.count
        result }
    ensures close { E.BITS ≡ 56 → IsArcCosine (E.shown arc) → IsAltitudeSine (E.shown altitude)
        → IfErr result IsClose }
{
    Ok(is_lit(arc, trail)? && is_within_quarter(arc, trail)? && is_high(altitude, trail)?)
}

/// All conditions, in order: five tests at most (`meets_few`).
#[tactic(auto, using(book_model::proofs::Leads::leading), unfolding(book_model::specs::sky::Crescent::is_crescent_of, book_model::specs::sky::Crescent::and_also))]
fn is_crescent<E: Enclosure>(phase: E, arc: E, altitude: E, trail: &mut Trail) -> Result<bool, Fail>
    ensures leads { Decides3 E.shown spec.is_crescent_of phase arc altitude trail.old.count
        trail.new.count result }
    ensures close { E.BITS ≡ 56 → IsMoonAngle (E.shown phase) → IsArcCosine (E.shown arc)
        → IsAltitudeSine (E.shown altitude) → IfErr result IsClose }
{
    Ok(
        is_past_new(phase, trail)?
            && is_before_quarter(phase, trail)?
            && is_bright(arc, altitude, trail)?,
    )
}

/// The conditions at a location, by the moon's phase, the obliquity of the ecliptic, the moon's longitude and latitude and the
/// sidereal time at Greenwich, all in degrees.
#[tactic(auto, unfolding(book_model::specs::sky::Crescent::meets_of))]
fn meets<E: Enclosure>(
    location: &Location,
    phase: E,
    obliquity: E,
    longitude: E,
    latitude: E,
    sidereal: E,
    trail: &mut Trail,
) -> Result<bool, Fail>
    ensures leads { (w : World) (f o l b t : Expression) → DEPTH ≤ w.depth
        → Within E.shown w f phase → Within E.shown w o obliquity → Within E.shown w l longitude
        → Within E.shown w b latitude → Within E.shown w t sidereal
        → Leads w Exact (spec.meets_of location.now f o l b t) trail.old.count trail.new.count
        result }
    ensures close { E.BITS ≡ 56 → IsNarrowLocation location.now → IsMoonAngle (E.shown phase)
        → IsTilt (E.shown obliquity) → IsMoonAngle (E.shown longitude)
        → IsMoonLatitude (E.shown latitude) → IsSiderealTime (E.shown sidereal)
        → IfErr result IsClose }
{
    let arc = arc_cosine(latitude, phase);
    let here = sidereal.add(E::from_frac(location.longitude));
    let altitude = altitude_sine(location.latitude, here, obliquity, longitude, latitude);
    is_crescent(phase, arc, altitude, trail)
}

/// The same at a moment of universal time, by the phase, the obliquity and the moon's place then, whose tests count and aren't made
/// anew: eight tests at most (`meets_with_few`).
#[tactic(auto, using(book_model::proofs::Leads::leading), unfolding(book_model::specs::sky::Crescent::meets_with_of))]
fn meets_with<E: Enclosure>(
    location: &Location,
    t: E,
    phase: E,
    obliquity: E,
    place: MoonPlace<E>,
    trail: &mut Trail,
) -> Result<bool, Fail>
    ensures leads { (w : World) (x f o : Expression) → IsPlaceOf E.shown w x place
        → Within E.shown w x t → Within E.shown w f phase → Within E.shown w o obliquity
        → Leads w Exact (spec.meets_with_of location.now x f o) trail.old.count trail.new.count
        result }
    ensures close { E.BITS ≡ 56 → IsNarrowLocation location.now → IsDatedEvening (E.shown t)
        → IsMoonAngle (E.shown phase) → IsTilt (E.shown obliquity)
        → IsMeasuredPlace E.shown E.BITS (9 * 2 ^ 29) place → IfErr result IsClose }
{
    let longitude = longitude_again(place, trail);
    let north = latitude_again(place.elements, trail);
    let greenwich = sidereal(t, trail)?;
    meets(
        location, phase, obliquity, longitude, north, greenwich, trail,
    )
}

/// Whether the moon meets the criterion at a location and a moment of universal time: 19 tests at most (`meets_at_few`).
#[tactic(auto, using(book_model::proofs::Leads::leading), unfolding(book_model::specs::sky::Crescent::meets_at_of))]
fn meets_at<E: Enclosure>(location: &Location, t: E, trail: &mut Trail) -> Result<bool, Fail>
    ensures leads { Decides1 E.shown (spec.meets_at_of location.now) t trail.old.count
        trail.new.count result }
    ensures close { E.BITS ≡ 56 → IsNarrowLocation location.now → IsEvening (E.shown t)
        → IfErr result IsClose }
{
    let young = placed_phase(t, trail)?;
    let tilt = obliquity_at(t, trail)?;
    meets_with(location, t, young.angle, tilt, young.place, trail)
}

/// Whether the crescent is seen on the evening with which a day (R.D.) begins: 151 tests at most (`visible_few`), those of
/// `visible`.
#[tactic(auto, using(book_model::proofs::Leads::leading), unfolding(book_model::specs::sky::Crescent::visible_of))]
fn test_visible<E: Enclosure>(
    evenings: &Evenings<'_, E>,
    day: i64,
    trail: &mut Trail,
) -> Result<bool, Fail>
    requires low { first_fact_day ≤ℤ day }
    ensures leads { Decides (spec.visible_of evenings.now day) trail.old.count trail.new.count
        result }
    ensures close { E.BITS ≡ 56 → IsNarrowLocation evenings.now → IsFactDay (day -ℤ pos 1)
        → IfErr result IsClose }
{
    let t = evenings.on(day, trail)?;
    meets_at(&evenings.location(), t, trail)
}

/// The same, where what is known of the evening is taken, and what is found is kept. Tests of an evening that is known count, and aren't
/// made anew.
pub(crate) fn visible_on<E: Enclosure>(
    evenings: &Evenings<'_, E>,
    day: i64,
    trail: &mut Trail,
) -> Result<bool, Fail>
    requires low { first_fact_day ≤ℤ day }
    ensures leads { Decides (spec.visible_of evenings.now day) trail.old.count trail.new.count
        result }
    ensures close { E.BITS ≡ 56 → IsNarrowLocation evenings.now → IsFactDay (day -ℤ pos 1)
        → IfErr result IsClose }
{
    if let Some(sighting) = evenings.known(day) {
        count_again(sighting.tests, trail);
        return Ok(sighting.is_seen);
    }
    let before = trail.count();
    let is_seen = test_visible(evenings, day, trail)?;
    evenings.learn(day, is_seen, before, trail.count());
    Ok(is_seen)
}

/// Whether the crescent is seen at a location on the evening with which a day (R.D.) begins, by Shaukat's criterion (Reingold and
/// Dershowitz, Calendrical Calculations, chapters 14 and 18): when the sun stands 4.5 degrees below the horizon, the moon is past
/// its new moon and before its first quarter, the arc of light between them is from 10.6 to 90 degrees and the moon's altitude
/// above 4.1. 151 tests at most (`visible_few`): those of dusk, of the phase, the obliquity, the longitude and the latitude of the
/// moon, and then those of the conditions in this order, at `crescent`, until one doesn't hold. It is void where dusk is, and at
/// `year` in a year without ΔT.
pub fn visible<E: Enclosure>(location: &Location, day: i64, trail: &mut Trail) -> Result<bool, Fail>
    requires low { first_fact_day ≤ℤ day }
    ensures leads { Decides (spec.visible_of location.now day) trail.old.count trail.new.count
        result }
    ensures close { E.BITS ≡ 56 → IsNarrowLocation location.now → IsFactDay (day -ℤ pos 1)
        → IfErr result IsClose }
{
    let evenings = Evenings::<E>::new(location);
    test_visible(&evenings, day, trail)
}
