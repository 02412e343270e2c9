//! The observed altitude of the moon.
ghost use Rattle.book_model.specs.numbers.Fractions.{fraction_of};
ghost use Rattle.book_model.specs.programs.Calls.{Decides1, Follows1, Follows3, Holds2, Holds3, Holds4, Narrows2};
ghost use Rattle.book_model.specs.programs.Widths.{IsClose, Measured};
ghost use Rattle.moon_rise.specs.Computed as computed;
ghost use Rattle.moon_rise.specs.Answers.{answered};
ghost use Rattle.book_model.specs.sky.Moonrise as spec;
ghost use Rattle.moon_rise.specs.Widths.{IsAltitude, IsExact, IsHeight, IsMoonDistance, IsMoonLatitude, IsMoonLongitude, IsSiderealTime, IsSkyLocation, IsSkySine};
ghost use Rattle.rise_set.specs.Altitudes.{IsTilt};
ghost use Rattle.rise_set.specs.Widths.{IsDepression};
ghost use Rattle.std.specs.Prelude.{◌≡◌, IfErr, IfOk};
ghost use Rattle.time_scales.specs.Steps.{IsYearUndecidedFor};

use crate::distances::distance_again;
use crate::steady_intervals::LONGEST;
use crate::walk::AnswerOver;
use book_model::{Fail, Frac, Location, Site};
use encl_core::{Enclosure, Trail, less_step, shr_floor};
use moon_core::{latitude_again, longitude_at, moon_elements};
use rise_set::{altitude_sine, arcsin_deg, cos_deg, obliquity_at, sunset_depression};
use time_scales::sidereal;

/// How many binary places 2⁻⁵⁶ degrees have more than 64ths of a degree, and ten degrees in 64ths.
const TO_PARTS: u32 = 50;

const TEN_DEGREES: u32 = 640;

/// A kilometre, in radii of the earth.
fn kilometre_in_radii() -> Frac
    ensures kilometre { fraction_of result ≡ computed.kilometre_in_radii }
{
    Frac::new(100, 637_814).unwrap()
}

/// The parallax at an altitude, by the distance in kilometres. These are too great a divisor for an enclosure, so the distance is
/// taken in radii of the earth.
#[tactic(auto, using(crate::proofs::Orders::parallax_holds), unfolding(crate::specs::Computed::computed_parallax_of))]
fn parallax<E: Enclosure>(altitude: E, distance: E) -> E
    ensures holds { Holds2 E.shown spec.parallax_of altitude distance result }
    ensures narrow { Narrows2 E.shown E.BITS computed.computed_parallax_of altitude distance result }
{
    arcsin_deg(cos_deg(altitude).div(distance.mul_frac(kilometre_in_radii())))
}

// What the air lifts and the height lowers is `sunset_depression` as it is: its terms are added to
// each other first.
/// The observed altitude by the altitude, the distance and by how much the level of the horizon is lowered.
#[tactic(auto, unfolding(book_model::specs::sky::Moonrise::lifted_of))]
fn lifted<E: Enclosure>(altitude: E, distance: E, depression: E) -> E
    ensures holds { Holds3 E.shown spec.lifted_of altitude distance depression result }
    ensures measured { E.BITS ≡ 56 → IsAltitude (E.shown altitude)
        → IsMoonDistance (E.shown distance) → IsDepression (E.shown depression)
        → IsHeight (E.shown result) }
{
    altitude.sub(parallax(altitude, distance)).add(depression)
}

/// The same by the sine of the altitude.
#[tactic(auto, unfolding(book_model::specs::sky::Moonrise::height_of))]
fn height<E: Enclosure>(sine: E, distance: E, depression: E) -> E
    ensures holds { Holds3 E.shown spec.height_of sine distance depression result }
    ensures measured { E.BITS ≡ 56 → IsSkySine (E.shown sine) → IsMoonDistance (E.shown distance)
        → IsDepression (E.shown depression) → IsHeight (E.shown result) }
{
    lifted(arcsin_deg(sine), distance, depression)
}

/// The sine of the altitude at a location, by the sidereal time at Greenwich, the obliquity of the ecliptic and the moon's longitude
/// and latitude, all in degrees.
#[tactic(auto, unfolding(book_model::specs::sky::Moonrise::sky_sine_of))]
fn sky_sine<E: Enclosure>(
    location: &Location,
    sidereal: E,
    obliquity: E,
    longitude: E,
    latitude: E,
) -> E
    ensures holds { Holds4 E.shown (spec.sky_sine_of location.now) sidereal obliquity longitude
        latitude result }
    ensures measured { E.BITS ≡ 56 → IsSkyLocation location.now
        → IsSiderealTime (E.shown sidereal) → IsTilt (E.shown obliquity)
        → IsMoonLongitude (E.shown longitude) → IsMoonLatitude (E.shown latitude)
        → IsSkySine (E.shown result) }
{
    let here = sidereal.add(E::from_frac(location.longitude));
    altitude_sine(location.latitude, here, obliquity, longitude, latitude)
}

/// The observed altitude at a location by the sidereal time at Greenwich and the obliquity of the ecliptic: four tests. The moon's
/// longitude, latitude and distance are of one set of elements, so the year is tested once, and counts thrice.
#[tactic(auto, using(book_model::proofs::Leads::leading), unfolding(book_model::specs::sky::Moonrise::observed_with_of))]
fn observed_with<E: Enclosure>(
    location: &Location,
    t: E,
    sidereal: E,
    obliquity: E,
    trail: &mut Trail,
) -> Result<E, Fail>
    ensures leads { Follows3 E.shown (spec.observed_with_of location.now) t sidereal obliquity
        trail.old.count trail.new.count result }
    ensures measured { IsSkyLocation location.now → IsExact (E.shown t)
        → IsSiderealTime (E.shown sidereal) → IsTilt (E.shown obliquity)
        → Measured E.BITS E.shown IsHeight result }
    ensures open { IfErr result (IsYearUndecidedFor (E.shown t)) }
{
    let elements = moon_elements(t, trail)?;
    let longitude = longitude_at(elements, trail)?;
    let north = latitude_again(elements, trail);
    let far = distance_again(elements, trail);
    let sine = sky_sine(location, sidereal, obliquity, longitude, north);
    Ok(height(sine, far, sunset_depression::<E>(location)))
}

/// The observed altitude of the moon at a location and a moment of universal time, in degrees: how far its upper edge is seen to stand
/// above the level of the horizon. The altitude (Reingold and Dershowitz, Calendrical Calculations, chapter 14), less the parallax, and
/// as much more as the sun's middle stands below that level when its upper edge is seen to set. Five tests: the years of the
/// obliquity, of the moon's longitude with the one at `moon-wrap`, of its latitude and of its distance. It is void at `year` in a year
/// without ΔT.
#[tactic(auto, using(book_model::proofs::Leads::leading), unfolding(book_model::specs::sky::Moonrise::observed_of))]
pub fn observed<E: Enclosure>(location: &Location, t: E, trail: &mut Trail) -> Result<E, Fail>
    ensures leads { Follows1 E.shown (spec.observed_of location.now) t trail.old.count
        trail.new.count result }
    ensures measured { IsSkyLocation location.now → IsExact (E.shown t)
        → Measured E.BITS E.shown IsHeight result }
    ensures open { IfErr result (IsYearUndecidedFor (E.shown t)) }
{
    let greenwich = sidereal(t, trail)?;
    let tilt = obliquity_at(t, trail)?;
    observed_with(location, t, greenwich, tilt, trail)
}

// An altitude far from the horizon needs no width: where its sine is within 9/16 of 0 it is at most
// 2⁻²³ degrees wide, and elsewhere it is at least 4 degrees above 0 or a fourth of one below.
/// Whether the moon is up at a location and a moment of universal time: six tests.
#[tactic(auto, using(book_model::proofs::Leads::leading), unfolding(book_model::specs::sky::Moonrise::up_of))]
pub(crate) fn is_up<E: Enclosure>(
    location: &Location,
    t: E,
    trail: &mut Trail,
) -> Result<bool, Fail>
    ensures leads { Decides1 E.shown (spec.up_of location.now) t trail.old.count trail.new.count
        result }
    ensures close { E.BITS ≡ 56 → IsSkyLocation location.now → IsExact (E.shown t)
        → IfErr result IsClose }
    ensures open { IfErr result (IsYearUndecidedFor (E.shown t)) }
{
    let altitude = observed(location, t, trail)?;
    less_step(E::from_int(0), altitude, Site::Rise, trail)
}

// The moon's altitude changes by up to 3.75 degrees in a quarter of an hour, and by less where it rises
// or sets on a slope. By 0.3 quarters a degree a day takes 14 evaluations, by 0.2 or 0.4 it takes 15
// (the mean of 150 days, by a simulation).
/// For how many quarters of an hour the moon may well stay on its side of the horizon, by how far its altitude is from it, in 2⁻⁵⁶
/// degrees: three for ten degrees.
fn quarters_ahead(apart: i128) -> u32 {
    match u16::try_from(shr_floor::<TO_PARTS>(apart)) {
        Ok(parts) => u32::from(parts) * 3 / TEN_DEGREES,
        Err(_) if apart < 0 => 0,
        Err(_) => LONGEST,
    }
}

/// How far from the horizon an altitude lies, in 2⁻⁵⁶ degrees; not above 0 where it lies on no side of it alone.
fn apart_from_horizon<E: Enclosure>(altitude: E) -> i128 {
    match altitude.span() {
        Some(span) => span.lo.max(0_i128.saturating_sub(span.hi)),
        None => 0,
    }
}

/// The same as `is_up` at every moment of an interval of days, with how long it may well stay so.
#[tactic(auto, using(book_model::proofs::Leads::leading), unfolding(book_model::specs::sky::Moonrise::up_of))]
pub(crate) fn is_up_over<E: Enclosure>(
    location: &Location,
    days: E,
    trail: &mut Trail,
) -> Result<AnswerOver, Fail>
    ensures leads { Decides1 E.shown (spec.up_of location.now) days trail.old.count trail.new.count
        (answered result) }
{
    let altitude = observed(location, days, trail)?;
    let so = less_step(E::from_int(0), altitude, Site::Rise, trail)?;
    Ok(AnswerOver {
        so,
        ahead: quarters_ahead(apart_from_horizon(altitude)),
    })
}
