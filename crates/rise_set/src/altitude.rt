//! Where the moon stands above the horizon: its altitude, by its sine.
//!
//! The parts of the moon's direction share their sines and cosines, so each is taken once (`Direction`): ten of them make an
//! altitude, where its formula names eighteen.
ghost use Rattle.book_model.specs.programs.Calls.{Holds4, Narrows4};
ghost use Rattle.std.specs.Prelude.{◌≡◌, true, pos, ◌*◌, ◌^◌};
ghost use Rattle.book_model.specs.numbers.Bounds.{Reach, bounded, unbounded, bound_of, implies, limits_at, limits_of};
ghost use Rattle.book_model.specs.numbers.Expressions.{Expression, World, constant};
ghost use Rattle.book_model.specs.numbers.Relations.{Within, Narrow};
ghost use Rattle.rise_set.specs.Altitudes.{IsAltitudeSine, IsLocalSiderealTime, IsMoonAngle, IsMoonLatitude, IsTilt};
ghost use Rattle.rise_set.specs.Directions.{IsDirection, IsNarrowDirection, over_ground};
ghost use Rattle.book_model.specs.sky.Altitude as spec;
ghost use Rattle.book_model.specs.numbers.Fractions.{fraction_of};

use book_model::Frac;
use encl_core::Enclosure;
use sun_core::{cos_deg, sin_deg};

/// An angle by its sine and its cosine.
#[derive(Clone, Copy, Drop)]
pub(crate) struct Direction<E> {
    pub(crate) sine: E,
    pub(crate) cosine: E,
}

/// The sine and the cosine of degrees.
fn direction_of<E: Enclosure>(degrees: E) -> Direction<E>
    ensures holds { (w : World) (x : Expression) → Within E.shown w x degrees
        → IsDirection E.shown w x result }
    ensures narrow { (r : Reach) (x : Expression) → Narrow E.shown (limits_of E.BITS) r x degrees
        → IsNarrowDirection E.shown (limits_of E.BITS) r x result }
{
    Direction {
        sine: sin_deg(degrees),
        cosine: cos_deg(degrees),
    }
}

/// The sine of the moon's declination, by the obliquity of the ecliptic and the longitude and the latitude of the moon.
#[tactic(auto, unfolding(book_model::specs::sky::Altitude::north_of))]
fn declination_sine<E: Enclosure>(
    obliquity: Direction<E>,
    longitude: Direction<E>,
    latitude: Direction<E>,
) -> E
    ensures holds { (w : World) (o l b : Expression) → IsDirection E.shown w o obliquity
        → IsDirection E.shown w l longitude → IsDirection E.shown w b latitude
        → Within E.shown w (spec.north_of o l b) result }
    ensures narrow { (r : Reach) (o l b : Expression)
        → IsNarrowDirection E.shown (limits_of E.BITS) r o obliquity
        → IsNarrowDirection E.shown (limits_of E.BITS) r l longitude
        → IsNarrowDirection E.shown (limits_of E.BITS) r b latitude
        → Narrow E.shown (limits_of E.BITS) r (spec.north_of o l b) result }
{
    let level = latitude.sine.mul(obliquity.cosine);
    level.add(latitude.cosine.mul(obliquity.sine).mul(longitude.sine))
}

/// The part of the moon's direction towards the east of the equinox, in the plane of the equator.
#[tactic(auto, unfolding(book_model::specs::sky::Altitude::east_of))]
fn east_part<E: Enclosure>(
    obliquity: Direction<E>,
    longitude: Direction<E>,
    latitude: Direction<E>,
) -> E
    ensures holds { (w : World) (o l b : Expression) → IsDirection E.shown w o obliquity
        → IsDirection E.shown w l longitude → IsDirection E.shown w b latitude
        → Within E.shown w (spec.east_of o l b) result }
    ensures narrow { (r : Reach) (o l b : Expression)
        → IsNarrowDirection E.shown (limits_of E.BITS) r o obliquity
        → IsNarrowDirection E.shown (limits_of E.BITS) r l longitude
        → IsNarrowDirection E.shown (limits_of E.BITS) r b latitude
        → Narrow E.shown (limits_of E.BITS) r (spec.east_of o l b) result }
{
    let level = latitude.cosine.mul(longitude.sine).mul(obliquity.cosine);
    level.sub(latitude.sine.mul(obliquity.sine))
}

/// The part of the moon's direction towards where the equator crosses the meridian, at a local sidereal time.
#[tactic(auto, unfolding(book_model::specs::sky::Altitude::towards_of))]
fn meridian_part<E: Enclosure>(
    sidereal: Direction<E>,
    obliquity: Direction<E>,
    longitude: Direction<E>,
    latitude: Direction<E>,
) -> E
    ensures holds { (w : World) (t o l b : Expression) → IsDirection E.shown w t sidereal
        → IsDirection E.shown w o obliquity → IsDirection E.shown w l longitude
        → IsDirection E.shown w b latitude → Within E.shown w (spec.towards_of t o l b) result }
    ensures narrow { (r : Reach) (t o l b : Expression)
        → IsNarrowDirection E.shown (limits_of E.BITS) r t sidereal
        → IsNarrowDirection E.shown (limits_of E.BITS) r o obliquity
        → IsNarrowDirection E.shown (limits_of E.BITS) r l longitude
        → IsNarrowDirection E.shown (limits_of E.BITS) r b latitude
        → Narrow E.shown (limits_of E.BITS) r (spec.towards_of t o l b) result }
{
    let along = sidereal.cosine.mul(latitude.cosine).mul(longitude.cosine);
    along.add(sidereal.sine.mul(east_part(obliquity, longitude, latitude)))
}

/// The sine of the moon's altitude by the latitude of the ground, the local sidereal time, the obliquity of the ecliptic and the
/// moon's longitude and latitude.
#[tactic(auto, unfolding(crate::specs::Directions::over_ground))]
fn sine_over<E: Enclosure>(
    ground: Direction<E>,
    sidereal: E,
    obliquity: E,
    longitude: E,
    latitude: E,
) -> E
    ensures holds { (w : World) (g t o l b : Expression) → IsDirection E.shown w g ground
        → Within E.shown w t sidereal → Within E.shown w o obliquity
        → Within E.shown w l longitude → Within E.shown w b latitude
        → Within E.shown w (over_ground g t o l b) result }
    ensures narrow { (r : Reach) (g t o l b : Expression)
        → IsNarrowDirection E.shown (limits_of E.BITS) r g ground
        → Narrow E.shown (limits_of E.BITS) r t sidereal
        → Narrow E.shown (limits_of E.BITS) r o obliquity
        → Narrow E.shown (limits_of E.BITS) r l longitude
        → Narrow E.shown (limits_of E.BITS) r b latitude
        → Narrow E.shown (limits_of E.BITS) r (over_ground g t o l b) result }
{
    let tilt = direction_of(obliquity);
    let around = direction_of(longitude);
    let north = direction_of(latitude);
    let upwards = ground.sine.mul(declination_sine(tilt, around, north));
    let towards = meridian_part(direction_of(sidereal), tilt, around, north);
    upwards.add(ground.cosine.mul(towards))
}

/// The sine of the moon's altitude at a latitude of the ground, by the local sidereal time, the obliquity of the ecliptic and the
/// moon's longitude and latitude, all in degrees (Reingold and Dershowitz, Calendrical Calculations, chapter 14).
#[tactic(auto, unfolding(book_model::specs::sky::Altitude::altitude_sine_of, crate::specs::Directions::over_ground))]
pub fn altitude_sine<E: Enclosure>(
    ground: Frac,
    sidereal: E,
    obliquity: E,
    longitude: E,
    latitude: E,
) -> E
    ensures holds { Holds4 E.shown (spec.altitude_sine_of (fraction_of ground)) sidereal obliquity
        longitude latitude result }
    ensures narrow { Narrows4 E.shown E.BITS (spec.altitude_sine_of (fraction_of ground)) sidereal
        obliquity longitude latitude result }
    ensures measured { E.BITS ≡ 56 → implies (bound_of (limits_at 56) (λ k. unbounded)
        (constant (fraction_of ground))) (bounded (pos 0) (pos (36 * 2 ^ 32)) 0 (2 ^ 8)) ≡ true
        → IsLocalSiderealTime (E.shown sidereal) → IsTilt (E.shown obliquity)
        → IsMoonAngle (E.shown longitude) → IsMoonLatitude (E.shown latitude)
        → IsAltitudeSine (E.shown result) }
{
    let here = E::from_frac(ground);
    sine_over(direction_of(here), sidereal, obliquity, longitude, latitude)
}
