//! Sunset, and by how many degrees the sun stands below the horizon then.
ghost use Rattle.book_model.specs.programs.Calls.{Encloses, Follows, Holds, Narrows};
ghost use Rattle.book_model.specs.programs.Widths.{IsMoment, IsWithin, Measured};
ghost use Rattle.std.specs.Prelude.{◌≡◌, ◌+◌, ◌*◌, ◌^◌, pos};
ghost use Rattle.rise_set.specs.Widths.{IsDepression, IsNarrowLocation};
ghost use Rattle.book_model.specs.numbers.Fractions.{fraction_of};
ghost use Rattle.book_model.specs.sky.Horizon as spec;
ghost use Rattle.book_model.specs.sky.Facts.{IsFactDay};

use crate::declinations::universal;
use crate::depression::dusk_at;
use crate::skyline::{Horizon, horizon_at};
use book_model::location_tables::{EARTH_RADIUS, HALF_SUN, REFRACTION, REFRACTION_OF_HEIGHT};
use book_model::{Fail, Frac, Location};
use encl_core::{Enclosure, Trail};
use std::marker::Model;
use sun_core::arccos_deg;

/// The cosine of the angle by which the horizon lies deeper from so many metres of height.
fn horizon_cosine(height: u16) -> Frac
    ensures cosine { fraction_of result ≡ spec.horizon_cosine height }
{
    Frac::new(
        i128::from(EARTH_RADIUS),
        u64::from(EARTH_RADIUS) + u64::from(height),
    )
    .unwrap()
}

/// The angle by which the horizon lies deeper from so many metres of height, in degrees.
fn dip<E: Enclosure>(height: u16) -> E
    ensures encloses { Encloses E.shown E.BITS (spec.dip_of height) result }
{
    arccos_deg(E::from_frac(horizon_cosine(height)))
}

/// What the air lifts the sun besides from so many metres of height, in degrees.
fn refraction_of_height<E: Enclosure>(height: u16) -> E
    ensures encloses { Encloses E.shown E.BITS (spec.refraction_of_height height) result }
{
    E::from_int(i64::from(height))
        .root()
        .mul_frac(REFRACTION_OF_HEIGHT)
}

// An enclosure and no result, since it makes no test.
/// By how many degrees the sun stands below the level when its middle is seen to set at a location: what the air lifts it, and
/// what the height of the location lowers the horizon (Reingold and Dershowitz, Calendrical Calculations, chapter 14). It makes
/// no test.
#[tactic(auto, unfolding(book_model::specs::sky::Horizon::refraction_of))]
pub fn refraction<E: Enclosure>(location: &Location) -> E
    ensures holds { Holds E.shown (spec.refraction_of location.now) result }
    ensures narrow { Narrows E.shown E.BITS (spec.refraction_of location.now) result }
    ensures measured { E.BITS ≡ 56 → IsNarrowLocation location.now → IsWithin (pos 0)
        (pos (4 * 2 ^ 32)) (2 ^ 23) (E.shown result) }
{
    E::from_frac(REFRACTION)
        .add(dip(location.height))
        .add(refraction_of_height(location.height))
}

/// The same when its upper edge is seen to set.
#[tactic(auto, unfolding(book_model::specs::sky::Horizon::sunset_depression_of))]
pub fn sunset_depression<E: Enclosure>(location: &Location) -> E
    ensures holds { Holds E.shown (spec.sunset_depression_of location.now) result }
    ensures measured { E.BITS ≡ 56 → IsNarrowLocation location.now → IsDepression (E.shown result) }
{
    refraction::<E>(location).add(E::from_frac(HALF_SUN))
}

// Its type says that the horizon is the location's, in every world (`IsHorizonOf`): so `on` says
// what `sunset` does, and the definitions know of no horizon.
/// The sunsets at a location: its horizon, which is the same on each day. Contracts see the location.
#[derive(Drop)]
pub struct Sunsets<E: Enclosure> {
    horizon: Horizon<E>,
}

impl<E: Enclosure> Model for Sunsets<E> {
    ghost use Rattle.book_model.specs.declared.horizon.Location.{Location};
    ghost use Rattle.book_model.specs.sky.Horizon.{sunset_depression_of};
    ghost use Rattle.rise_set.specs.Horizons.{IsHorizonOf};

    ghost Value = { Location };

    ghost view = { λ s. s.horizon.location };

    ghost invariant = { λ s. IsHorizonOf E.shown E.BITS (sunset_depression_of s.horizon.location)
        s.horizon };
}

impl<E: Enclosure> Sunsets<E> {
    /// The sunsets at a location. It makes no test.
    pub fn new(location: &Location) -> Self
        ensures location { result ≡ location.now }
    {
        let depression = sunset_depression::<E>(location);
        Sunsets {
            horizon: horizon_at(location, depression),
        }
    }

    /// Sunset on a day (R.D.) there, in universal time: 132 tests at most (`sunset_few`). It is void where dusk is.
    #[tactic(auto, using(book_model::proofs::Leads::leading), unfolding(book_model::specs::sky::Horizon::sunset_of))]
    pub fn on(&self, day: i64, trail: &mut Trail) -> Result<E, Fail>
        ensures leads { Follows E.shown (spec.sunset_of self.now day) trail.old.count
            trail.new.count result }
        ensures measured { IsNarrowLocation self.now → IsFactDay day
            → Measured E.BITS E.shown (IsMoment (9 * 2 ^ 29)) result }
    {
        let t = dusk_at(&self.horizon, day, trail)?;
        Ok(universal(self.horizon.location.longitude, t))
    }
}

/// Sunset on a day (R.D.) at a location, in universal time (Reingold and Dershowitz, Calendrical Calculations, chapter 14): 132
/// tests at most (`sunset_few`). It is void where dusk is.
pub fn sunset<E: Enclosure>(location: &Location, day: i64, trail: &mut Trail) -> Result<E, Fail>
    ensures leads { Follows E.shown (spec.sunset_of location.now day) trail.old.count
        trail.new.count result }
    ensures measured { IsNarrowLocation location.now → IsFactDay day
        → Measured E.BITS E.shown (IsMoment (9 * 2 ^ 29)) result }
{
    let sunsets = Sunsets::<E>::new(location);
    sunsets.on(day, trail)
}
