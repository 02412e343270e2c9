//! The first day of a Bahá'í year, and sunset in minutes.
ghost use Rattle.book_model.specs.programs.Calls.{Decides, Holds1};
ghost use Rattle.book_model.specs.programs.Widths.{IsAbout, IsClose, IsMoment};
ghost use Rattle.std.specs.Prelude.{◌≡◌, ℕ, ◌+◌, ◌*◌, ◌^◌, ◌≤◌, IfOk, IfErr};
ghost use Rattle.book_model.specs.sky.Facts.{IsFactDay, IsFactValue, IsValueDay};
ghost use Rattle.book_model.specs.sky.Horizon.{sunset_of};
ghost use Rattle.book_model.specs.sky.Kinds.{bahai_year_of, located, minutes_of, sunset_in_minutes_of};
ghost use Rattle.book_model.specs.sky.Names.{location_of};
ghost use Rattle.book_model.specs.declared.location_tables.TheConstants.{TEHRAN as tehran};
ghost use Rattle.crescent.specs.SkyWidths.{IsNarrowLocation};

use crate::rounding::rounded;
use crate::seasons::{DayMoment, season_day};
use book_model::calendar_tables::SPRING;
use book_model::location_tables::{MINUTES_OF_DAY, TEHRAN};
use book_model::time_tables::HOUR;
use book_model::{Fail, Location, Place, Site};
use crescent::{Sunsets, sunset};
use encl_core::{Enclosure, Trail};
use moon_core::SunLinearModel;
use std::marker::Model;
use time_scales::zone_on;

/// Sunset on a day at Tehran: the sunsets there, which share what the location asks for. Contracts see nothing of it.
#[derive(Drop)]
struct SunsetAtTehran<E: Enclosure> {
    sunsets: Sunsets<E>,
}

impl<E: Enclosure> Model for SunsetAtTehran<E> {
    ghost use Rattle.std.specs.Prelude.{◌≡◌};
    ghost use Rattle.book_model.specs.declared.location_tables.TheConstants.{TEHRAN as tehran};

    ghost Value = { Unit {0} };

    ghost view = { λ s. tt };

    ghost invariant = { λ s. s.sunsets ≡ tehran };
}

impl<E: Enclosure> SunsetAtTehran<E> {
    /// Sunset at Tehran.
    fn new() -> Self {
        SunsetAtTehran {
            sunsets: Sunsets::<E>::new(&TEHRAN),
        }
    }
}

impl<E: Enclosure> DayMoment<E> for SunsetAtTehran<E> {
    ghost moment_of = { λ s. sunset_of tehran };

    fn at(&self, day: i64, trail: &mut Trail) -> Result<E, Fail> {
        self.sunsets.on(day, trail)
    }
}

/// The first day (R.D.) of the Bahá'í year in which a day falls, by sunset at Tehran. It is void at `search` where there is none, and
/// where a sunset is.
pub(crate) fn bahai_year<E: Enclosure>(
    linear_model: &SunLinearModel<E>,
    day: i64,
    trail: &mut Trail,
) -> Result<i64, Fail>
    requires day { IsValueDay day }
    ensures leads { Decides (bahai_year_of day) trail.old.count trail.new.count result }
    ensures value { IfOk result IsFactValue }
    ensures close { E.BITS ≡ 56 → IfErr result IsClose }
{
    let moment = SunsetAtTehran::<E>::new();
    season_day::<E, SunsetAtTehran<E>>(moment, linear_model, SPRING, day, trail)
}

/// A moment of universal time on a day (R.D.) as minutes of the time of a place after midnight.
#[tactic(auto, unfolding(book_model::specs::sky::Kinds::minutes_of))]
fn minutes<E: Enclosure>(place: Place, day: i64, t: E) -> E
    ensures holds { Holds1 E.shown (minutes_of place day) t result }
    ensures measured { (v : ℕ) → E.BITS ≡ 56 → v ≤ 2 ^ 33 → IsFactDay day → IsMoment v (E.shown t)
        → IsAbout (2 ^ 89) (1440 * v + 2 ^ 22) (E.shown result) }
{
    t.add(E::from_frac(zone_on(place, day)).mul_frac(HOUR))
        .sub(E::from_int(day))
        .mul_frac(MINUTES_OF_DAY)
}

// That this is a value that a fact may have rests on the definition: each approximation moves the
// day by three at most, since an arcsine lies within 180 degrees of 0 and the equation
// of time within a day, and twelve are made.
/// Sunset on a day (R.D.) at the location of a place, in minutes of its time after midnight, rounded.
#[tactic(auto, using(book_model::proofs::Leads::leading), unfolding(book_model::specs::sky::Kinds::sunset_in_minutes_of))]
fn minutes_of_sunset<E: Enclosure>(
    place: Place,
    location: &Location,
    day: i64,
    trail: &mut Trail,
) -> Result<i64, Fail>
    ensures leads { Decides (sunset_in_minutes_of place location.now day) trail.old.count
        trail.new.count result }
    ensures close { E.BITS ≡ 56 → IsNarrowLocation location.now → IsFactDay day
        → IfErr result IsClose }
{
    let t = sunset::<E>(location, day, trail)?;
    rounded(minutes(place, day, t), trail)
}

/// Sunset on a day (R.D.) at a place, in minutes of its time after midnight, rounded: 133 tests at most (`sunset_in_minutes_few`).
/// It is void where sunset is, and at `year` where the place has no location.
#[tactic(auto, using(book_model::proofs::Leads::leading), unfolding(book_model::specs::sky::Kinds::located))]
pub(crate) fn sunset_in_minutes<E: Enclosure>(
    place: Place,
    day: i64,
    trail: &mut Trail,
) -> Result<i64, Fail>
    requires day { IsValueDay day }
    ensures leads { Decides (located (location_of place) (λ l. sunset_in_minutes_of place l day))
        trail.old.count trail.new.count result }
    ensures value { IfOk result IsFactValue }
    ensures close { E.BITS ≡ 56 → IfErr result IsClose }
{
    match place.location() {
        Some(location) => minutes_of_sunset::<E>(place, &location, day, trail),
        None => Err(Fail::Void(Site::Year)),
    }
}
