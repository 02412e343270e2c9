//! The new moons before and from a day, by the time of a place.
ghost use Rattle.book_model.specs.programs.Calls.{Decides};
ghost use Rattle.book_model.specs.programs.Widths.{IsClose};
ghost use Rattle.std.specs.Prelude.{◌≡◌, IfOk, IfErr};
ghost use Rattle.book_model.specs.sky.Facts.{IsFactValue, IsValueDay};
ghost use Rattle.book_model.specs.sky.Kinds.{new_moon_before_of, new_moon_from_of};

use crate::midnights::day_at;
use book_model::{Fail, Place};
use encl_core::{Enclosure, Trail};
use moon_core::{PhaseLinearModel, moon_before_by, moon_from_by};
use time_scales::midnight;

/// The day (R.D.) at a place of the last new moon before midnight at the beginning of a day there: 26 tests at most, and those of
/// the zone (`new_moon_before_few`).
#[tactic(auto, using(book_model::proofs::Leads::leading), unfolding(book_model::specs::sky::Kinds::new_moon_before_of))]
pub(crate) fn new_moon_before<E: Enclosure>(
    linear_model: &PhaseLinearModel<E>,
    place: Place,
    day: i64,
    trail: &mut Trail,
) -> Result<i64, Fail>
    requires day { IsValueDay day }
    ensures leads { Decides (new_moon_before_of place day) trail.old.count trail.new.count
        result }
    ensures value { IfOk result IsFactValue }
    ensures close { E.BITS ≡ 56 → IfErr result IsClose }
{
    let moment = moon_before_by(linear_model, midnight::<E>(place, day), trail)?;
    day_at(place, moment, trail)
}

/// The day (R.D.) at a place of the first new moon at or after midnight at the beginning of a day there: 26 tests at most, and
/// those of the zone (`new_moon_from_few`).
#[tactic(auto, using(book_model::proofs::Leads::leading), unfolding(book_model::specs::sky::Kinds::new_moon_from_of))]
pub(crate) fn new_moon_from<E: Enclosure>(
    linear_model: &PhaseLinearModel<E>,
    place: Place,
    day: i64,
    trail: &mut Trail,
) -> Result<i64, Fail>
    requires day { IsValueDay day }
    ensures leads { Decides (new_moon_from_of place day) trail.old.count trail.new.count
        result }
    ensures value { IfOk result IsFactValue }
    ensures close { E.BITS ≡ 56 → IfErr result IsClose }
{
    let moment = moon_from_by(linear_model, midnight::<E>(place, day), trail)?;
    day_at(place, moment, trail)
}
