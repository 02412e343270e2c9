//! Days and midnights at a place: the day of a moment, and the longitude of the sun as a day begins.
ghost use Rattle.book_model.specs.programs.Calls.{Decides1, Follows};
ghost use Rattle.book_model.specs.programs.Widths.{IsMoment, IsUpTo, Measured, Closes1};
ghost use Rattle.std.specs.Prelude.{◌+◌, ◌*◌, ◌^◌};
ghost use Rattle.book_model.specs.sky.Kinds as spec;
ghost use Rattle.book_model.specs.sky.Kinds.{longitude_at_midnight_of};
ghost use Rattle.time_scales.specs.Widths.{IsMidnightDay};

use book_model::{Fail, Place, Site};
use encl_core::{Enclosure, Trail, floor_step};
use moon_core::sun;
use time_scales::{in_zone, midnight};

/// The longitude of the sun at midnight at the beginning of a day (R.D.) at a place: two tests at most (`sun_few`).
#[tactic(auto, using(book_model::proofs::Leads::leading), unfolding(book_model::specs::sky::Kinds::longitude_at_midnight_of))]
pub(crate) fn longitude_at_midnight<E: Enclosure>(
    place: Place,
    day: i64,
    trail: &mut Trail,
) -> Result<E, Fail>
    ensures leads { Follows E.shown (longitude_at_midnight_of place day) trail.old.count
        trail.new.count result }
    ensures measured { IsMidnightDay day
        → Measured E.BITS E.shown (IsUpTo 360 (2 ^ 32 + 3 * 2 ^ 9)) result }
{
    sun(midnight::<E>(place, day), trail)
}

/// The day (R.D.) of a moment of universal time at a place: the tests of its zone, and one.
#[tactic(auto, using(book_model::proofs::Leads::leading), unfolding(book_model::specs::sky::Kinds::day_at))]
pub(crate) fn day_at<E: Enclosure>(place: Place, t: E, trail: &mut Trail) -> Result<i64, Fail>
    ensures leads { Decides1 E.shown (spec.day_at place) t trail.old.count trail.new.count result }
    ensures close { Closes1 E.BITS E.shown (2 ^ 43) IsMoment t result }
{
    let moment = in_zone(place, t, trail)?;
    floor_step(moment, Site::DayFloor, trail)
}
