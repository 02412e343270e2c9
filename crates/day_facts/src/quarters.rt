//! The days of new moon, first quarter, full moon and last quarter, and of the first visibility of the crescent.
ghost use Rattle.book_model.specs.programs.Calls.{Decides};
ghost use Rattle.book_model.specs.programs.Widths.{IsClose, IsSmall};
ghost use Rattle.std.specs.Prelude.{◌≡◌, ◌≤◌, IfOk, IfErr};
ghost use Rattle.book_model.specs.sky.Crescent.{phasis_of};
ghost use Rattle.book_model.specs.sky.Facts.{IsFactValue, IsValueDay};
ghost use Rattle.book_model.specs.sky.Kinds.{located};
ghost use Rattle.book_model.specs.sky.Names.{location_of};
ghost use Rattle.book_model.specs.sky.Phases.{phase_day_of};
ghost use Rattle.time_scales.specs.Steps.{IsNoEarlyYear};

use book_model::{Fail, Place, Site};
use crescent::{Observer, Sightings};
use encl_core::{Enclosure, Trail};
use moon_core::PhaseLinearModel;

/// The day (R.D.) in universal time on which the moon was last at a phase, in degrees, before a day begins or as it begins: 845
/// tests at most (`phase_day_few_exactly`).
#[tactic(auto, using(crate::proofs::DayLemmas::phase_day_is_value))]
pub(crate) fn phase_day<E: Enclosure>(
    linear_model: &PhaseLinearModel<E>,
    phase: i64,
    day: i64,
    trail: &mut Trail,
) -> Result<i64, Fail>
    requires day { IsValueDay day }
    ensures leads { Decides (phase_day_of phase day) trail.old.count trail.new.count result }
    ensures value { IfOk result IsFactValue }
    ensures early { trail.old.count ≡ 0 → 36 ≤ E.BITS → E.BITS ≤ 56 → IfErr result IsNoEarlyYear }
    ensures close { E.BITS ≡ 56 → IsSmall phase → IfErr result IsClose }
{
    moon_core::phase_day::<E>(linear_model, phase, day, trail)
}

// Void where the place has no location: total, the same in the definition, and met by no fact.
/// The last day (R.D.) before a day, or the day itself, on whose evening before the crescent was first seen at a place: 7,942
/// tests at most (`phasis_few`). It is void at `year` where the place has no location.
#[tactic(auto, using(book_model::proofs::Leads::leading), unfolding(book_model::specs::sky::Kinds::located))]
pub(crate) fn phasis<E: Enclosure>(
    linear_model: &PhaseLinearModel<E>,
    sightings: &Sightings,
    place: Place,
    day: i64,
    trail: &mut Trail,
) -> Result<i64, Fail>
    requires day { IsValueDay day }
    ensures leads { Decides (located (location_of place) (λ l. phasis_of l day)) trail.old.count
        trail.new.count result }
    ensures value { IfOk result IsFactValue }
    ensures early { trail.old.count ≡ 0 → 36 ≤ E.BITS → E.BITS ≤ 56 → IfErr result IsNoEarlyYear }
    ensures close { E.BITS ≡ 56 → IfErr result IsClose }
{
    match place.location() {
        Some(location) => {
            let observer = Observer::new(place, location, sightings);
            crescent::phasis_by::<E>(linear_model, &observer, day, trail)
        }
        None => Err(Fail::Void(Site::Year)),
    }
}
