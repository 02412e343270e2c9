//! The first day of the Hebrew month of Nisan.
ghost use Rattle.book_model.specs.programs.Calls.{Decides, Decides1, Follows};
ghost use Rattle.book_model.specs.programs.Widths.{IsClose, IsMoment, Measured, Closes1};
ghost use Rattle.std.specs.Prelude.{◌≡◌, ◌≤◌, ◌*◌, ◌^◌, pos, ◌-ℤ◌, ◌≤ℤ◌, IfOk, IfErr};
ghost use Rattle.book_model.specs.sky.Facts.{IsFactDay, IsFactValue, IsValueDay};
ghost use Rattle.book_model.specs.sky.Kinds.{located};
ghost use Rattle.book_model.specs.sky.Names.{location_of};
ghost use Rattle.book_model.specs.sky.Nisan as spec;
ghost use Rattle.day_facts.specs.Nisan.{IsEquinoxDay, next_equinox_of, nisan_on_of};
ghost use Rattle.crescent.specs.SkyWidths.{IsNarrowLocation};
ghost use Rattle.time_scales.specs.Steps.{IsNoEarlyYear};

use book_model::{Fail, Location, Place, Site};
use crescent::{Observer, Sightings, sunset, visibility_from_by};
use encl_core::{Enclosure, Trail, floor_step, less_step};
use moon_core::{PhaseLinearModel, SunLinearModel, sun_from_by};

/// The longitude of the sun at the spring equinox, in degrees.
const SPRING_EQUINOX: i64 = 0;

/// The moment of the spring equinox that is next from a day (R.D.) on, in universal time: 324 tests at most (`from_few`).
#[tactic(auto, using(book_model::proofs::Leads::leading), unfolding(crate::specs::Nisan::next_equinox_of))]
fn next_equinox<E: Enclosure>(
    linear_model: &SunLinearModel<E>,
    day: i64,
    trail: &mut Trail,
) -> Result<E, Fail>
    requires day { IsValueDay day }
    ensures leads { Follows E.shown (next_equinox_of day) trail.old.count trail.new.count result }
    ensures measured { Measured E.BITS E.shown (IsMoment (2 ^ 33)) result }
    ensures early { trail.old.count ≡ 0 → 36 ≤ E.BITS → E.BITS ≤ 56 → IfErr result IsNoEarlyYear }
{
    sun_from_by(
        linear_model,
        E::from_int(SPRING_EQUINOX),
        E::from_int(day),
        trail,
    )
}

/// Whether a moment comes before sunset on a day (R.D.) at a location: 133 tests at most.
#[tactic(auto, using(book_model::proofs::Leads::leading), unfolding(book_model::specs::sky::Nisan::is_before_sunset_of))]
fn is_before_sunset<E: Enclosure>(
    location: &Location,
    t: E,
    day: i64,
    trail: &mut Trail,
) -> Result<bool, Fail>
    requires day { IsEquinoxDay day }
    ensures leads { Decides1 E.shown (λ x. spec.is_before_sunset_of location.now x day) t
        trail.old.count trail.new.count result }
    ensures close { E.BITS ≡ 56 → IsNarrowLocation location.now → IsMoment (2 ^ 33) (E.shown t)
        → IfErr result IsClose }
{
    let evening = sunset::<E>(location, day, trail)?;
    less_step(t, evening, Site::DayTest, trail)
}

/// The day (R.D.) from which the month is sought, by the day of the equinox and whether that comes before sunset.
#[tactic(auto, unfolding(book_model::specs::sky::Nisan::nisan_start))]
fn start(equinox: i64, is_before: bool) -> i64
    requires day { IsEquinoxDay equinox }
    ensures start { result ≡ spec.nisan_start equinox is_before }
    ensures near { IsFactDay result }
{
    if is_before {
        equinox - 14
    } else {
        equinox - 13
    }
}

/// The first day (R.D.) of Nisan at a location, by the moment of the equinox and its day: 8,075 tests at most.
#[tactic(auto, using(book_model::proofs::Leads::leading), unfolding(crate::specs::Nisan::nisan_on_of))]
fn nisan_on<E: Enclosure>(
    linear_model: &PhaseLinearModel<E>,
    observer: &Observer<'_>,
    t: E,
    equinox: i64,
    trail: &mut Trail,
) -> Result<i64, Fail>
    requires day { IsEquinoxDay equinox }
    ensures leads { Decides1 E.shown (nisan_on_of observer.now equinox) t trail.old.count
        trail.new.count result }
    ensures value { IfOk result IsFactValue }
    ensures close { E.BITS ≡ 56 → IsNarrowLocation observer.now → IsMoment (2 ^ 33) (E.shown t)
        → IfErr result IsClose }
{
    let is_before = is_before_sunset(&observer.location(), t, equinox, trail)?;
    visibility_from_by(linear_model, observer, start(equinox, is_before), trail)
}

/// The first day (R.D.) of Nisan at a location about the spring equinox that is next from a day on: 8,400 tests at most
/// (`nisan_few`).
#[tactic(auto, using(book_model::proofs::Leads::leading), unfolding(book_model::specs::sky::Nisan::nisan_of, book_model::specs::sky::Nisan::nisan_by_of, crate::specs::Nisan::next_equinox_of, crate::specs::Nisan::nisan_on_of))]
fn nisan_at<E: Enclosure>(
    linear_model: &PhaseLinearModel<E>,
    observer: &Observer<'_>,
    day: i64,
    trail: &mut Trail,
) -> Result<i64, Fail>
    requires day { IsValueDay day }
    ensures leads { Decides (spec.nisan_of observer.now day) trail.old.count trail.new.count result }
    ensures value { IfOk result IsFactValue }
    ensures early { trail.old.count ≡ 0 → 36 ≤ E.BITS → E.BITS ≤ 56 → IfErr result IsNoEarlyYear }
    ensures close { E.BITS ≡ 56 → IsNarrowLocation observer.now → IfErr result IsClose }
{
    let t = next_equinox(linear_model.sun(), day, trail)?;
    let equinox = floor_step(t, Site::DayFloor, trail)?;
    nisan_on(linear_model, observer, t, equinox, trail)
}

/// The first day (R.D.) of Nisan at a place about the spring equinox that is next from a day on: the month about the equinox, by when
/// the sun sets on the day of the equinox and by the first visibility of the crescent (Reingold and Dershowitz, Calendrical
/// Calculations, chapter 18). It is void at `search` where no crescent is found, at `year` where the place has no location, and where
/// one of the formulas is. Its first and third tests, of the year of the day itself, are never undecided.
#[tactic(auto, using(book_model::proofs::Leads::leading), unfolding(book_model::specs::sky::Kinds::located))]
pub(crate) fn nisan<E: Enclosure>(
    linear_model: &PhaseLinearModel<E>,
    sightings: &Sightings,
    place: Place,
    day: i64,
    trail: &mut Trail,
) -> Result<i64, Fail>
    requires day { IsValueDay day }
    ensures leads { Decides (located (location_of place) (λ l. spec.nisan_of l day)) trail.old.count
        trail.new.count result }
    ensures value { IfOk result IsFactValue }
    ensures early { trail.old.count ≡ 0 → 36 ≤ E.BITS → E.BITS ≤ 56 → IfErr result IsNoEarlyYear }
    ensures close { E.BITS ≡ 56 → IfErr result IsClose }
{
    match place.location() {
        Some(location) => {
            let observer = Observer::new(place, location, sightings);
            nisan_at::<E>(linear_model, &observer, day, trail)
        }
        None => Err(Fail::Void(Site::Year)),
    }
}
