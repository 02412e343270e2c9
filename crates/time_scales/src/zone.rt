//! The zones of places: by how many hours the time of a place is ahead of universal time.
ghost use Rattle.book_model.specs.programs.Calls.{Encloses, Follows1};
ghost use Rattle.book_model.specs.programs.Widths.{IsAbout, IsMoment, IsUpTo, Measured1};
ghost use Rattle.std.specs.Prelude.{◌≡◌, ◌+◌, ◌*◌, ◌^◌, ℕ, true};
ghost use Rattle.book_model.specs.declared.fact.Place.TheVariants.{Beijing as beijing};
ghost use Rattle.book_model.specs.sky.Places.{is_kept_zone};
ghost use Rattle.book_model.specs.sky.Time as spec;
ghost use Rattle.time_scales.specs.Widths.{IsMidnightDay};

use book_model::time_tables::HOUR;
use book_model::{Fail, Frac, Place, Site, ZoneStep};
use encl_core::{Enclosure, Trail, less_step};

/// The hours by which the time of a zone is ahead of universal time at a moment: the days on which it changes are tried in order,
/// each as one test at `zone`, until the moment is before one.
#[tactic(auto, using(book_model::proofs::Leads::leading))]
fn hours_at<E: Enclosure>(
    steps: &[ZoneStep],
    last: Frac,
    t: E,
    trail: &mut Trail,
) -> Result<E, Fail>
    ensures leads { Follows1 E.shown (spec.hours_at_of steps.now last) t trail.old.count
        trail.new.count result }
    ensures measured { (m : ℕ) → is_kept_zone m steps.now last ≡ true
        → Measured1 E.BITS E.shown (2 ^ 44) IsMoment (λ v. IsUpTo m (2 ^ 8)) t result }
{
    match steps {
        [] => Ok(E::from_frac(last)),
        [step, later @ ..] => {
            // One zone of five costs up to four tests, and an undecided one is told at `zone`.
            if less_step(t, E::from_int(step.before), Site::Zone, trail)? {
                return Ok(E::from_frac(step.hours));
            }
            hours_at(later, last, t, trail)
        }
    }
}

/// The same as a day (R.D.) begins.
fn hours_on(steps: &[ZoneStep], last: Frac, day: i64) -> Frac
    ensures { result ≡ spec.hours_on steps.now last day }
{
    match steps {
        [] => last,
        [step, later @ ..] => {
            if day < step.before {
                return step.hours;
            }
            hours_on(later, last, day)
        }
    }
}

// It asks nothing of the place, and stands here, so that what asks for a zone needs no calendar.
/// The hours by which the time of a place is ahead of universal time at a moment: a test at `zone` for each day on which it
/// changes, until the moment is before one.
#[tactic(auto, unfolding(book_model::specs::sky::Time::zone_of))]
pub fn zone_at<E: Enclosure>(place: Place, t: E, trail: &mut Trail) -> Result<E, Fail>
    ensures leads { Follows1 E.shown (spec.zone_of place) t trail.old.count trail.new.count result }
    ensures measured { Measured1 E.BITS E.shown (2 ^ 44) IsMoment
        (λ v. IsUpTo 24 (2 ^ 8)) t result }
{
    hours_at(place.zone_steps(), place.last_hours(), t, trail)
}

/// The same at Beijing: local mean time, 1397/180 hours, before 1929, and 8 hours from then on. One test, at `zone`.
#[tactic(auto, unfolding(book_model::specs::sky::Time::zone_of))]
pub fn zone_beijing<E: Enclosure>(t: E, trail: &mut Trail) -> Result<E, Fail>
    ensures leads { Follows1 E.shown (spec.zone_of beijing) t trail.old.count trail.new.count result }
    ensures measured { Measured1 E.BITS E.shown (2 ^ 44) IsMoment (λ v. IsUpTo 8 (2 ^ 8)) t result }
{
    let place = Place::Beijing;
    hours_at(place.zone_steps(), place.last_hours(), t, trail)
}

// Of the whole day, so that it costs no test.
/// The hours by which the time of a place is ahead of universal time as a day (R.D.) begins there. They make no test.
#[tactic(auto, unfolding(book_model::specs::sky::Time::zone_on))]
pub fn zone_on(place: Place, day: i64) -> Frac
    ensures { result ≡ spec.zone_on place day }
{
    hours_on(place.zone_steps(), place.last_hours(), day)
}

/// Midnight at the beginning of a day (R.D.) at a place, in universal time. Its zone goes by the day, so it makes no test.
#[tactic(auto, unfolding(book_model::specs::sky::Time::midnight_of))]
pub fn midnight<E: Enclosure>(place: Place, day: i64) -> E
    ensures encloses { Encloses E.shown E.BITS (spec.midnight_of place day) result }
    ensures measured { E.BITS ≡ 56 → IsMidnightDay day → IsMoment (3 * 2 ^ 8) (E.shown result) }
{
    E::from_int(day).sub(E::from_frac(zone_on(place, day)).mul_frac(HOUR))
}

/// The time of a place at a moment of universal time: the tests of its zone.
#[tactic(auto, using(book_model::proofs::Leads::leading), unfolding(book_model::specs::sky::Time::in_zone_of))]
pub fn in_zone<E: Enclosure>(place: Place, t: E, trail: &mut Trail) -> Result<E, Fail>
    ensures leads { Follows1 E.shown (spec.in_zone_of place) t trail.old.count trail.new.count
        result }
    ensures measured { Measured1 E.BITS E.shown (2 ^ 44) IsMoment
        (λ v. IsAbout (2 ^ 59) (v + 3 * 2 ^ 8))
        t result }
{
    let hours = zone_at(place, t, trail)?;
    Ok(t.add(hours.mul_frac(HOUR)))
}
