//! Moonrise and moonset.
ghost use Rattle.book_model.specs.programs.Calls.{Decides};
ghost use Rattle.book_model.specs.programs.Widths.{IsClose};
ghost use Rattle.book_model.specs.sky.Facts.{IsValueDay};
ghost use Rattle.book_model.specs.sky.Kinds.{located};
ghost use Rattle.book_model.specs.sky.Names.{location_of};
ghost use Rattle.book_model.specs.programs.Crossings.{opposite_of};
ghost use Rattle.book_model.specs.sky.Moonrise.{moonrise_of, moonset_of, up_at_of};
ghost use Rattle.moon_rise.specs.Widths.{IsSkyLocation};
ghost use Rattle.std.specs.Prelude.{◌≡◌, ◌≤◌, pos, negsuc, ◌≤ℤ◌, IfErr, IfOk};
ghost use Rattle.time_scales.specs.Steps.{IsNotOfYear};

use crate::altitudes::{is_up, is_up_over};
use crate::moments::{moment_at, moments_over};
use crate::walk::{AnswerOver, MomentTest, crossing};
use book_model::{Fail, Location, Place, Site};
use encl_core::{Enclosure, Trail};

/// Whether the moon is up at the moments of a day (R.D.) at a place, seen from a location.
#[derive(Drop)]
struct MoonUp {
    place: Place,
    location: Location,
    day: i64,
}

impl<E: Enclosure> MomentTest<E> for MoonUp {
    ghost test_of = { λ s. up_at_of s.place s.location s.day };

    ghost is_kept = { λ s. IsSkyLocation s.location × IsValueDay s.day };

    #[tactic(auto, using(book_model::proofs::Leads::leading), unfolding(book_model::specs::sky::Moonrise::up_at_of))]
    fn holds(&self, moment: u32, trail: &mut Trail) -> Result<bool, Fail> {
        let t = moment_at::<E>(self.place, self.day, moment);
        is_up(&self.location, t, trail)
    }

    fn holds_over(&self, from: u32, to: u32, trail: &mut Trail) -> Result<AnswerOver, Fail> {
        let interval_of_days = moments_over::<E>(self.place, self.day, from, to);
        is_up_over(&self.location, interval_of_days, trail)
    }
}

/// The opposite of a test.
#[derive(Drop)]
struct Opposite<T> {
    test: T,
}

impl<E: Enclosure, T: MomentTest<E>> MomentTest<E> for Opposite<T> {
    ghost test_of = { λ s. opposite_of (T.test_of s.test) };

    ghost is_kept = { λ s. T.is_kept s.test };

    #[tactic(auto, using(book_model::proofs::Leads::leading), unfolding(book_model::specs::programs::Crossings::opposite_of))]
    fn holds(&self, moment: u32, trail: &mut Trail) -> Result<bool, Fail> {
        let so = self.test.holds(moment, trail)?;
        Ok(!so)
    }

    fn holds_over(&self, from: u32, to: u32, trail: &mut Trail) -> Result<AnswerOver, Fail> {
        let everywhere = self.test.holds_over(from, to, trail)?;
        Ok(AnswerOver {
            so: !everywhere.so,
            ahead: everywhere.ahead,
        })
    }
}

// It takes a place, since it needs its zone; void where that has no location, so that no condition
// is owed on it.
/// The minute of a day (R.D.) at a place in which the moon rises, or -1 where it doesn't: of the quarters of an hour of the day the
/// first at whose beginning it isn't up and at whose end it is, and in that, halved four times, the minute. 606 tests at most
/// (`moonrise_few`). It is void at `year` in a year without ΔT, and where the place has no location. No test of a year is ever
/// undecided.
#[tactic(auto, using(book_model::proofs::Leads::leading), unfolding(book_model::specs::sky::Kinds::located, book_model::specs::sky::Moonrise::moonrise_of))]
pub fn moonrise<E: Enclosure>(place: Place, day: i64, trail: &mut Trail) -> Result<i64, Fail>
    ensures leads { Decides (located (location_of place) (λ l. moonrise_of place l day))
        trail.old.count trail.new.count result }
    ensures close { IsValueDay day → E.BITS ≡ 56 → IfErr result IsClose }
    ensures dated { IsValueDay day → 36 ≤ E.BITS → E.BITS ≤ 56 → IfErr result IsNotOfYear }
    ensures low { IfOk result (λ v. negsuc 0 ≤ℤ v) }
    ensures high { IfOk result (λ v. v ≤ℤ pos 1440) }
{
    match place.location() {
        Some(location) => {
            let up = MoonUp {
                place,
                location,
                day,
            };
            crossing::<E, MoonUp>(&up, trail)
        }
        None => Err(Fail::Void(Site::Year)),
    }
}

/// The minute of a day (R.D.) at a place in which the moon sets, or -1 where it doesn't, in the same way: 606 tests at most
/// (`moonset_few`).
#[tactic(auto, using(book_model::proofs::Leads::leading), unfolding(book_model::specs::sky::Kinds::located, book_model::specs::sky::Moonrise::moonset_of))]
pub fn moonset<E: Enclosure>(place: Place, day: i64, trail: &mut Trail) -> Result<i64, Fail>
    ensures leads { Decides (located (location_of place) (λ l. moonset_of place l day))
        trail.old.count trail.new.count result }
    ensures close { IsValueDay day → E.BITS ≡ 56 → IfErr result IsClose }
    ensures dated { IsValueDay day → 36 ≤ E.BITS → E.BITS ≤ 56 → IfErr result IsNotOfYear }
    ensures low { IfOk result (λ v. negsuc 0 ≤ℤ v) }
    ensures high { IfOk result (λ v. v ≤ℤ pos 1440) }
{
    match place.location() {
        Some(location) => {
            let up = MoonUp {
                place,
                location,
                day,
            };
            crossing::<E, Opposite<MoonUp>>(&Opposite { test: up }, trail)
        }
        None => Err(Fail::Void(Site::Year)),
    }
}
