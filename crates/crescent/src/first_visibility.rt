//! The day with whose evening the crescent was first seen.
ghost use Rattle.book_model.specs.programs.Calls.{Decides};
ghost use Rattle.std.specs.Prelude.{◌≡◌, ◌≤◌, pos, ◌≤ℤ◌, ◌+ℤ◌, ◌-ℤ◌, int_le, IfOk, IfErr};
ghost use Rattle.book_model.specs.sky.Nisan as nisan;
ghost use Rattle.book_model.specs.sky.Crescent as spec;
ghost use Rattle.book_model.specs.sky.Facts.{IsFactDay, IsFactValue, IsValueDay};
ghost use Rattle.book_model.specs.programs.Searches.{first_day_from};
ghost use Rattle.book_model.specs.programs.Widths.{IsClose};
ghost use Rattle.rise_set.specs.Widths.{IsNarrowLocation};
ghost use Rattle.moon_core.specs.PhaseDays.{IsPhaseDay};
ghost use Rattle.time_scales.specs.Steps.{IsNoEarlyYear};
ghost use Rattle.crescent.specs.Visibilities.{IsDayOfVisibility, IsTableDay};
ghost use Rattle.book_model.specs.declared.fact.TheConstants.{FIRST_FACT_DAY as first_fact_day};

use crate::criterion::visible_on;
use crate::evening::Evenings;
use crate::sightings::Observer;
use book_model::{Fail, Location};
use encl_core::{DayTest, Enclosure, Trail, first_day};
use moon_core::{PhaseLinearModel, phase_day};

/// The phase of a new moon, in degrees.
const NEW_MOON: i64 = 0;

/// How many days after its new moon a crescent may still be unseen.
const UNSEEN_DAYS: i64 = 3;

/// How far back the search begins then.
const DAYS_BACK: i64 = 30;

/// From how many days after its new moon on a crescent has been seen.
const SEEN_DAYS: i64 = 4;

/// How many days after a new moon the next crescent is sought from.
const DAYS_ON: i64 = 29;

/// The test of a day: whether the crescent is seen on the evening with which it begins.
impl<'a, E: Enclosure> DayTest<E> for Evenings<'a, E> {
    ghost test_of = { λ l d. spec.visible_of l d };

    ghost near_on = { λ l d. IsNarrowLocation l × IsFactDay (d -ℤ pos 1) };

    fn holds(&self, day: i64, trail: &mut Trail) -> Result<bool, Fail> {
        visible_on(self, day, trail)
    }
}

/// Whether a day (R.D.) is so soon after a new moon that its crescent may be unseen.
fn is_soon(day: i64, new_moon: i64) -> bool
    requires day { IsFactDay day }
    requires near { IsPhaseDay new_moon }
    ensures soon { result ≡ int_le (day -ℤ new_moon) (pos 3) }
{
    day - new_moon <= UNSEEN_DAYS
}

/// The day (R.D.) from which the first visibility is sought, by whether the crescent of the last new moon is seen.
#[tactic(auto, unfolding(book_model::specs::sky::Crescent::start_by))]
fn start(new_moon: i64, is_seen: bool) -> i64
    requires near { IsPhaseDay new_moon }
    ensures start { result ≡ spec.start_by new_moon is_seen }
    ensures near { IsDayOfVisibility result }
{
    if is_seen {
        new_moon
    } else {
        new_moon - DAYS_BACK
    }
}

/// The same, where the day may come before the crescent of the last new moon: 151 tests at most (`start_few`).
#[tactic(auto, using(book_model::proofs::Leads::leading), unfolding(book_model::specs::sky::Crescent::visibility_start_of))]
fn visibility_start<E: Enclosure>(
    evenings: &Evenings<'_, E>,
    day: i64,
    new_moon: i64,
    trail: &mut Trail,
) -> Result<i64, Fail>
    requires day { IsFactDay day }
    requires near { IsPhaseDay new_moon }
    ensures leads { Decides (spec.visibility_start_of evenings.now day new_moon) trail.old.count
        trail.new.count result }
    ensures near { IfOk result IsDayOfVisibility }
    ensures close { E.BITS ≡ 56 → IsNarrowLocation evenings.now → first_fact_day ≤ℤ (day -ℤ pos 1)
        → IfErr result IsClose }
{
    if !is_soon(day, new_moon) {
        return Ok(new_moon);
    }
    let is_seen = visible_on(evenings, day, trail)?;
    Ok(start(new_moon, is_seen))
}

/// The first day (R.D.) from a day on on whose evening before the crescent is seen.
#[tactic(auto, using(book_model::proofs::Leads::leading))]
fn first_visibility<E: Enclosure>(
    evenings: &Evenings<'_, E>,
    from: i64,
    trail: &mut Trail,
) -> Result<i64, Fail>
    requires near { IsDayOfVisibility from }
    ensures leads { Decides (first_day_from (spec.visible_of evenings.now) from) trail.old.count
        trail.new.count result }
    ensures from { IfOk result (λ d. from ≤ℤ d) }
    ensures to { IfOk result (λ d. d ≤ℤ (from +ℤ pos 45)) }
    ensures close { E.BITS ≡ 56 → IsNarrowLocation evenings.now → IfErr result IsClose }
{
    first_day::<E, Evenings<'_, E>>(evenings, from, trail)
}

/// The same, from where the new moon of a day tells.
#[tactic(auto, using(book_model::proofs::Leads::leading), unfolding(book_model::specs::sky::Crescent::visibility_after_of))]
fn visibility_after<E: Enclosure>(
    evenings: &Evenings<'_, E>,
    day: i64,
    new_moon: i64,
    trail: &mut Trail,
) -> Result<i64, Fail>
    requires day { IsFactDay day }
    requires near { IsPhaseDay new_moon }
    ensures leads { Decides (spec.visibility_after_of evenings.now day new_moon) trail.old.count
        trail.new.count result }
    ensures value { IfOk result IsFactValue }
    ensures close { E.BITS ≡ 56 → IsNarrowLocation evenings.now → first_fact_day ≤ℤ (day -ℤ pos 1)
        → IfErr result IsClose }
{
    let from = visibility_start(evenings, day, new_moon, trail)?;
    first_visibility(evenings, from, trail)
}

/// The same for the evenings at a location, by the linear models of the moon and the sun.
#[tactic(auto, using(book_model::proofs::Leads::leading), unfolding(book_model::specs::sky::Crescent::phasis_of))]
fn phasis_on<E: Enclosure>(
    linear_model: &PhaseLinearModel<E>,
    evenings: &Evenings<'_, E>,
    day: i64,
    trail: &mut Trail,
) -> Result<i64, Fail>
    requires day { IsFactDay day }
    ensures leads { Decides (spec.phasis_of evenings.now day) trail.old.count trail.new.count result }
    ensures value { IfOk result IsFactValue }
    ensures early { trail.old.count ≡ 0 → 36 ≤ E.BITS → E.BITS ≤ 56 → IsValueDay day
        → IfErr result IsNoEarlyYear }
    ensures close { E.BITS ≡ 56 → IsNarrowLocation evenings.now → IfErr result IsClose }
{
    let new_moon = phase_day::<E>(linear_model, NEW_MOON, day, trail)?;
    visibility_after(evenings, day, new_moon, trail)
}

/// `phasis` for one who looks, where the linear models of the moon and the sun are known over the usual days.
pub fn phasis_by<E: Enclosure>(
    linear_model: &PhaseLinearModel<E>,
    observer: &Observer<'_>,
    day: i64,
    trail: &mut Trail,
) -> Result<i64, Fail>
    requires day { IsFactDay day }
    ensures leads { Decides (spec.phasis_of observer.now day) trail.old.count trail.new.count result }
    ensures value { IfOk result IsFactValue }
    ensures early { trail.old.count ≡ 0 → 36 ≤ E.BITS → E.BITS ≤ 56 → IsValueDay day
        → IfErr result IsNoEarlyYear }
    ensures close { E.BITS ≡ 56 → IsNarrowLocation observer.now → IfErr result IsClose }
{
    phasis_on(linear_model, &Evenings::<E>::of(observer), day, trail)
}

/// The last day (R.D.) before a day, or the day itself, on whose evening before the crescent was first seen at a location by
/// Shaukat's criterion (Reingold and Dershowitz, Calendrical Calculations, chapter 14): sought from the day of the last new moon,
/// or, where its crescent isn't seen yet, from 30 days before that. At most 7,942 tests. It is void at `search` where there is no
/// such day, and where `phase_day` or `visible` is. Its first and third tests, of the year of the day itself, are never undecided.
pub fn phasis<E: Enclosure>(location: &Location, day: i64, trail: &mut Trail) -> Result<i64, Fail>
    requires day { IsFactDay day }
    ensures leads { Decides (spec.phasis_of location.now day) trail.old.count trail.new.count result }
    ensures value { IfOk result IsFactValue }
    ensures early { trail.old.count ≡ 0 → 36 ≤ E.BITS → E.BITS ≤ 56 → IsValueDay day
        → IfErr result IsNoEarlyYear }
    ensures close { E.BITS ≡ 56 → IsNarrowLocation location.now → IfErr result IsClose }
{
    let linear_model = PhaseLinearModel::<E>::usual();
    phasis_on(&linear_model, &Evenings::<E>::new(location), day, trail)
}

/// Whether a day (R.D.) is so late after a new moon that its crescent has been seen.
fn is_late(day: i64, new_moon: i64) -> bool
    requires day { IsTableDay day }
    requires near { IsPhaseDay new_moon }
    ensures late { result ≡ int_le (pos 4) (day -ℤ new_moon) }
{
    SEEN_DAYS <= day - new_moon
}

/// The day (R.D.) from which the first visibility from a day on is sought, by whether the crescent of the last new moon is seen before.
#[tactic(auto, unfolding(book_model::specs::sky::Nisan::sought_from))]
fn sought_from(day: i64, new_moon: i64, is_seen: bool) -> i64
    requires day { IsTableDay day }
    requires near { IsPhaseDay new_moon }
    ensures start { result ≡ nisan.sought_from day new_moon is_seen }
    ensures near { IsDayOfVisibility result }
{
    if is_seen { new_moon + DAYS_ON } else { day }
}

/// The day (R.D.) on whose evening it is asked whether the crescent is seen before a day.
fn day_before(day: i64) -> i64
    requires day { IsTableDay day }
    ensures day { result ≡ day -ℤ pos 1 }
    ensures near { IsFactDay (result -ℤ pos 1) }
{
    day - 1
}

/// The same, where the crescent of the last new moon may be one that is seen from the day on: 151 tests at most.
#[tactic(auto, using(book_model::proofs::Leads::leading), unfolding(book_model::specs::sky::Nisan::sought_start_of))]
fn sought_start<E: Enclosure>(
    evenings: &Evenings<'_, E>,
    day: i64,
    new_moon: i64,
    trail: &mut Trail,
) -> Result<i64, Fail>
    requires day { IsTableDay day }
    requires near { IsPhaseDay new_moon }
    ensures leads { Decides (nisan.sought_start_of evenings.now day new_moon) trail.old.count
        trail.new.count result }
    ensures near { IfOk result IsDayOfVisibility }
    ensures close { E.BITS ≡ 56 → IsNarrowLocation evenings.now → IfErr result IsClose }
{
    if is_late(day, new_moon) {
        return Ok(new_moon + DAYS_ON);
    }
    let is_seen = visible_on(evenings, day_before(day), trail)?;
    Ok(sought_from(day, new_moon, is_seen))
}

/// The first day (R.D.) from a day on on whose evening before the crescent is seen for the first time, from where the new moon before
/// it tells.
#[tactic(auto, using(book_model::proofs::Leads::leading), unfolding(book_model::specs::sky::Nisan::visibility_by_of))]
fn visibility_by<E: Enclosure>(
    evenings: &Evenings<'_, E>,
    day: i64,
    new_moon: i64,
    trail: &mut Trail,
) -> Result<i64, Fail>
    requires day { IsTableDay day }
    requires near { IsPhaseDay new_moon }
    ensures leads { Decides (nisan.visibility_by_of evenings.now day new_moon) trail.old.count
        trail.new.count result }
    ensures value { IfOk result IsFactValue }
    ensures close { E.BITS ≡ 56 → IsNarrowLocation evenings.now → IfErr result IsClose }
{
    let from = sought_start(evenings, day, new_moon, trail)?;
    first_visibility(evenings, from, trail)
}

// It stands beside the search for the last one, so that Nisan is a formula of crescent and sun.
/// The first day (R.D.) from a day on with whose evening before a month begins: the crescent is seen then for the first time at a
/// location, by Shaukat's criterion (Reingold and Dershowitz, Calendrical Calculations, chapter 18). It is sought from 29 days after
/// the last new moon, or, where the crescent of that may not have been seen yet, from the day; the linear models of the moon and the
/// sun are known over the usual days. At most 7,942 tests. It is void at `search` where there is no such day, and where `phase_day` or
/// `visible` is.
#[tactic(auto, using(book_model::proofs::Leads::leading), unfolding(book_model::specs::sky::Nisan::visibility_from_of))]
pub fn visibility_from_by<E: Enclosure>(
    linear_model: &PhaseLinearModel<E>,
    observer: &Observer<'_>,
    day: i64,
    trail: &mut Trail,
) -> Result<i64, Fail>
    requires day { IsFactDay day }
    ensures leads { Decides (nisan.visibility_from_of observer.now day) trail.old.count trail.new.count
        result }
    ensures value { IfOk result IsFactValue }
    ensures close { E.BITS ≡ 56 → IsNarrowLocation observer.now → IfErr result IsClose }
{
    let new_moon = phase_day::<E>(linear_model, NEW_MOON, day, trail)?;
    let evenings = Evenings::<E>::of(observer);
    visibility_by(&evenings, day, new_moon, trail)
}
