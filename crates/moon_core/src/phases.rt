//! The moon's phase, and the number of the new moon about a moment, roughly.
ghost use Rattle.book_model.specs.programs.Calls.{Decides1, Decides2, Encloses1, Follows1, Follows2, Holds2};
ghost use Rattle.book_model.specs.programs.Widths.{IsAbout, IsClose, IsMoment, IsSmall, IsUpTo, IsWithin, Measured1, Measured2, Measures, Answers1, Answers2, Closes1};
ghost use Rattle.book_model.specs.programs.Leading.{Leads};
ghost use Rattle.book_model.specs.numbers.Expressions.{Expression, World};
ghost use Rattle.book_model.specs.numbers.Relations.{Within};
ghost use Rattle.moon_core.specs.MoonPlaces.{HasAngle, IsMeasuredPlace, IsPlaceOf};
ghost use Rattle.moon_core.specs.PickedLongitudes.{are_apart_of};
ghost use Rattle.std.specs.Prelude.{◌≡◌, ℕ, ◌≤◌, ◌+◌, ◌*◌, ◌/◌, ◌^◌, ℤ, pos, negsuc, ◌≤ℤ◌, IfOk, IfErr};
ghost use Rattle.book_model.specs.Interval.{Interval};
ghost use Rattle.book_model.specs.declared.new_moon_tables.TheConstants.{LAST_TABLE_MOON as last_moon};
ghost use Rattle.book_model.specs.sky.Phases as spec;
ghost use Rattle.book_model.specs.numbers.Ranges.{IsInTable};
ghost use Rattle.time_scales.specs.Steps.{IsYearUndecidedFor, IsEarlyYearFor};
ghost use Rattle.encl_core.specs.declared.greatest_widths.TheConstants.{PHASE};
ghost use Rattle.encl_core.specs.GreatestWidths.{greatest_of};

use crate::longitude::{MoonPlace, moon_place};
use book_model::new_moon_tables::{DAY_IN_MONTHS, TURN};
use book_model::tables::HALF;
use book_model::{Fail, Site};
use encl_core::{Enclosure, Trail, floor_step, less_step, wrap_step};
use new_moons::new_moon;
use sun_core::{HALF_TURN, sun};

/// An angle, reduced to 0 up to 360 degrees, as one test.
#[tactic(auto, using(book_model::proofs::Leads::leading, crate::proofs::UndecidedTests::opening), unfolding(book_model::specs::sky::Phases::within_turn_of))]
pub(crate) fn within_turn<E: Enclosure>(angle: E, trail: &mut Trail) -> Result<E, Fail>
    ensures leads { Follows1 E.shown spec.within_turn_of angle trail.old.count trail.new.count
        result }
    ensures measured { Measured1 E.BITS E.shown (2 ^ 44) (IsAbout (2 ^ 90)) (IsUpTo 360) angle
        result }
    ensures wide { Answers1 E.BITS E.shown (2 ^ 46) (IsAbout (2 ^ 90)) (IsUpTo 360) angle result }
    ensures elsewhere { (i : Interval) → IfErr result (IsYearUndecidedFor i) }
{
    wrap_step(angle, 360, Site::PhaseWrap, trail)
}

/// An angle of the moon at a moment, in degrees, and its place then.
#[derive(Clone, Copy, Drop)]
pub struct PlacedAngle<E> {
    pub angle: E,
    pub place: MoonPlace<E>,
}

/// The longitude of the moon less that of the sun, from 0 up to 360 degrees, at a moment of the years of which ΔT is
/// known: five tests at most (`elongation_few`).
#[tactic(auto, using(book_model::proofs::Leads::leading), unfolding(book_model::specs::sky::Phases::elongation_of))]
fn elongation<E: Enclosure>(t: E, trail: &mut Trail) -> Result<PlacedAngle<E>, Fail>
    ensures leads { (w : World) (x : Expression) → Within E.shown w x t
        → Leads w (HasAngle E.shown w) (spec.elongation_of x) trail.old.count trail.new.count result }
    ensures again { IfOk result (λ p. (w : World) (x : Expression) → Within E.shown w x t
        → IsPlaceOf E.shown w x p.place) }
    ensures measured { (v : ℕ) → E.BITS ≡ 56 → v ≤ 2 ^ 39 → IsMoment v (E.shown t)
        → Measures (λ p. IsUpTo 360 (22 * v + 17 * 2 ^ 32) (E.shown p.angle)) result }
    ensures placed { (v : ℕ) → E.BITS ≡ 56 → v ≤ 2 ^ 39 → IsMoment v (E.shown t)
        → IfOk result (λ p. IsMeasuredPlace E.shown E.BITS v p.place) }
    ensures wide { (v : ℕ) → E.BITS ≡ 56 → v ≤ 2 ^ 40 → IsMoment v (E.shown t)
        → IfOk result (λ p. IsUpTo 360 (22 * v + 17 * 2 ^ 32) (E.shown p.angle)) }
    ensures open { IfErr result (IsYearUndecidedFor (E.shown t)) }
    ensures in_table { IfOk result (λ p. IsInTable (E.shown t)) }
{
    let place = moon_place(t, trail)?;
    let longitude = sun(t, trail)?;
    let angle = within_turn(place.longitude.sub(longitude), trail)?;
    Ok(PlacedAngle { angle, place })
}

/// The synodic months from the new moon of a number to a moment: one test at most (`months_few`).
#[tactic(auto, using(book_model::proofs::Leads::leading), unfolding(book_model::specs::sky::Phases::months_since, book_model::specs::sky::Phases::months_between))]
pub(crate) fn months_since<E: Enclosure>(n: i64, t: E, trail: &mut Trail) -> Result<E, Fail>
    requires number { IsSmall n }
    ensures leads { Follows1 E.shown (spec.months_since n) t trail.old.count trail.new.count result }
    ensures measured { negsuc 6299 ≤ℤ n → n ≤ℤ pos 55724 → Measured1 E.BITS E.shown (2 ^ 44)
        IsMoment (λ v. IsAbout (2 ^ 54) (v / 29 + 2 ^ 26)) t result }
{
    let moment = new_moon::<E>(n, trail)?;
    Ok(t.sub(moment).mul_frac(DAY_IN_MONTHS))
}

/// The whole number of months that is nearest, as one test.
#[tactic(auto, using(book_model::proofs::Leads::leading), unfolding(book_model::specs::sky::Phases::nearest_moon_of))]
pub(crate) fn nearest_moon<E: Enclosure>(months: E, trail: &mut Trail) -> Result<i64, Fail>
    ensures leads { Decides1 E.shown spec.nearest_moon_of months trail.old.count trail.new.count
        result }
    ensures close { Closes1 E.BITS E.shown (2 ^ 43) (IsAbout (2 ^ 89)) months result }
{
    floor_step(months.add(E::from_frac(HALF)), Site::MoonNumber, trail)
}

/// The number of the new moon about a moment of the years of which ΔT is known, by mean months from the first: two
/// tests at most (`rough_few`).
#[tactic(auto, using(book_model::proofs::Leads::leading), unfolding(book_model::specs::sky::Phases::rough_number_of))]
pub(crate) fn rough_number<E: Enclosure>(t: E, trail: &mut Trail) -> Result<i64, Fail>
    requires in_table { IsInTable (E.shown t) }
    ensures leads { Decides1 E.shown spec.rough_number_of t trail.old.count trail.new.count result }
    ensures low { IfOk result (λ n. negsuc 39999 ≤ℤ n) }
    ensures high { IfOk result (λ n. n ≤ℤ pos 40000) }
    ensures from { IfOk result (λ n. negsuc 6199 ≤ℤ n) }
    ensures to { IfOk result (λ n. n ≤ℤ last_moon) }
    ensures close { Closes1 E.BITS E.shown (2 ^ 44) IsMoment t result }
{
    let months = months_since(0, t, trail)?;
    nearest_moon(months, trail)
}

/// What is left of so many months by whole months, as one test.
#[tactic(auto, using(book_model::proofs::Leads::leading), unfolding(book_model::specs::sky::Phases::rest_of_month))]
fn rest_of_month<E: Enclosure>(months: E, trail: &mut Trail) -> Result<E, Fail>
    ensures leads { Follows1 E.shown spec.rest_of_month months trail.old.count trail.new.count
        result }
    ensures measured { Measured1 E.BITS E.shown (2 ^ 44) (IsAbout (2 ^ 90)) (IsUpTo 1) months result }
{
    wrap_step(months, 1, Site::PhaseWrap, trail)
}

/// The phase by the time since the new moon of a number, from 0 up to 360 degrees: two tests at most (`by_months_few`).
#[tactic(auto, using(book_model::proofs::Leads::leading), unfolding(book_model::specs::sky::Phases::phase_by_months_of))]
pub(crate) fn phase_by_months<E: Enclosure>(n: i64, t: E, trail: &mut Trail) -> Result<E, Fail>
    requires number { IsSmall n }
    ensures leads { Follows1 E.shown (spec.phase_by_months_of n) t trail.old.count trail.new.count
        result }
    ensures measured { negsuc 6299 ≤ℤ n → n ≤ℤ pos 55724 → Measured1 E.BITS E.shown (2 ^ 44)
        IsMoment (λ v. IsUpTo 360 (13 * v + 2 ^ 35)) t result }
{
    let months = months_since(n, t, trail)?;
    let rest = rest_of_month(months, trail)?;
    Ok(rest.mul_frac(TURN))
}

/// The size of a number.
fn size<E: Enclosure>(x: E) -> E
    ensures encloses { Encloses1 E.shown E.BITS spec.size_of x result }
{
    x.max(x.neg())
}

/// The second of two phases, where they are apart.
#[tactic(auto, using(crate::proofs::Measured::wider_turn), unfolding(book_model::specs::sky::Phases::phase_of_choice))]
fn phase_of_choice<E: Enclosure>(apart: bool, by_longitudes: E, by_time: E) -> E
    ensures holds { Holds2 E.shown (spec.phase_of_choice apart) by_longitudes by_time result }
    ensures measured { (v u w : ℕ) → v ≤ w → u ≤ w → IsUpTo 360 v (E.shown by_longitudes)
        → IsUpTo 360 u (E.shown by_time) → IsUpTo 360 w (E.shown result) }
{
    if apart { by_time } else { by_longitudes }
}

/// Whether two phases are more than 180 degrees apart: one test.
#[tactic(auto, using(book_model::proofs::Leads::leading), unfolding(crate::specs::PickedLongitudes::are_apart_of))]
pub(crate) fn is_apart<E: Enclosure>(
    by_longitudes: E,
    by_time: E,
    trail: &mut Trail,
) -> Result<bool, Fail>
    ensures leads { Decides2 E.shown are_apart_of by_longitudes by_time trail.old.count
        trail.new.count result }
    ensures close { (v : ℕ) → E.BITS ≡ 56 → v ≤ 3 * 2 ^ 37
        → IsUpTo 360 (22 * v + 17 * 2 ^ 32) (E.shown by_longitudes)
        → IsUpTo 360 (13 * v + 2 ^ 35) (E.shown by_time) → IfErr result IsClose }
{
    let apart = size(by_longitudes.sub(by_time));
    less_step(E::from_int(HALF_TURN), apart, Site::PhasePick, trail)
}

/// The phase by longitudes, or the one by the time where they are more than 180 degrees apart: one test.
#[tactic(auto, using(book_model::proofs::Leads::leading), unfolding(book_model::specs::sky::Phases::test_which_phase_of))]
fn test_which_phase<E: Enclosure>(
    by_longitudes: E,
    by_time: E,
    trail: &mut Trail,
) -> Result<E, Fail>
    ensures leads { Follows2 E.shown spec.test_which_phase_of by_longitudes by_time trail.old.count
        trail.new.count result }
    ensures measured { Measured2 E.BITS E.shown (3 * 2 ^ 37)
        (λ v. IsUpTo 360 (22 * v + 17 * 2 ^ 32))
        (λ v. IsUpTo 360 (13 * v + 2 ^ 35)) (λ v. IsUpTo 360 (24 * v + 2 ^ 37)) by_longitudes
        by_time
        result }
    ensures wide { Answers2 E.BITS E.shown (2 ^ 40) (λ v. IsUpTo 360 (22 * v + 17 * 2 ^ 32))
        (λ v. IsUpTo 360 (13 * v + 2 ^ 35)) (λ v. IsUpTo 360 (24 * v + 2 ^ 37)) by_longitudes
        by_time
        result }
{
    let apart = is_apart(by_longitudes, by_time, trail)?;
    Ok(phase_of_choice(apart, by_longitudes, by_time))
}

// Apart from the longitudes, so that the first three tests, at the year of the moment itself twice,
// are told from the later ones: at a whole day these are never undecided (`IsNoEarlyYear`).
/// The phase by longitudes, or in its place the one by the time since the new moon about the moment.
#[tactic(auto, using(book_model::proofs::Leads::leading), unfolding(book_model::specs::sky::Phases::corrected_of))]
pub(crate) fn corrected<E: Enclosure>(by_longitudes: E, t: E, trail: &mut Trail) -> Result<E, Fail>
    requires in_table { IsInTable (E.shown t) }
    ensures leads { Follows2 E.shown spec.corrected_of t by_longitudes trail.old.count
        trail.new.count result }
    ensures measured { Measured2 E.BITS E.shown (3 * 2 ^ 37)
        (λ v. IsUpTo 360 (22 * v + 17 * 2 ^ 32))
        IsMoment (λ v. IsUpTo 360 (24 * v + 2 ^ 37)) by_longitudes t result }
    ensures wide { Answers2 E.BITS E.shown (2 ^ 40) (λ v. IsUpTo 360 (22 * v + 17 * 2 ^ 32))
        IsMoment
        (λ v. IsUpTo 360 (24 * v + 2 ^ 37)) by_longitudes t result }
{
    let number = rough_number(t, trail)?;
    let by_time = phase_by_months(number, t, trail)?;
    test_which_phase(by_longitudes, by_time, trail)
}

/// The phase at a moment of universal time, by the tests of `phase`, and the moon's place then.
#[tactic(auto, using(book_model::proofs::Leads::leading), unfolding(book_model::specs::sky::Phases::phase_of))]
pub fn placed_phase<E: Enclosure>(t: E, trail: &mut Trail) -> Result<PlacedAngle<E>, Fail>
    ensures leads { (w : World) (x : Expression) → Within E.shown w x t
        → Leads w (HasAngle E.shown w) (spec.phase_of x) trail.old.count trail.new.count result }
    ensures again { IfOk result (λ p. (w : World) (x : Expression) → Within E.shown w x t
        → IsPlaceOf E.shown w x p.place) }
    ensures measured { (v : ℕ) → E.BITS ≡ 56 → v ≤ 3 * 2 ^ 37 → IsMoment v (E.shown t)
        → Measures (λ p. IsUpTo 360 (greatest_of PHASE v) (E.shown p.angle)) result }
    ensures placed { (v : ℕ) → E.BITS ≡ 56 → v ≤ 3 * 2 ^ 37 → IsMoment v (E.shown t)
        → IfOk result (λ p. IsMeasuredPlace E.shown E.BITS v p.place) }
    ensures wide { (v : ℕ) → E.BITS ≡ 56 → v ≤ 2 ^ 40 → IsMoment v (E.shown t)
        → IfOk result (λ p. IsUpTo 360 (greatest_of PHASE v) (E.shown p.angle)) }
    ensures in_table { IfOk result (λ p. IsInTable (E.shown t)) }
    ensures early { trail.old.count ≡ 0 → IfErr result (IsEarlyYearFor (E.shown t)) }
{
    let by_longitudes = elongation(t, trail)?;
    let angle = corrected(by_longitudes.angle, t, trail)?;
    Ok(PlacedAngle {
        angle,
        place: by_longitudes.place,
    })
}

/// The phase of the moon at a moment of universal time, in degrees: its longitude less the sun's, from 0 up to 360, or,
/// where the moment is so near a new moon that this is a turn off, the time since the new moon in its place (Reingold
/// and Dershowitz, Calendrical Calculations, chapter 14). Ten tests: five of the longitudes, two of the number of the new
/// moon about the moment, two of the time since that, and one that picks. It is void at `year` in a year without
/// ΔT.
pub fn phase<E: Enclosure>(t: E, trail: &mut Trail) -> Result<E, Fail>
    ensures leads { Follows1 E.shown spec.phase_of t trail.old.count trail.new.count result }
    ensures measured { Measured1 E.BITS E.shown (3 * 2 ^ 37) IsMoment
        (λ v. IsUpTo 360 (greatest_of PHASE v)) t result }
    ensures wide { Answers1 E.BITS E.shown (2 ^ 40) IsMoment
        (λ v. IsUpTo 360 (greatest_of PHASE v)) t
        result }
    ensures in_table { IfOk result (λ p. IsInTable (E.shown t)) }
    ensures early { trail.old.count ≡ 0 → IfErr result (IsEarlyYearFor (E.shown t)) }
{
    let placed = placed_phase(t, trail)?;
    Ok(placed.angle)
}
