//! The number of the new moon before a moment, by the phase of the moon there.
//!
//! It is rounded from months that lie within a 50th of a whole number, so a phase by a linear model over all usual days tells it
//! mostly. Where that leaves a test undecided, as near a new moon, its tests are taken back, and the phase at the moment tells it.
ghost use Rattle.book_model.specs.programs.Calls.{Decides1, Decides2};
ghost use Rattle.book_model.specs.programs.Widths.{IsAbout, IsClose, IsMoment, IsUpTo, Closes1, IsSince};
ghost use Rattle.std.specs.Prelude.{◌≡◌, ℕ, ◌≤◌, ◌+◌, ◌*◌, ◌/◌, ◌^◌, pos, negsuc, ◌≤ℤ◌, Ok, IfOk, IfErr};
ghost use Rattle.book_model.specs.declared.new_moon_tables.TheConstants.{FIRST_LATE_MOON as first_late, LAST_TABLE_MOON as last_moon, LATE_START};
ghost use Rattle.book_model.specs.sky.Phases as spec;
ghost use Rattle.moon_core.specs.LinearModels.{number_by, number_of_phase as number_of_phase_of};
ghost use Rattle.encl_core.specs.declared.greatest_widths.TheConstants.{PHASE};
ghost use Rattle.encl_core.specs.GreatestWidths.{greatest_of};

use crate::phase_linear_models::{PhaseLinearModel, phase_by};
use crate::phases::{months_since, nearest_moon, phase};
use book_model::Fail;
use book_model::new_moon_tables::DEGREE_IN_MONTHS;
use encl_core::{Enclosure, Trail};

/// The whole number that is nearest to so many months less those of a phase: one test.
#[tactic(auto, unfolding(crate::specs::LinearModels::number_of_phase))]
fn number_of_phase<E: Enclosure>(months: E, degrees: E, trail: &mut Trail) -> Result<i64, Fail>
    ensures leads { Decides2 E.shown number_of_phase_of months degrees trail.old.count
        trail.new.count result }
    ensures close { (v : ℕ) → E.BITS ≡ 56 → v ≤ 3 * 2 ^ 37
        → IsAbout (2 ^ 54) (v / 29 + 2 ^ 26) (E.shown months)
        → IsUpTo 360 (greatest_of PHASE v) (E.shown degrees) → IfErr result IsClose }
{
    nearest_moon(months.sub(degrees.mul_frac(DEGREE_IN_MONTHS)), trail)
}

/// The number by the months since the new moon of number 0 and by the phase at the moment itself.
#[tactic(auto, using(book_model::proofs::Leads::leading), unfolding(crate::specs::LinearModels::number_by))]
fn number_at<E: Enclosure>(months: E, t: E, trail: &mut Trail) -> Result<i64, Fail>
    ensures leads { Decides2 E.shown number_by months t trail.old.count trail.new.count result }
    ensures close { (v : ℕ) → E.BITS ≡ 56 → v ≤ 3 * 2 ^ 37
        → IsAbout (2 ^ 54) (v / 29 + 2 ^ 26) (E.shown months) → IsMoment v (E.shown t)
        → IfErr result IsClose }
{
    let degrees = phase(t, trail)?;
    number_of_phase(months, degrees, trail)
}

/// The same by a linear model. Where it answers it has made the tests of `number_at`; a failure says nothing.
fn number_near<E: Enclosure>(
    linear_model: &PhaseLinearModel<E>,
    months: E,
    t: E,
    trail: &mut Trail,
) -> Result<i64, Fail>
    ensures leads { IfOk result (λ n. Decides2 E.shown number_by months t trail.old.count
        trail.new.count (Ok n)) }
{
    let degrees = phase_by(linear_model, t, trail)?;
    number_of_phase(months, degrees, trail)
}

/// The same, as a try: where it fails, no test has been made.
fn number_tried<E: Enclosure>(
    linear_model: &PhaseLinearModel<E>,
    months: E,
    t: E,
    trail: &mut Trail,
) -> Result<i64, Fail>
    ensures leads { IfOk result (λ n. Decides2 E.shown number_by months t trail.old.count
        trail.new.count (Ok n)) }
    ensures back { IfErr result (λ z. trail.new.count ≡ trail.old.count) }
{
    trail.attempt(
        |inner: &mut Trail| -> Result<i64, Fail>
            ensures { IfOk result (λ n. Decides2 E.shown number_by months t inner.old.count
                inner.new.count (Ok n)) }
        { number_near(linear_model, months, t, inner) },
    )
}

/// The number by the months since the new moon of number 0: by a linear model where that decides it, and else by the phase at the
/// moment.
fn number_after<E: Enclosure>(
    linear_model: &PhaseLinearModel<E>,
    months: E,
    t: E,
    trail: &mut Trail,
) -> Result<i64, Fail>
    ensures leads { Decides2 E.shown number_by months t trail.old.count trail.new.count result }
    ensures close { (v : ℕ) → E.BITS ≡ 56 → v ≤ 3 * 2 ^ 37
        → IsAbout (2 ^ 54) (v / 29 + 2 ^ 26) (E.shown months) → IsMoment v (E.shown t)
        → IfErr result IsClose }
{
    match number_tried(linear_model, months, t, trail) {
        Ok(number) => Ok(number),
        Err(_) => number_at(months, t, trail),
    }
}

/// The number of the last new moon before a moment, or of one next to it, which lies within 40,000 of 0: twelve tests at most
/// (`number_few`).
#[tactic(auto, using(book_model::proofs::Leads::leading), unfolding(book_model::specs::sky::Phases::number_of_moon, crate::specs::LinearModels::number_by, crate::specs::LinearModels::number_of_phase))]
pub(crate) fn number<E: Enclosure>(
    linear_model: &PhaseLinearModel<E>,
    t: E,
    trail: &mut Trail,
) -> Result<i64, Fail>
    ensures leads { Decides1 E.shown spec.number_of_moon t trail.old.count trail.new.count result }
    ensures low { IfOk result (λ n. negsuc 39999 ≤ℤ n) }
    ensures high { IfOk result (λ n. n ≤ℤ pos 40000) }
    ensures from { IfOk result (λ n. negsuc 6199 ≤ℤ n) }
    ensures to { IfOk result (λ n. n ≤ℤ last_moon) }
    ensures late { (v : ℕ) → IsSince LATE_START v (E.shown t) → IfOk result (λ n. first_late ≤ℤ n) }
    ensures close { Closes1 E.BITS E.shown (3 * 2 ^ 37) IsMoment t result }
{
    let months = months_since(0, t, trail)?;
    number_after(linear_model, months, t, trail)
}
