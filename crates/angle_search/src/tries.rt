//! An iteration of a bisection by a linear model of its angle, or else by the angle at the moment itself.
//!
//! A linear model is wide, so a test by it may be undecided where that of the angle is not. An iteration by a linear model is
//! therefore a try: where it is decided it has made the tests of the formula, and where not its tests are taken back, and the
//! angle is evaluated. So an undecided test of an iteration is always one of the angle at the moment, as narrow as that is.
ghost use Rattle.std.specs.Prelude.{◌≡◌, ◌≤◌, ◌+◌, ◌*◌, ◌^◌, ℕ, Ok, IfOk, IfErr, IfSome, IsNone};
ghost use Rattle.book_model.specs.programs.Calls.{Decides2};
ghost use Rattle.book_model.specs.programs.Widths.{IsAbout, IsMoment, IsClose};
ghost use Rattle.book_model.specs.programs.Bisection as spec;

use crate::Angular;
use crate::bisection::{has_passed, has_passed_at};
use crate::known::Known;
use crate::narrowings::stretch_by;
use book_model::Fail;
use encl_core::{Enclosure, Trail};

/// Whether an angle has passed another at a number, by a linear model. Where it answers it has made the tests of its formula; a
/// failure says nothing.
fn has_passed_near<E: Enclosure, F: Angular<E>>(
    linear_model: &F,
    target: E,
    x: E,
    trail: &mut Trail,
) -> Result<bool, Fail>
    ensures leads { IfOk result (λ b. Decides2 E.shown (spec.has_passed_at F.angle_of) target x
        trail.old.count trail.new.count (Ok b)) }
{
    let angle = linear_model.near(x, trail)?;
    has_passed(angle, target, trail)
}

/// The same, as a try: where it fails, no test has been made.
fn tried<E: Enclosure, F: Angular<E>>(
    linear_model: &F,
    target: E,
    x: E,
    trail: &mut Trail,
) -> Result<bool, Fail>
    ensures leads { IfOk result (λ b. Decides2 E.shown (spec.has_passed_at F.angle_of) target x
        trail.old.count trail.new.count (Ok b)) }
    ensures back { IfErr result (λ z. trail.new.count ≡ trail.old.count) }
{
    trail.attempt(
        |inner: &mut Trail| -> Result<bool, Fail>
            ensures { IfOk result (λ b. Decides2 E.shown (spec.has_passed_at F.angle_of) target x
                inner.old.count inner.new.count (Ok b)) }
        { has_passed_near(linear_model, target, x, inner) },
    )
}

/// The same by a linear model over the interval that a try left undecided, if it left one and the angle is known there.
fn learned<E: Enclosure, F: Angular<E>>(
    f: &F,
    known: &mut Known<F>,
    target: E,
    x: E,
    fail: Fail,
    trail: &mut Trail,
) -> Option<bool>
    ensures leads { IfSome result (λ b. Decides2 E.shown (spec.has_passed_at F.angle_of) target x
        trail.old.count trail.new.count (Ok b)) }
    ensures back { IsNone result → trail.new.count ≡ trail.old.count }
{
    let Some(interval_of_days) = stretch_by(f, x, fail) else {
        return None;
    };
    let Some(linear_model) = known.last_or(f).over(interval_of_days, trail) else {
        return None;
    };
    let found = tried(&linear_model, target, x, trail);
    known.learn(linear_model);
    match found {
        Ok(passed) => Some(passed),
        Err(_) => None,
    }
}

/// The same by the linear model before the last, or else by one that is learned.
fn decided_before<E: Enclosure, F: Angular<E>>(
    f: &F,
    known: &mut Known<F>,
    target: E,
    x: E,
    trail: &mut Trail,
) -> Option<bool>
    ensures leads { IfSome result (λ b. Decides2 E.shown (spec.has_passed_at F.angle_of) target x
        trail.old.count trail.new.count (Ok b)) }
    ensures back { IsNone result → trail.new.count ≡ trail.old.count }
{
    match tried(known.before_or(f), target, x, trail) {
        Ok(passed) => Some(passed),
        Err(fail) => learned(f, known, target, x, fail, trail),
    }
}

/// The same by the last linear model, or where the number doesn't lie in it by the one before, or else by one that is learned.
fn decided<E: Enclosure, F: Angular<E>>(
    f: &F,
    known: &mut Known<F>,
    target: E,
    x: E,
    trail: &mut Trail,
) -> Option<bool>
    ensures leads { IfSome result (λ b. Decides2 E.shown (spec.has_passed_at F.angle_of) target x
        trail.old.count trail.new.count (Ok b)) }
    ensures back { IsNone result → trail.new.count ≡ trail.old.count }
{
    match tried(known.last_or(f), target, x, trail) {
        Ok(passed) => Some(passed),
        Err(Fail::Void(_)) => decided_before(f, known, target, x, trail),
        Err(open) => learned(f, known, target, x, open, trail),
    }
}

/// Whether an angle has passed another at a number: by a linear model where that decides it, and else by the angle at the
/// number. An undecided test is always one of the angle at the number.
pub(crate) fn turned<E: Enclosure, F: Angular<E>>(
    f: &F,
    known: &mut Known<F>,
    target: E,
    x: E,
    trail: &mut Trail,
) -> Result<bool, Fail>
    ensures leads { Decides2 E.shown (spec.has_passed_at F.angle_of) target x
        trail.old.count trail.new.count result }
    ensures close { (v u : ℕ) → E.BITS ≡ 56 → v ≤ 3 * 2 ^ 37 → F.spread v + u ≤ 2 ^ 40
        → IsMoment v (E.shown x) → IsAbout (2 ^ 58) u (E.shown target) → IfErr result IsClose }
{
    match decided(f, known, target, x, trail) {
        Some(passed) => Ok(passed),
        None => has_passed_at(f, target, x, trail),
    }
}
