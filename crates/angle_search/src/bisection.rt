//! Bisection: the half is kept in which an angle is passed, until the bounds are near.
ghost use Rattle.std.specs.Prelude.{◌≡◌, ◌≤◌, ◌+◌, ◌*◌, ◌^◌, ℕ, IfErr};
ghost use Rattle.book_model.specs.programs.Calls.{Decides2, Encloses2, Follows2, Follows3};
ghost use Rattle.book_model.specs.programs.Widths.{IsAbout, IsMoment, IsUpTo, IsClose, Measures};
ghost use Rattle.book_model.specs.programs.Bisection as spec;
ghost use Rattle.encl_core.specs.declared.greatest_widths.TheConstants.{BISECTION};
ghost use Rattle.encl_core.specs.GreatestWidths.{greatest_of};

use crate::Angular;
use crate::known::Known;
use crate::tries::turned;
use book_model::tables::{HALF, HUNDRED_THOUSANDTH};
use book_model::{Fail, Site};
use encl_core::{Enclosure, Trail, less_step, wrap_step};

/// How many iterations a bisection makes at most: the definition's number. Days ten apart are near after 20.
const GREATEST_ITERATIONS: u32 = 64;

/// Half a turn, in degrees.
pub const HALF_TURN: i64 = 180;

/// The middle of two numbers.
#[tactic(auto, unfolding(book_model::specs::programs::Bisection::middle_of))]
fn middle<E: Enclosure>(low: E, high: E) -> E
    ensures encloses { Encloses2 E.shown E.BITS spec.middle_of low high result }
{
    low.add(high).mul_frac(HALF)
}

/// Whether two numbers are less than a hundred-thousandth apart: one test, at `bisect-end`.
#[tactic(auto, using(book_model::proofs::Leads::leading), unfolding(book_model::specs::programs::Bisection::are_near_of))]
fn are_near<E: Enclosure>(low: E, high: E, trail: &mut Trail) -> Result<bool, Fail>
    ensures leads { Decides2 E.shown spec.are_near_of low high trail.old.count trail.new.count
        result }
    ensures close { (v : ℕ) → E.BITS ≡ 56 → v + v + 2 ^ 8 ≤ 2 ^ 40 → IsMoment v (E.shown low)
        → IsMoment v (E.shown high) → IfErr result IsClose }
{
    less_step(
        high.sub(low),
        E::from_frac(HUNDRED_THOUSANDTH),
        Site::BisectEnd,
        trail,
    )
}

/// How far an angle is past another, from 0 up to 360 degrees: one test, at `bisect`.
#[tactic(auto, using(book_model::proofs::Leads::leading), unfolding(book_model::specs::programs::Bisection::angle_past_of))]
fn angle_past<E: Enclosure>(angle: E, target: E, trail: &mut Trail) -> Result<E, Fail>
    ensures leads { Follows2 E.shown spec.angle_past_of angle target trail.old.count trail.new.count
        result }
    ensures measured { (v u : ℕ) → E.BITS ≡ 56 → v + u ≤ 2 ^ 40
        → IsAbout (2 ^ 58) v (E.shown angle) → IsAbout (2 ^ 58) u (E.shown target)
        → Measures (λ p. IsUpTo 360 (v + u) (E.shown p)) result }
{
    wrap_step(angle.sub(target), 360, Site::Bisect, trail)
}

/// Whether an angle has passed another, which it has where it is less than half a turn past it: two tests, at `bisect`.
#[tactic(auto, using(book_model::proofs::Leads::leading), unfolding(book_model::specs::programs::Bisection::has_passed_of))]
pub(crate) fn has_passed<E: Enclosure>(angle: E, target: E, trail: &mut Trail) -> Result<bool, Fail>
    ensures leads { Decides2 E.shown spec.has_passed_of angle target trail.old.count trail.new.count
        result }
    ensures close { (v u : ℕ) → E.BITS ≡ 56 → v + u ≤ 2 ^ 40 → IsAbout (2 ^ 58) v (E.shown angle)
        → IsAbout (2 ^ 58) u (E.shown target) → IfErr result IsClose }
{
    let past = angle_past(angle, target, trail)?;
    less_step(past, E::from_int(HALF_TURN), Site::Bisect, trail)
}

/// Whether a function has passed an angle at a number.
#[tactic(auto, using(book_model::proofs::Leads::leading), unfolding(book_model::specs::programs::Bisection::has_passed_at))]
pub(crate) fn has_passed_at<E: Enclosure, F: Angular<E>>(
    f: &F,
    target: E,
    x: E,
    trail: &mut Trail,
) -> Result<bool, Fail>
    ensures leads { Decides2 E.shown (spec.has_passed_at F.angle_of) target x
        trail.old.count trail.new.count result }
    ensures close { (v u : ℕ) → E.BITS ≡ 56 → v ≤ 3 * 2 ^ 37 → F.spread v + u ≤ 2 ^ 40
        → IsMoment v (E.shown x) → IsAbout (2 ^ 58) u (E.shown target) → IfErr result IsClose }
{
    let angle = f.at(x, trail)?;
    has_passed(angle, target, trail)
}

// A recursion on the iterations that are left, as the definition is, with the test of the bounds first.
/// Bisection by so many iterations at most. It is void at `bisect-end` where the bounds aren't near then, and fails where the
/// function does. With `m` for the greatest width of all middles, the widths that the iterations meet need not be followed: each
/// middle is at most two units wider than the wider bound.
#[tactic(auto, using(book_model::proofs::Leads::leading, crate::proofs::Turns::turning))]
fn bisected<E: Enclosure, F: Angular<E>>(
    more: u32,
    f: &F,
    known: &mut Known<F>,
    target: E,
    low: E,
    high: E,
    trail: &mut Trail,
) -> Result<E, Fail>
    ensures leads { Follows3 E.shown (spec.bisected_of more F.angle_of) target low high
        trail.old.count trail.new.count result }
    ensures measured { (v m u : ℕ) → E.BITS ≡ 56 → v + more * 2 ^ 9 ≤ m → m ≤ 2 ^ 38
        → F.spread m + u ≤ 2 ^ 40 → IsAbout (2 ^ 58) u (E.shown target) → IsMoment v (E.shown low)
        → IsMoment v (E.shown high) → Measures (λ x. IsMoment (m + 2 ^ 9) (E.shown x)) result }
{
    if are_near(low, high, trail)? {
        // The middle that the definition says, never a root that is known sooner.
        return Ok(middle(low, high));
    }
    if more == 0 {
        return Err(Fail::Void(Site::BisectEnd));
    }
    let center = middle(low, high);
    if turned(f, known, target, center, trail)? {
        bisected(more - 1, f, known, target, low, center, trail)
    } else {
        bisected(more - 1, f, known, target, center, high, trail)
    }
}

/// The number between `low` and `high` at which an angle passes `y`, in degrees, by bisection until the bounds are less than a
/// hundred-thousandth apart: the middle of the last bounds, and not the number to full precision (Reingold and Dershowitz,
/// Calendrical Calculations, chapter 1). Each of 64 iterations at most makes one test at `bisect-end`, those of the angle, and
/// two at `bisect`; where more iterations would be made it is void at `bisect-end`. Of bounds that are moments it is at most
/// 2⁻⁴⁰ wider than the wider of them. An iteration takes the angle by a linear model where that decides it, and at the middle
/// itself where not; the answer and the tests are the same.
#[tactic(auto, unfolding(book_model::specs::programs::Bisection::invert_of))]
pub fn invert_angular<E: Enclosure, F: Angular<E>>(
    f: &F,
    y: E,
    low: E,
    high: E,
    trail: &mut Trail,
) -> Result<E, Fail>
    ensures leads { Follows3 E.shown (spec.invert_of F.angle_of) y low high trail.old.count
        trail.new.count result }
    ensures measured { (v u : ℕ) → E.BITS ≡ 56 → v ≤ 2 ^ 37 → F.spread (v + 2 ^ 15) + u ≤ 2 ^ 40
        → IsAbout (2 ^ 58) u (E.shown y) → IsMoment v (E.shown low) → IsMoment v (E.shown high)
        → Measures (λ x. IsMoment (greatest_of BISECTION v) (E.shown x)) result }
{
    let mut known = Known::<F>::new();
    bisected(GREATEST_ITERATIONS, f, &mut known, y, low, high, trail)
}
