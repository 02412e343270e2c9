//! The new moons before and from a moment, by a walk over their numbers.
ghost use Rattle.book_model.specs.programs.Calls.{Decides1, Follows, Follows1};
ghost use Rattle.book_model.specs.programs.Widths.{IsMoment, IsSmall, Measured, Measured1, Closes1, IsDated, IsFrom, IsSince};
ghost use Rattle.std.specs.Prelude.{◌≡◌, ◌+◌, ◌*◌, ◌^◌, pos, negsuc, ◌≤ℤ◌, ◌+ℤ◌, ◌-ℤ◌, IfOk};
ghost use Rattle.book_model.specs.declared.new_moon_tables.TheConstants.{FIRST_RECENT_MOON as first_recent, LAST_RECENT_MOON as last_recent, LATE_START};
ghost use Rattle.book_model.specs.sky.Phases as spec;
ghost use Rattle.encl_core.specs.declared.greatest_widths.TheConstants.{NEW_MOON};
ghost use Rattle.encl_core.specs.GreatestWidths.{greatest_of};
ghost use Rattle.book_model.specs.declared.time_tables.TheConstants.{RECENT_START, TABLE_END};

use crate::numbers::number;
use crate::phase_linear_models::PhaseLinearModel;
use book_model::{Fail, Site};
use encl_core::{Enclosure, Trail, less_step};
use new_moons::new_moon;

/// How many numbers a walk tries: its start and five steps.
const NUMBERS_TRIED: u32 = 6;

/// Whether the new moon of a number is before a moment: two tests at most (`before_few`).
#[tactic(auto, using(book_model::proofs::Leads::leading), unfolding(book_model::specs::sky::Phases::is_moon_before_of))]
fn is_moon_before<E: Enclosure>(n: i64, t: E, trail: &mut Trail) -> Result<bool, Fail>
    requires number { IsSmall n }
    ensures leads { Decides1 E.shown (spec.is_moon_before_of n) t trail.old.count trail.new.count
        result }
    ensures close { negsuc 6299 ≤ℤ n → n ≤ℤ pos 55724 → Closes1 E.BITS E.shown (2 ^ 43) IsMoment t
        result }
{
    let moment = new_moon::<E>(n, trail)?;
    less_step(moment, t, Site::MoonWalk, trail)
}

/// The first of so many numbers from one on whose new moon isn't before a moment; void at `moon-walk` where there is none.
#[tactic(auto, using(book_model::proofs::Leads::leading, crate::proofs::WalkSteps::walks))]
fn walk<E: Enclosure>(more: u32, t: E, n: i64, trail: &mut Trail) -> Result<i64, Fail>
    requires first { IsSmall n }
    requires last { IsSmall (n +ℤ pos more) }
    ensures leads { Decides1 E.shown (λ x. spec.walk_of more x n) t trail.old.count trail.new.count
        result }
    ensures from { IfOk result (λ k. n ≤ℤ k) }
    ensures to { IfOk result (λ k. k ≤ℤ (n +ℤ pos more)) }
    ensures close { negsuc 6299 ≤ℤ n → (n +ℤ pos more) ≤ℤ pos 55724
        → Closes1 E.BITS E.shown (2 ^ 43) IsMoment t result }
{
    if more == 0 {
        return Err(Fail::Void(Site::MoonWalk));
    }
    if is_moon_before(n, t, trail)? {
        walk(more - 1, t, n + 1, trail)
    } else {
        Ok(n)
    }
}

/// The moment of the new moon that comes before the one of a number: one test at most (`new_moon_few`).
#[tactic(auto, unfolding(book_model::specs::sky::Phases::moon_preceding_of))]
fn moon_preceding<E: Enclosure>(n: i64, trail: &mut Trail) -> Result<E, Fail>
    requires number { IsSmall n }
    requires before { IsSmall (n -ℤ pos 1) }
    ensures leads { Follows E.shown (spec.moon_preceding_of n) trail.old.count trail.new.count
        result }
    ensures measured { negsuc 6298 ≤ℤ n → n ≤ℤ pos 55724
        → Measured E.BITS E.shown (IsDated 1 (greatest_of NEW_MOON 0)) result }
    ensures recent { (first_recent +ℤ pos 1) ≤ℤ n → n ≤ℤ (last_recent +ℤ pos 1)
        → Measured E.BITS E.shown
        (IsFrom RECENT_START (TABLE_END +ℤ pos 1) (greatest_of NEW_MOON 0)) result }
{
    new_moon::<E>(n - 1, trail)
}

/// `moon_before`, where the linear models of the moon and the sun are known over the usual days.
#[tactic(auto, using(book_model::proofs::Leads::leading), unfolding(book_model::specs::sky::Phases::moon_before_of))]
pub fn moon_before_by<E: Enclosure>(
    linear_model: &PhaseLinearModel<E>,
    t: E,
    trail: &mut Trail,
) -> Result<E, Fail>
    ensures leads { Follows1 E.shown spec.moon_before_of t trail.old.count trail.new.count result }
    ensures measured { Measured1 E.BITS E.shown (3 * 2 ^ 37) IsMoment
        (λ v. IsDated 1 (greatest_of NEW_MOON 0)) t result }
    ensures recent { Measured1 E.BITS E.shown (3 * 2 ^ 37) (IsSince LATE_START)
        (λ v. IsFrom RECENT_START (TABLE_END +ℤ pos 1) (greatest_of NEW_MOON 0)) t result }
{
    let about = number(linear_model, t, trail)?;
    let next = walk(NUMBERS_TRIED, t, about - 1, trail)?;
    moon_preceding::<E>(next, trail)
}

/// The moment of the last new moon before a moment of universal time (Reingold and Dershowitz, Calendrical Calculations,
/// chapter 14): from the number before that of the moment the walk goes to the first new moon that isn't before it, and
/// takes the one before that anew. At most 25 tests. It is void at `moon-walk` where the walk would take more than
/// five steps, and at `year` in a year without ΔT.
pub fn moon_before<E: Enclosure>(t: E, trail: &mut Trail) -> Result<E, Fail>
    ensures leads { Follows1 E.shown spec.moon_before_of t trail.old.count trail.new.count result }
    ensures measured { Measured1 E.BITS E.shown (3 * 2 ^ 37) IsMoment
        (λ v. IsDated 1 (greatest_of NEW_MOON 0)) t result }
    ensures recent { Measured1 E.BITS E.shown (3 * 2 ^ 37) (IsSince LATE_START)
        (λ v. IsFrom RECENT_START (TABLE_END +ℤ pos 1) (greatest_of NEW_MOON 0)) t result }
{
    let linear_model = PhaseLinearModel::<E>::usual();
    moon_before_by(&linear_model, t, trail)
}

/// `moon_from`, where the linear models of the moon and the sun are known over the usual days.
#[tactic(auto, using(book_model::proofs::Leads::leading), unfolding(book_model::specs::sky::Phases::moon_from_of))]
pub fn moon_from_by<E: Enclosure>(
    linear_model: &PhaseLinearModel<E>,
    t: E,
    trail: &mut Trail,
) -> Result<E, Fail>
    ensures leads { Follows1 E.shown spec.moon_from_of t trail.old.count trail.new.count result }
    ensures measured { Measured1 E.BITS E.shown (3 * 2 ^ 37) IsMoment
        (λ v. IsDated 1 (greatest_of NEW_MOON 0)) t result }
    ensures recent { Measured1 E.BITS E.shown (3 * 2 ^ 37) (IsSince LATE_START)
        (λ v. IsFrom RECENT_START (TABLE_END +ℤ pos 1) (greatest_of NEW_MOON 0)) t result }
{
    let about = number(linear_model, t, trail)?;
    let next = walk(NUMBERS_TRIED, t, about, trail)?;
    new_moon::<E>(next, trail)
}

/// The moment of the first new moon at or after a moment of universal time (Reingold and Dershowitz, Calendrical
/// Calculations, chapter 14): from the number of the moment the walk goes to the first new moon that isn't before it, and
/// takes that anew. At most 25 tests. It is void at `moon-walk` where the walk would take more than five steps, and
/// at `year` in a year without ΔT.
pub fn moon_from<E: Enclosure>(t: E, trail: &mut Trail) -> Result<E, Fail>
    ensures leads { Follows1 E.shown spec.moon_from_of t trail.old.count trail.new.count result }
    ensures measured { Measured1 E.BITS E.shown (3 * 2 ^ 37) IsMoment
        (λ v. IsDated 1 (greatest_of NEW_MOON 0)) t result }
    ensures recent { Measured1 E.BITS E.shown (3 * 2 ^ 37) (IsSince LATE_START)
        (λ v. IsFrom RECENT_START (TABLE_END +ℤ pos 1) (greatest_of NEW_MOON 0)) t result }
{
    let linear_model = PhaseLinearModel::<E>::usual();
    moon_from_by(&linear_model, t, trail)
}
