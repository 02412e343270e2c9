//! The first quarter of an hour of a day in which something becomes so, and the minute at which it does.
ghost use Rattle.book_model.specs.programs.Calls.{Decides};
ghost use Rattle.book_model.specs.programs.Widths.{IsClose};
ghost use Rattle.book_model.specs.programs.Programs.{Program};
ghost use Rattle.book_model.specs.programs.Crossings as spec;
ghost use Rattle.moon_rise.specs.SteadyIntervals.{HasOneAnswer};
ghost use Rattle.std.specs.Prelude.{◌≡◌, ◌<◌, ◌≤◌, ◌+◌, ◌*◌, ℕ, Bool, Ok, pos, negsuc, ◌≤ℤ◌, IfErr, IfOk};
ghost use Rattle.time_scales.specs.Steps.{IsNotOfYear};

use crate::steady_intervals::{SteadyInterval, holds_at};
use book_model::Fail;
use encl_core::{Enclosure, Trail};

/// The sixteenths of a quarter of an hour, and how often it is halved to reach one of them.
const SIXTEENTHS: u32 = 16;

const HALVINGS: u32 = 4;

/// The quarters of an hour of a day, and the minutes of one.
const QUARTERS: u32 = 96;

const MINUTES_OF_QUARTER: u32 = 15;

/// Something that is so or isn't at each moment of a day. Moments are numbered by sixteenths of a quarter of an hour.
pub(crate) trait MomentTest<E: Enclosure> {
    /// The test of a moment, by its number, as a formula.
    ghost test_of: { Self → ℕ → Program Bool };

    /// That it is of a day and a place of which more is known of its failures.
    ghost is_kept: { Self → Type 0 };

    /// Whether it is so at a moment. It makes the tests of its formula, and fails where that does: at the scale 2⁻⁵⁶ by a close test,
    /// and by no test of a year.
    fn holds(&self, moment: u32, trail: &mut Trail) -> Result<bool, Fail>
        requires few { moment ≤ 1536 }
        ensures leads { Decides (test_of self.now moment) trail.old.count trail.new.count result }
        ensures close { is_kept self.now → E.BITS ≡ 56 → IfErr result IsClose }
        ensures dated { is_kept self.now → 36 ≤ E.BITS → E.BITS ≤ 56 → IfErr result IsNotOfYear };

    /// The same at every moment from one to another at once. Where it answers it has made the tests of each of them; a failure says
    /// nothing of any.
    fn holds_over(&self, from: u32, to: u32, trail: &mut Trail) -> Result<AnswerOver, Fail>
        requires order { from ≤ to }
        requires few { to ≤ 1536 }
        ensures leads { IfOk result (λ all. (i : ℕ) → from ≤ i → i ≤ to
            → Decides (test_of self.now i) trail.old.count trail.new.count (Ok all.so)) };
}

/// Whether something is so at every moment of an interval, and for how many quarters of an hour after it the same may well be so: by that
/// it is chosen how long an interval is tried next, and nothing else rests on it.
#[derive(Clone, Copy, Drop)]
pub(crate) struct AnswerOver {
    pub(crate) so: bool,
    pub(crate) ahead: u32,
}

/// It isn't so at the first of two moments and is so at the second: where they are halved so many times, the first of the two that are
/// left.
#[tactic(auto, using(book_model::proofs::Leads::leading, crate::proofs::Quarters::halving))]
fn halved<E: Enclosure, T: MomentTest<E>>(
    more: u32,
    test: &T,
    low: u32,
    high: u32,
    trail: &mut Trail,
) -> Result<u32, Fail>
    requires order { low ≤ high }
    requires within { high ≤ 1536 }
    ensures leads { Decides (spec.halved_of more (T.test_of test.now) low high) trail.old.count
        trail.new.count result }
    ensures close { T.is_kept test.now → E.BITS ≡ 56 → IfErr result IsClose }
    ensures dated { T.is_kept test.now → 36 ≤ E.BITS → E.BITS ≤ 56 → IfErr result IsNotOfYear }
    ensures from { IfOk result (λ m. low ≤ m) }
    ensures to { IfOk result (λ m. m ≤ high) }
{
    if more == 0 {
        return Ok(low);
    }
    let middle = (low + high) / 2;
    if test.holds(middle, trail)? {
        halved::<E, T>(more - 1, test, low, middle, trail)
    } else {
        halved::<E, T>(more - 1, test, middle, high, trail)
    }
}

/// The minutes after midnight to a moment in a quarter of an hour: the nearest whole number to the middle of the sixteenth that begins
/// with it.
fn minutes(quarter: u32, moment: u32) -> i64
    requires quarter { quarter < 96 }
    requires from { 16 * quarter ≤ moment }
    requires to { moment ≤ 16 * quarter + 16 }
    ensures minutes { result ≡ spec.minutes_at quarter moment }
    ensures low { pos 0 ≤ℤ result }
    ensures high { result ≤ℤ pos 1440 }
{
    let past = moment - SIXTEENTHS * quarter;
    i64::from(MINUTES_OF_QUARTER * quarter + (30 * past + 31) / 32)
}

/// The minute in a quarter of an hour, at whose beginning it isn't so and at whose end it is.
#[tactic(auto, using(book_model::proofs::Leads::leading), unfolding(book_model::specs::programs::Crossings::minute_in_of))]
fn minute_in<E: Enclosure, T: MomentTest<E>>(
    test: &T,
    quarter: u32,
    trail: &mut Trail,
) -> Result<i64, Fail>
    requires quarter { quarter < 96 }
    ensures leads { Decides (spec.minute_in_of (T.test_of test.now) quarter) trail.old.count
        trail.new.count result }
    ensures close { T.is_kept test.now → E.BITS ≡ 56 → IfErr result IsClose }
    ensures dated { T.is_kept test.now → 36 ≤ E.BITS → E.BITS ≤ 56 → IfErr result IsNotOfYear }
    ensures low { IfOk result (λ v. pos 0 ≤ℤ v) }
    ensures high { IfOk result (λ v. v ≤ℤ pos 1440) }
{
    let first = SIXTEENTHS * quarter;
    let moment = halved::<E, T>(HALVINGS, test, first, first + SIXTEENTHS, trail)?;
    Ok(minutes(quarter, moment))
}

/// Of so many quarters of an hour from one on, at whose beginning it is so or isn't, the minute in the first in which it becomes so, or
/// -1. Quarters within an interval of one answer are passed over.
#[tactic(auto, using(book_model::proofs::Leads::leading, crate::proofs::Quarters::quarters))]
fn crossing_from<E: Enclosure, T: MomentTest<E>>(
    more: u32,
    test: &T,
    known: &mut SteadyInterval,
    quarter: u32,
    before: bool,
    trail: &mut Trail,
) -> Result<i64, Fail>
    requires within { quarter + more ≤ 96 }
    requires known { HasOneAnswer (T.test_of test.now) known.old }
    ensures leads { Decides (spec.crossing_from more (T.test_of test.now) quarter before)
        trail.old.count trail.new.count result }
    ensures close { T.is_kept test.now → E.BITS ≡ 56 → IfErr result IsClose }
    ensures dated { T.is_kept test.now → 36 ≤ E.BITS → E.BITS ≤ 56 → IfErr result IsNotOfYear }
    ensures low { IfOk result (λ v. negsuc 0 ≤ℤ v) }
    ensures high { IfOk result (λ v. v ≤ℤ pos 1440) }
{
    if more == 0 {
        return Ok(-1);
    }
    let after = holds_at::<E, T>(test, known, SIXTEENTHS * quarter + SIXTEENTHS, trail)?;
    if !before && after {
        minute_in::<E, T>(test, quarter, trail)
    } else {
        crossing_from::<E, T>(more - 1, test, known, quarter + 1, after, trail)
    }
}

/// The minute of the day at which it first becomes so, or -1: the tests of 101 moments at most.
#[tactic(auto, using(book_model::proofs::Leads::leading), unfolding(book_model::specs::programs::Crossings::crossing_of))]
pub(crate) fn crossing<E: Enclosure, T: MomentTest<E>>(
    test: &T,
    trail: &mut Trail,
) -> Result<i64, Fail>
    ensures leads { Decides (spec.crossing_of (T.test_of test.now)) trail.old.count trail.new.count
        result }
    ensures close { T.is_kept test.now → E.BITS ≡ 56 → IfErr result IsClose }
    ensures dated { T.is_kept test.now → 36 ≤ E.BITS → E.BITS ≤ 56 → IfErr result IsNotOfYear }
    ensures low { IfOk result (λ v. negsuc 0 ≤ℤ v) }
    ensures high { IfOk result (λ v. v ≤ℤ pos 1440) }
{
    let mut known = SteadyInterval::empty();
    let before = holds_at::<E, T>(test, &mut known, 0, trail)?;
    crossing_from::<E, T>(QUARTERS, test, &mut known, 0, before, trail)
}
