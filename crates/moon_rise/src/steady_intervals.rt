//! Intervals of a day over which a test has one answer.
//!
//! What a test says of an enclosure it says of every moment that the enclosure holds. So one evaluation over hours, where it is
//! decided, answers for all moments in them, and each of these counts the tests that its own evaluation would make. Where it isn't
//! decided it is no part of the run: a shorter interval is tried, and last of all the moment itself, so that an undecided test is
//! always one of a moment.
ghost use Rattle.book_model.specs.programs.Calls.{Decides};
ghost use Rattle.book_model.specs.programs.Programs.{Program};
ghost use Rattle.book_model.specs.programs.Widths.{IsClose};
ghost use Rattle.moon_core.specs.Replays.{turn_after};
ghost use Rattle.moon_rise.specs.SteadyIntervals.{HasOneAnswer};
ghost use Rattle.std.specs.Prelude.{◌≡◌, ◌<◌, ◌≤◌, ◌-◌, ◌^◌, ℕ, Bool, IfErr, IfSome};
ghost use Rattle.time_scales.specs.Steps.{IsNotOfYear};

use crate::walk::{AnswerOver, MomentTest};
use book_model::Fail;
use encl_core::{Enclosure, Trail};
use moon_core::count_again;

/// The moments of a quarter of an hour, and of a day.
const SIXTEENTHS: u32 = 16;

const LAST_MOMENT: u32 = 1536;

/// How many quarters of an hour after its first moment an interval ends: the first of a day, and the longest.
const FIRST_LENGTH: u32 = 9;

pub(crate) const LONGEST: u32 = 16;

/// By how much shorter the next one is that is tried, where one is undecided; last is the first moment alone.
const SHORTER: u32 = 2;

/// The moments from one to another, at each of which a test has one answer, by so many tests; and how many quarters of an hour long an
/// interval behind them is tried first.
#[derive(Clone, Copy, Drop)]
pub(crate) struct SteadyInterval {
    from: u32,
    to: u32,
    so: bool,
    tests: u32,
    ahead: u32,
}

impl SteadyInterval {
    /// An interval without moments.
    pub(crate) fn empty() -> Self
        ensures answers { (holds : ℕ → Program Bool) → HasOneAnswer holds result }
    {
        SteadyInterval {
            from: 1,
            to: 0,
            so: false,
            tests: 0,
            ahead: FIRST_LENGTH,
        }
    }
}

/// The moment so many quarters of an hour after another, but none after the day.
fn moment_ahead(moment: u32, quarters: u32) -> u32
    requires few { moment ≤ 1536 }
    requires quarters { quarters ≤ 16 }
    ensures from { moment ≤ result }
    ensures to { result ≤ 1536 }
{
    let ahead = moment + SIXTEENTHS * quarters;
    if ahead < LAST_MOMENT {
        ahead
    } else {
        LAST_MOMENT
    }
}

/// The interval of an evaluation, unless its count came to the greatest number, which tells no number of tests.
fn steady_by(from: u32, to: u32, all: AnswerOver, tests: u32) -> Option<SteadyInterval>
    ensures told { IfSome result (λ s. (s.from ≡ from) × (s.to ≡ to) × (s.so ≡ all.so) × (s.tests ≡ tests)) }
    ensures few { IfSome result (λ s. tests < 2 ^ 32 - 1) }
{
    if tests < u32::MAX {
        Some(SteadyInterval {
            from,
            to,
            so: all.so,
            tests,
            ahead: all.ahead,
        })
    } else {
        None
    }
}

/// The interval from one moment to another, if one evaluation tells the answer over it. It is made on a trail of its own, whose count is
/// that of one moment's tests.
fn steady_over<E: Enclosure, T: MomentTest<E>>(
    test: &T,
    from: u32,
    to: u32,
    trail: &Trail,
) -> Option<SteadyInterval>
    requires order { from ≤ to }
    requires few { to ≤ 1536 }
    ensures answers { IfSome result (HasOneAnswer (T.test_of test.now)) }
    ensures here { IfSome result (λ s. (s.from ≡ from) × (s.to ≡ to)) }
{
    let mut apart = trail.anew();
    match test.holds_over(from, to, &mut apart) {
        Ok(all) => steady_by(from, to, all, apart.count()),
        Err(_) => None,
    }
}

/// The longest interval from a moment on over which an evaluation tells the answer, of so many quarters of an hour, of half of these,
/// and so on down to the moment alone.
fn steady_from<E: Enclosure, T: MomentTest<E>>(
    quarters: u32,
    test: &T,
    from: u32,
    trail: &Trail,
) -> Option<SteadyInterval>
    requires quarters { quarters ≤ 16 }
    requires few { from ≤ 1536 }
    ensures answers { IfSome result (HasOneAnswer (T.test_of test.now)) }
    ensures here { IfSome result (λ s. (s.from ≤ from) × (from ≤ s.to)) }
{
    match steady_over::<E, T>(test, from, moment_ahead(from, quarters), trail) {
        Some(steady) => Some(steady),
        None if quarters == 0 => None,
        None => steady_from::<E, T>(quarters / SHORTER, test, from, trail),
    }
}

/// Whether it is so at a moment of an interval: the tests of the moment count.
fn answer_again(steady: &SteadyInterval, trail: &mut Trail) -> bool
    ensures counted { trail.new.count ≡ turn_after steady.now.tests trail.old.count }
    ensures so { result ≡ steady.now.so }
{
    count_again(steady.tests, trail);
    steady.so
}

/// Whether it is so at a moment, by an interval that holds the moment, which is learned where the known one doesn't, or else by the moment
/// itself.
#[tactic(auto, using(crate::proofs::Replays::answered_again))]
pub(crate) fn holds_at<E: Enclosure, T: MomentTest<E>>(
    test: &T,
    known: &mut SteadyInterval,
    moment: u32,
    trail: &mut Trail,
) -> Result<bool, Fail>
    requires few { moment ≤ 1536 }
    requires known { HasOneAnswer (T.test_of test.now) known.old }
    ensures leads { Decides (T.test_of test.now moment) trail.old.count trail.new.count result }
    ensures close { T.is_kept test.now → E.BITS ≡ 56 → IfErr result IsClose }
    ensures dated { T.is_kept test.now → 36 ≤ E.BITS → E.BITS ≤ 56 → IfErr result IsNotOfYear }
    ensures known { HasOneAnswer (T.test_of test.now) known.new }
{
    if known.from <= moment && moment <= known.to {
        return Ok(answer_again(known, trail));
    }
    match steady_from::<E, T>(known.ahead.min(LONGEST), test, moment, trail) {
        Some(steady) => {
            *known = steady;
            Ok(answer_again(&steady, trail))
        }
        None => test.holds(moment, trail),
    }
}
