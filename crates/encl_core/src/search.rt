//! Searches by day.
ghost use Rattle.book_model.specs.programs.Calls.{Decides};
ghost use Rattle.book_model.specs.programs.Widths.{IsClose};
ghost use Rattle.std.specs.Prelude.{◌≡◌, ◌+ℤ◌, pos, negsuc, ◌≤ℤ◌, ℤ, Bool, IfOk, IfErr};
ghost use Rattle.book_model.specs.programs.Programs.{Program};
ghost use Rattle.book_model.specs.programs.Searches.{first_day_from};
ghost use Rattle.book_model.specs.sky.Facts.{IsFactDay};

use crate::{Enclosure, Trail};
use book_model::{Fail, Site};

// A start 100 days within the range of facts is asked for, so that each day that is tried is one.
/// How many days a search tries.
const DAYS_TRIED: u32 = 46;

// So `first_day` is proved once for all kinds of facts. No number of tests stands here: how many a
// formula makes is said of the definitions (`fact_eval::laws::counts`).
/// What a search by day looks for: a test of a day.
pub trait DayTest<E: Enclosure> {
    /// The test of a day, as a formula.
    ghost test_of: { Self → ℤ → Program Bool };

    // That may depend on the location that the test keeps, or on the century.
    /// Of which test and day its failures are known to be close at the scale 2⁻⁵⁶.
    ghost near_on: { Self → ℤ → Type 0 };

    /// Whether the test is true of a day (R.D.). It makes the tests of its formula, and fails where that does.
    fn holds(&self, day: i64, trail: &mut Trail) -> Result<bool, Fail>
        requires day { IsFactDay day }
        ensures leads { Decides (test_of self.now day) trail.old.count trail.new.count result }
        ensures close { near_on self.now day → E.BITS ≡ 56 → IfErr result IsClose };
}

/// The first day (R.D.) of which a test is true, of the start and the 45 days after it. It fails where the test does,
/// and is void at `search` where there is no such day.
pub fn first_day<E: Enclosure, T: DayTest<E>>(
    test: &T,
    start: i64,
    trail: &mut Trail,
) -> Result<i64, Fail>
    requires low { negsuc 39999899 ≤ℤ start }
    requires high { start ≤ℤ pos 39999900 }
    ensures leads { Decides (first_day_from (T.test_of test.now) start) trail.old.count
        trail.new.count result }
    ensures close { ((d : ℤ) → start ≤ℤ d → d ≤ℤ (start +ℤ pos 45) → T.near_on test.now d)
        → E.BITS ≡ 56 → IfErr result IsClose }
    ensures from { IfOk result (λ d. start ≤ℤ d) }
    ensures to { IfOk result (λ d. d ≤ℤ (start +ℤ pos 45)) }
{
    for later in 0..DAYS_TRIED {
        let day = start + i64::from(later);
        if test.holds(day, trail)? {
            return Ok(day);
        }
    }
    Err(Fail::Void(Site::Search))
}
