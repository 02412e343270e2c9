//! Searches by day over enclosures of each kind: the day that is found, and how many tests are made.
ghost use Rattle.std.specs.Prelude.{◌≤◌, ◌+◌};
ghost use Rattle.book_model.specs.declared.site.Site.TheVariants.{DayTest as AtDayTest};
ghost use Rattle.book_model.specs.numbers.Expressions.{World, integer};
ghost use Rattle.book_model.specs.programs.Leading.{Exact, Leads};
ghost use Rattle.book_model.specs.programs.Programs.{answer, compare};
ghost use Rattle.book_model.specs.numbers.Depth.{DEPTH};

use super::rough::Rough;
use book_model::{Fail as FormulaFail, Site, Undecided};
use encl_core::{Coarse, DayTest, Enclosure, Trail, first_day, less_step};
use fix_fine::Fine;

/// Whether a day comes after another, as one test.
fn is_after<E: Enclosure>(day: i64, earlier: i64, trail: &mut Trail) -> Result<bool, FormulaFail>
    ensures leads { (w : World) → DEPTH ≤ w.depth → Leads w Exact (compare AtDayTest (integer earlier) (integer day) answer) trail.old.count trail.new.count result }
{
    less_step(E::from_int(earlier), E::from_int(day), Site::DayTest, trail)
}

/// Looks for the days after one.
#[derive(Clone, Copy, Debug, PartialEq)]
struct After {
    day: i64,
}

impl<E: Enclosure> DayTest<E> for After {
    ghost test_of = { λ s d. compare AtDayTest (integer s.day) (integer d) answer };

    ghost near_on = { λ s d. ⊥ };

    fn holds(&self, day: i64, trail: &mut Trail) -> Result<bool, FormulaFail> {
        is_after::<E>(day, self.day, trail)
    }
}

/// Where the searches start.
const START: i64 = 738_965;

/// The first of the start and the 45 days after it that comes after a day, and how many tests are made.
fn first_after<E: Enclosure>(day: i64) -> (Result<i64, FormulaFail>, u32) {
    let mut trail = Trail::new();
    let found = first_day::<E, After>(&After { day }, START, &mut trail);
    (found, trail.count())
}

/// Days, the first day after each, and the number of tests. After the last two none of the 46 days comes.
#[rattlefmt::skip]
const SEARCHES: [(i64, Result<i64, FormulaFail>, u32); 7] = [
    (0, Ok(738_965), 1),
    (738_964, Ok(738_965), 1),
    (738_965, Ok(738_966), 2),
    (738_979, Ok(738_980), 16),
    (739_009, Ok(739_010), 46),
    (739_010, Err(FormulaFail::Void(Site::Search)), 46),
    (800_000, Err(FormulaFail::Void(Site::Search)), 46),
];

#[test]
fn a_search_answers_the_first_day(rt: HostRuntime) {
    for (day, found, tests) in SEARCHES {
        assert_eq!(rt; first_after::<Coarse>(day), (found, tests), "after {day}");
        assert_eq!(rt;
            first_after::<Fine>(day),
            (found, tests),
            "finely after {day}"
        );
        assert_eq!(rt;
            first_after::<Rough>(day),
            (found, tests),
            "roughly after {day}"
        );
    }
}

/// The day doesn't fit in the endpoints of these kinds.
#[test]
fn a_search_fails_where_its_test_does(rt: HostRuntime) {
    let undecided = Undecided {
        turn: 1,
        site: Site::DayTest,
        lo: i128::MIN,
        hi: i128::MAX,
    };
    let failed = (Err(FormulaFail::Undecided(undecided)), 1);
    assert_eq!(rt; first_after::<Coarse>(200_000_000), failed);
    assert_eq!(rt; first_after::<Rough>(200_000_000), failed);
}
