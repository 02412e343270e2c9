//! The Gregorian year of a moment.
ghost use Rattle.book_model.specs.programs.Calls.{Decides1};
ghost use Rattle.book_model.specs.programs.Widths.{IsAbout, IsClose};
ghost use Rattle.std.specs.Prelude.{◌≡◌, ◌≤◌, ◌^◌, ℕ, Some, Ok, IfOk, IfErr};
ghost use Rattle.book_model.specs.Interval.{between};
ghost use Rattle.book_model.specs.calendars.Gregorian.{year_of_day};
ghost use Rattle.book_model.specs.sky.Correction.{year_of};
ghost use Rattle.book_model.specs.numbers.Expressions.{World, integer};
ghost use Rattle.book_model.specs.programs.Leading.{units_of_56, Exact, Leads, next_turn};
ghost use Rattle.book_model.specs.programs.Programs.{years, cell_of, cell_at};
ghost use Rattle.time_scales.specs.Steps.{IsUndecidedYear};
ghost use Rattle.time_scales.specs.Widths.{HasYearEndpoints};

use book_model::{Fail, Site, Undecided};
use encl_core::parts::ONE;
use encl_core::{Enclosure, Span, Trail};

/// The year of a moment in units of 2⁻⁵⁶ of a day.
fn year_at(moment: i128) -> i64
    ensures year { result ≡ cell_of years (units_of_56 moment) }
{
    civil_core::year_of(moment.div_euclid(ONE))
}

// A bound mostly falls on the day of the other, and what year a day has takes a division by the
// 400 years of the calendar.
/// The year of a moment in units of 2⁻⁵⁶ of a day, by another moment, whose year is known: the same, where both fall on one day.
fn year_beside(known: i128, year: i64, moment: i128) -> i64
    requires year { year ≡ cell_of years (units_of_56 known) }
    ensures year { result ≡ cell_of years (units_of_56 moment) }
{
    if known.div_euclid(ONE) == moment.div_euclid(ONE) {
        return year;
    }
    year_at(moment)
}

/// The year in which both bounds fall, by the test of the run that has this number.
fn year_between(span: Span, turn: u32) -> Result<i64, Fail>
    ensures decided { IfOk result (λ y. cell_at years (between (units_of_56 span.lo)
        (units_of_56 span.hi))
        ≡ Some y) }
    ensures open { IfErr result (IsUndecidedYear (between (units_of_56 span.lo) (units_of_56 span.hi))
        turn) }
    ensures endpoints { IfErr result (HasYearEndpoints span.lo span.hi) }
{
    let first = year_at(span.lo);
    if first == year_beside(span.lo, first, span.hi) {
        return Ok(first);
    }
    Err(Fail::Undecided(Undecided {
        turn,
        site: Site::Year,
        lo: span.lo,
        hi: span.hi,
    }))
}

/// The Gregorian year of a whole day (R.D.), as a test that is always decided.
pub fn year_of_whole_day(day: i64, trail: &mut Trail) -> i64
    ensures year { result ≡ year_of_day day }
    ensures leads { (w : World) → Leads w Exact (year_of (integer day)) trail.old.count
        trail.new.count (Ok result) }
    ensures counted { trail.new.count ≡ next_turn trail.old.count }
{
    // Counted like every other test, so that a formula makes as many whatever its moment is.
    trail.step();
    civil_core::year_of(i128::from(day))
}

/// The Gregorian year of a moment (R.D.): one test, at `year`. It is undecided exactly where the bounds of the moment
/// fall in different years, and where nothing is known of the moment.
pub fn year<E: Enclosure>(t: E, trail: &mut Trail) -> Result<i64, Fail>
    ensures leads { Decides1 E.shown year_of t trail.old.count trail.new.count result }
    ensures decided { IfOk result (λ y. cell_at years (E.shown t) ≡ Some y) }
    ensures open { IfErr result (IsUndecidedYear (E.shown t) trail.new.count) }
    ensures close { (v : ℕ) → v ≤ 2 ^ 44 → IsAbout (2 ^ 90) v (E.shown t) → IfErr result IsClose }
    ensures counted { trail.new.count ≡ next_turn trail.old.count }
{
    let turn = trail.step();
    match t.span() {
        Some(span) => year_between(span, turn),
        None => Err(Fail::Undecided(Undecided {
            turn,
            site: Site::Year,
            lo: i128::MIN,
            hi: i128::MAX,
        })),
    }
}
