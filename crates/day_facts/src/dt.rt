//! ΔT, dynamical less universal time, of a day, in milliseconds.
ghost use Rattle.book_model.specs.programs.Calls.{Decides};
ghost use Rattle.book_model.specs.programs.Widths.{IsClose};
ghost use Rattle.std.specs.Prelude.{◌≡◌, ◌≤◌, IfOk, IfErr};
ghost use Rattle.book_model.specs.numbers.Bounds.{Reach, limits_of};
ghost use Rattle.book_model.specs.calendars.Gregorian.{year_of_day};
ghost use Rattle.book_model.specs.numbers.Expressions.{Expression, World, add, constant, scale};
ghost use Rattle.book_model.specs.numbers.Fractions.{fraction_of};
ghost use Rattle.book_model.specs.sky.Facts.{IsFactValue, IsValueDay};
ghost use Rattle.book_model.specs.sky.Kinds.{dt_of};
ghost use Rattle.book_model.specs.numbers.Relations.{Within, Narrow};
ghost use Rattle.day_facts.specs.Widths.{IsCloseFor};
ghost use Rattle.time_scales.specs.Steps.{IsNoEarlyYear};

use book_model::tables::{HALF, MILLISECONDS_OF_DAY};
use book_model::{Fail, Site};
use encl_core::{Enclosure, Trail, floor_step};
use time_scales::{correction, year_of_whole_day};

/// Days as milliseconds, and a half: what is rounded down.
fn milliseconds<E: Enclosure>(days: E) -> E
    ensures holds { (w : World) (x : Expression) → Within E.shown w x days
        → Within E.shown w (add (scale (fraction_of MILLISECONDS_OF_DAY) x)
        (constant (fraction_of HALF))) result }
    ensures narrow { (r : Reach) (x : Expression) → Narrow E.shown (limits_of E.BITS) r x days
        → Narrow E.shown (limits_of E.BITS) r (add (scale (fraction_of MILLISECONDS_OF_DAY) x)
        (constant (fraction_of HALF))) result }
{
    days.mul_frac(MILLISECONDS_OF_DAY).add(E::from_frac(HALF))
}

/// ΔT, dynamical less universal time, of the year of a day, in milliseconds, rounded: two tests, of which only the
/// second may be undecided.
#[tactic(auto, using(book_model::proofs::Leads::leading), unfolding(book_model::specs::sky::Kinds::dt_of, book_model::specs::sky::Correction::rounded_of))]
pub(crate) fn dt<E: Enclosure>(day: i64, trail: &mut Trail) -> Result<i64, Fail>
    requires day { IsValueDay day }
    ensures leads { Decides (dt_of day) trail.old.count trail.new.count result }
    ensures value { IfOk result IsFactValue }
    ensures early { 36 ≤ E.BITS → E.BITS ≤ 56 → IfErr result IsNoEarlyYear }
    ensures units { 36 ≤ E.BITS → E.BITS ≤ 56 → IfErr result (IsCloseFor E.BITS (year_of_day day)) }
    ensures close { E.BITS ≡ 56 → IfErr result IsClose }
{
    let year = year_of_whole_day(day, trail);
    let days = correction::<E>(year, trail)?;
    floor_step(milliseconds(days), Site::Round, trail)
}
