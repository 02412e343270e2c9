//! The distance of the moon at the beginning of a day.
ghost use Rattle.book_model.specs.numbers.Expressions.{integer};
ghost use Rattle.book_model.specs.programs.Calls.{Decides};
ghost use Rattle.book_model.specs.programs.Programs.{bind};
ghost use Rattle.book_model.specs.programs.Widths.{IsClose};
ghost use Rattle.book_model.specs.sky.Correction.{rounded_of};
ghost use Rattle.book_model.specs.sky.Distance.{distance_of};
ghost use Rattle.book_model.specs.sky.Facts.{IsFactValue, IsValueDay};
ghost use Rattle.std.specs.Prelude.{◌≡◌, ◌≤◌, IfOk, IfErr};
ghost use Rattle.time_scales.specs.Steps.{IsNoEarlyYear};

use crate::rounding::rounded;
use book_model::Fail;
use encl_core::{Enclosure, Trail};
use moon_rise::distance;

/// The distance of the moon's centre from the earth's at 0 h universal time of a day (R.D.), in kilometres, rounded: two tests, of
/// which that of the year is never undecided. It is void at `year` in a year without ΔT.
#[tactic(auto, using(book_model::proofs::Leads::leading))]
pub(crate) fn distance_in_kilometres<E: Enclosure>(day: i64, trail: &mut Trail) -> Result<i64, Fail>
    requires day { IsValueDay day }
    ensures leads { Decides (bind (distance_of (integer day)) rounded_of) trail.old.count
        trail.new.count result }
    ensures value { IfOk result IsFactValue }
    ensures early { 36 ≤ E.BITS → E.BITS ≤ 56 → IfErr result IsNoEarlyYear }
    ensures close { E.BITS ≡ 56 → IfErr result IsClose }
{
    let kilometres = distance(E::from_int(day), trail)?;
    rounded(kilometres, trail)
}
