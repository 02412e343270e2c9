//! The longitude of the sun at the beginning of a day.
ghost use Rattle.book_model.specs.programs.Calls.{Decides};
ghost use Rattle.book_model.specs.programs.Widths.{IsClose};
ghost use Rattle.std.specs.Prelude.{◌≡◌, ◌≤◌, IfOk, IfErr};
ghost use Rattle.book_model.specs.sky.Facts.{IsFactValue, IsValueDay};
ghost use Rattle.book_model.specs.sky.Kinds.{sun_in_thousandths_of};
ghost use Rattle.time_scales.specs.Steps.{IsNoEarlyYear};

use book_model::tables::THOUSANDTHS_OF_DEGREE;
use book_model::{Fail, Site};
use encl_core::{Enclosure, Trail, floor_step};
use moon_core::sun;

/// The longitude of the sun at 0 h universal time of a day, in thousandths of a degree, rounded down: three tests, of
/// which that of the year is never undecided.
#[tactic(auto, using(book_model::proofs::Leads::leading), unfolding(book_model::specs::sky::Kinds::sun_in_thousandths_of))]
pub(crate) fn sun_in_thousandths<E: Enclosure>(day: i64, trail: &mut Trail) -> Result<i64, Fail>
    requires day { IsValueDay day }
    ensures leads { Decides (sun_in_thousandths_of day) trail.old.count trail.new.count result }
    ensures value { IfOk result IsFactValue }
    ensures early { 36 ≤ E.BITS → E.BITS ≤ 56 → IfErr result IsNoEarlyYear }
    ensures close { E.BITS ≡ 56 → IfErr result IsClose }
{
    let degrees = sun(E::from_int(day), trail)?;
    floor_step(degrees.mul_frac(THOUSANDTHS_OF_DEGREE), Site::Round, trail)
}
