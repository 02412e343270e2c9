//! Numbers rounded.
ghost use Rattle.book_model.specs.programs.Calls.{Decides1};
ghost use Rattle.book_model.specs.programs.Widths.{IsAbout, Closes1};
ghost use Rattle.std.specs.Prelude.{◌^◌, IfErr};
ghost use Rattle.book_model.specs.sky.Correction.{rounded_of};
ghost use Rattle.time_scales.specs.Steps.{IsNoEarlyYear};

use book_model::tables::HALF;
use book_model::{Fail, Site};
use encl_core::{Enclosure, Trail, floor_step};

/// A number rounded, the greater of two: one test, which is of no year.
#[tactic(auto, using(book_model::proofs::Leads::leading), unfolding(book_model::specs::sky::Correction::rounded_of))]
pub(crate) fn rounded<E: Enclosure>(number: E, trail: &mut Trail) -> Result<i64, Fail>
    ensures leads { Decides1 E.shown rounded_of number trail.old.count trail.new.count result }
    ensures early { IfErr result IsNoEarlyYear }
    ensures close { Closes1 E.BITS E.shown (2 ^ 43) (IsAbout (2 ^ 89)) number result }
{
    floor_step(number.add(E::from_frac(HALF)), Site::Round, trail)
}
