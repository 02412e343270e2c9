//! The major solar term at midnight at a place.
ghost use Rattle.book_model.specs.programs.Calls.{Decides};
ghost use Rattle.book_model.specs.programs.Widths.{IsClose};
ghost use Rattle.std.specs.Prelude.{◌≡◌, ◌+◌, pos, ◌≤ℤ◌, IfOk, IfErr};
ghost use Rattle.book_model.specs.sky.Facts.{IsFactValue, IsValueDay};
ghost use Rattle.book_model.specs.sky.Kinds.{terms_passed_of, major_of};

use crate::midnights::longitude_at_midnight;
use book_model::sun_tables::DEGREE_IN_TERMS;
use book_model::{Fail, Place, Site};
use encl_core::{Enclosure, Trail, amod, floor_step};

/// How many major solar terms the sun has passed since the spring equinox at midnight at the beginning of a day (R.D.) at a
/// place: three tests at most (`passed_few`).
#[tactic(auto, using(book_model::proofs::Leads::leading), unfolding(book_model::specs::sky::Kinds::terms_passed_of))]
fn terms_passed<E: Enclosure>(place: Place, day: i64, trail: &mut Trail) -> Result<i64, Fail>
    ensures leads { Decides (terms_passed_of place day) trail.old.count trail.new.count result }
    ensures from { IfOk result (λ q. pos 0 ≤ℤ q) }
    ensures to { IfOk result (λ q. q ≤ℤ pos 12) }
    ensures close { E.BITS ≡ 56 → IsValueDay day → IfErr result IsClose }
{
    let longitude = longitude_at_midnight::<E>(place, day, trail)?;
    floor_step(longitude.mul_frac(DEGREE_IN_TERMS), Site::TermFloor, trail)
}

/// The number, from 1 to 12, of the last major solar term at midnight at the beginning of a day (R.D.) at a place, that at 330
/// degrees being the first: three tests at most (`major_few`).
#[tactic(auto, using(book_model::proofs::Leads::leading), unfolding(book_model::specs::sky::Kinds::major_of))]
pub(crate) fn major<E: Enclosure>(place: Place, day: i64, trail: &mut Trail) -> Result<i64, Fail>
    requires day { IsValueDay day }
    ensures leads { Decides (major_of place day) trail.old.count trail.new.count result }
    ensures value { IfOk result IsFactValue }
    ensures close { E.BITS ≡ 56 → IfErr result IsClose }
{
    let passed = terms_passed::<E>(place, day, trail)?;
    Ok(amod(2 + passed, 12))
}
