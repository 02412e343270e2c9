//! The day of the last winter solstice at a place.
ghost use Rattle.book_model.specs.programs.Calls.{Decides};
ghost use Rattle.std.specs.Prelude.{◌≡◌, IfOk, IfErr};
ghost use Rattle.book_model.specs.programs.Widths.{IsClose};
ghost use Rattle.book_model.specs.sky.Facts.{IsFactValue, IsValueDay};
ghost use Rattle.book_model.specs.sky.Kinds.{midnight_after_of, solstice_of};

use crate::seasons::{DayMoment, season_day};
use book_model::calendar_tables::WINTER;
use book_model::{Fail, Place};
use encl_core::{Enclosure, Trail};
use moon_core::SunLinearModel;
use time_scales::midnight;

/// Midnight at the end of a day at a place.
#[derive(Drop)]
struct MidnightAfter {
    place: Place,
}

impl<E: Enclosure> DayMoment<E> for MidnightAfter {
    ghost moment_of = { λ s. midnight_after_of s.place };

    #[tactic(auto, using(book_model::proofs::Leads::leading), unfolding(book_model::specs::sky::Kinds::midnight_after_of))]
    fn at(&self, day: i64, trail: &mut Trail) -> Result<E, Fail> {
        Ok(midnight::<E>(self.place, day + 1))
    }
}

/// The day (R.D.) of the last winter solstice at a place before a day ends there: the first from the day before the estimated one
/// on, of 46, at whose end the sun is past the solstice. It is void at `search` where there is none.
pub(crate) fn solstice<E: Enclosure>(
    linear_model: &SunLinearModel<E>,
    place: Place,
    day: i64,
    trail: &mut Trail,
) -> Result<i64, Fail>
    requires day { IsValueDay day }
    ensures leads { Decides (solstice_of place day) trail.old.count trail.new.count result }
    ensures value { IfOk result IsFactValue }
    ensures close { E.BITS ≡ 56 → IfErr result IsClose }
{
    season_day::<E, MidnightAfter>(MidnightAfter { place }, linear_model, WINTER, day, trail)
}
