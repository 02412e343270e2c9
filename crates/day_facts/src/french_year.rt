//! The first day of a French year.
ghost use Rattle.book_model.specs.programs.Calls.{Decides};
ghost use Rattle.book_model.specs.programs.Widths.{IsClose};
ghost use Rattle.std.specs.Prelude.{◌≡◌, IfOk, IfErr};
ghost use Rattle.book_model.specs.sky.Facts.{IsFactValue, IsValueDay};
ghost use Rattle.book_model.specs.sky.Kinds.{french_year_of};
ghost use Rattle.book_model.specs.sky.Noon.{paris_midnight_of};

use crate::seasons::{DayMoment, season_day};
use book_model::Fail;
use book_model::calendar_tables::AUTUMN;
use encl_core::{Enclosure, Trail};
use moon_core::{SunLinearModel, paris_midnight};

/// Midnight at the end of a day by apparent time at Paris.
#[derive(Drop)]
struct MidnightAtParis;

impl<E: Enclosure> DayMoment<E> for MidnightAtParis {
    ghost moment_of = { λ s. paris_midnight_of };

    #[tactic(auto)]
    fn at(&self, day: i64, trail: &mut Trail) -> Result<E, Fail> {
        paris_midnight::<E>(day, trail)
    }
}

/// The first day (R.D.) of the French year in which a day falls, by apparent midnight at Paris. It is void at `search` where there is
/// none.
pub(crate) fn french_year<E: Enclosure>(
    linear_model: &SunLinearModel<E>,
    day: i64,
    trail: &mut Trail,
) -> Result<i64, Fail>
    requires day { IsValueDay day }
    ensures leads { Decides (french_year_of day) trail.old.count trail.new.count result }
    ensures value { IfOk result IsFactValue }
    ensures close { E.BITS ≡ 56 → IfErr result IsClose }
{
    season_day::<E, MidnightAtParis>(MidnightAtParis, linear_model, AUTUMN, day, trail)
}
