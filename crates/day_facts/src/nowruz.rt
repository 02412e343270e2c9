//! The first day of a Persian year.
ghost use Rattle.book_model.specs.programs.Calls.{Decides};
ghost use Rattle.book_model.specs.programs.Widths.{IsClose};
ghost use Rattle.std.specs.Prelude.{◌≡◌, IfOk, IfErr};
ghost use Rattle.book_model.specs.sky.Facts.{IsFactValue, IsValueDay};
ghost use Rattle.book_model.specs.sky.Kinds.{nowruz_of};
ghost use Rattle.book_model.specs.sky.Noon.{noon_of};

use crate::seasons::{DayMoment, season_day};
use book_model::Fail;
use book_model::calendar_tables::SPRING;
use encl_core::{Enclosure, Trail};
use moon_core::{SunLinearModel, noon};

/// True noon of a day at Tehran.
#[derive(Drop)]
struct NoonAtTehran;

impl<E: Enclosure> DayMoment<E> for NoonAtTehran {
    ghost moment_of = { λ s. noon_of };

    #[tactic(auto)]
    fn at(&self, day: i64, trail: &mut Trail) -> Result<E, Fail> {
        noon::<E>(day, trail)
    }
}

/// The first day (R.D.) of the Persian year in which a day falls, by true noon at Tehran. It is void at `search` where there is
/// none.
pub(crate) fn nowruz<E: Enclosure>(
    linear_model: &SunLinearModel<E>,
    day: i64,
    trail: &mut Trail,
) -> Result<i64, Fail>
    requires day { IsValueDay day }
    ensures leads { Decides (nowruz_of day) trail.old.count trail.new.count result }
    ensures value { IfOk result IsFactValue }
    ensures close { E.BITS ≡ 56 → IfErr result IsClose }
{
    season_day::<E, NoonAtTehran>(NoonAtTehran, linear_model, SPRING, day, trail)
}
