//! The formula of each kind of fact.
ghost use Rattle.book_model.specs.programs.Calls.{Decides};
ghost use Rattle.book_model.specs.programs.Widths.{IsClose};
ghost use Rattle.std.specs.Prelude.{◌≡◌, ◌≤◌, IfOk, IfErr};
ghost use Rattle.book_model.specs.sky.Facts.{IsFactValue, IsValueDay, formula_of};
ghost use Rattle.day_facts.specs.WholeDays.{IsNoWholeDay};

use crate::distances::distance_in_kilometres;
use crate::dt::dt;
use crate::french_year::french_year;
use crate::hindu_days::{
    calendar_year, sankranti, sign_after, sign_at_sunset, sign_before, solar_year, tithi,
};
use crate::major::major;
use crate::moon_days::{new_moon_before, new_moon_from};
use crate::nisan::nisan;
use crate::nowruz::nowruz;
use crate::quarters::{phase_day, phasis};
use crate::solar_terms::term_day;
use crate::solstice::solstice;
use crate::sun::sun_in_thousandths;
use crate::sunsets::{bahai_year, sunset_in_minutes};
use book_model::{Fail, Kind, Place};
use crescent::Sightings;
use encl_core::{Enclosure, Trail};
use moon_core::PhaseLinearModel;
use moon_rise::{moonrise, moonset};

// That a value stays within 10,000,000 is proved of runs and not of enclosures: the bounds of these
// lose the signs of terms, and are too wide in many years before 1987.
/// The value that the formula of a kind of fact gives at a place on a day (R.D.): one line for each kind. `sightings` holds what earlier runs
/// have decided of evenings, and takes what this one decides.
#[tactic(auto, using(crate::proofs::KindFailures::keeping), unfolding(book_model::specs::sky::Facts::formula_of))]
pub fn formula<E: Enclosure>(
    linear_model: &PhaseLinearModel<E>,
    sightings: &Sightings,
    kind: Kind,
    place: Place,
    day: i64,
    trail: &mut Trail,
) -> Result<i64, Fail>
    requires day { IsValueDay day }
    ensures leads { Decides (formula_of kind place day) trail.old.count trail.new.count result }
    ensures value { IfOk result IsFactValue }
    ensures early { trail.old.count ≡ 0 → 36 ≤ E.BITS → E.BITS ≤ 56
        → IfErr result (IsNoWholeDay kind) }
    ensures close { E.BITS ≡ 56 → IfErr result IsClose }
{
    match kind {
        Kind::Dt => dt::<E>(day, trail),
        Kind::Sun => sun_in_thousandths::<E>(day, trail),
        Kind::Nowruz => nowruz::<E>(linear_model.sun(), day, trail),
        Kind::BahaiYear => bahai_year::<E>(linear_model.sun(), day, trail),
        Kind::Solstice => solstice::<E>(linear_model.sun(), place, day, trail),
        Kind::NewMoonBefore => new_moon_before::<E>(linear_model, place, day, trail),
        Kind::NewMoonFrom => new_moon_from::<E>(linear_model, place, day, trail),
        Kind::Major => major::<E>(place, day, trail),
        Kind::MajorTerm => term_day::<E>(linear_model.sun(), place, 0, day, trail),
        Kind::MinorTerm => term_day::<E>(linear_model.sun(), place, 15, day, trail),
        Kind::Phasis => phasis::<E>(linear_model, sightings, place, day, trail),
        Kind::Sign => sign_at_sunset::<E>(linear_model.sun(), day, trail),
        Kind::SolarYear => solar_year::<E>(day, trail),
        Kind::Sankranti => sankranti::<E>(linear_model.sun(), day, trail),
        Kind::Tithi => tithi::<E>(day, trail),
        Kind::SignBefore => sign_before::<E>(linear_model, day, trail),
        Kind::SignAfter => sign_after::<E>(linear_model, day, trail),
        Kind::CalendarYear => calendar_year::<E>(day, trail),
        Kind::NewMoon => phase_day::<E>(linear_model, 0, day, trail),
        Kind::FirstQuarter => phase_day::<E>(linear_model, 90, day, trail),
        Kind::FullMoon => phase_day::<E>(linear_model, 180, day, trail),
        Kind::LastQuarter => phase_day::<E>(linear_model, 270, day, trail),
        Kind::Sunset => sunset_in_minutes::<E>(place, day, trail),
        Kind::Distance => distance_in_kilometres::<E>(day, trail),
        Kind::Moonrise => moonrise::<E>(place, day, trail),
        Kind::Moonset => moonset::<E>(place, day, trail),
        Kind::FrenchYear => french_year::<E>(linear_model.sun(), day, trail),
        Kind::Nisan => nisan::<E>(linear_model, sightings, place, day, trail),
    }
}
