//! Apparent time, which sundials show, true noon at Tehran, and midnight by it at Paris.
ghost use Rattle.book_model.specs.programs.Calls.{Encloses, Follows, Follows1};
ghost use Rattle.book_model.specs.programs.Widths.{IsAbout, IsMoment, Measured, Measured1};
ghost use Rattle.std.specs.Prelude.{◌≡◌, ◌+◌, ◌-◌, ◌*◌, ◌/◌, ◌^◌, pos, negsuc, ◌≤ℤ◌};
ghost use Rattle.book_model.specs.numbers.Fractions.{fraction_of};
ghost use Rattle.book_model.specs.sky.Facts.{IsFactDay};
ghost use Rattle.book_model.specs.sky.Noon.{ahead_of, from_apparent_of, noon_of, paris_midnight_of};
ghost use Rattle.sun_core.specs.Steps.{apparent_midnight_of, apparent_noon_of};
ghost use Rattle.sun_core.specs.Widths.{IsLocalMoment, IsNarrowPlace};

use crate::equation::equation_of_time;
use book_model::sun_tables::{DEGREE_IN_DAYS, PARIS_LONGITUDE, PERSIAN_NOON_LONGITUDE};
use book_model::tables::HALF;
use book_model::{Fail, Frac};
use encl_core::{Enclosure, Trail};

/// What local mean time is ahead of universal time at a longitude, in days.
#[tactic(auto, unfolding(book_model::specs::sky::Noon::ahead_of))]
fn ahead<E: Enclosure>(longitude: Frac) -> E
    ensures encloses { Encloses E.shown E.BITS (ahead_of (fraction_of longitude)) result }
{
    E::from_frac(longitude).mul_frac(DEGREE_IN_DAYS)
}

/// The local mean time of a moment of apparent time, which sundials show, at a longitude east of Greenwich in degrees
/// (Reingold and Dershowitz, Calendrical Calculations, chapter 14): the moment less the equation of time at it. One
/// test, at `year`; it is void at `year` in a year without ΔT.
#[tactic(auto, using(book_model::proofs::Leads::leading), unfolding(book_model::specs::sky::Noon::from_apparent_of))]
pub fn from_apparent<E: Enclosure>(longitude: Frac, t: E, trail: &mut Trail) -> Result<E, Fail>
    ensures leads { Follows1 E.shown (from_apparent_of (fraction_of longitude)) t trail.old.count
        trail.new.count result }
    ensures measured { IsNarrowPlace longitude → Measured1 E.BITS E.shown (2 ^ 41) IsLocalMoment
        (λ v. IsAbout (2 ^ 58 - 2 ^ 33) (v + v / 100 + 3 * 2 ^ 29)) t result }
{
    let equation = equation_of_time(t.sub(ahead::<E>(longitude)), trail)?;
    Ok(t.sub(equation))
}

/// The middle of a day.
#[tactic(auto, unfolding(crate::specs::Steps::apparent_noon_of))]
fn apparent_noon<E: Enclosure>(day: i64) -> E
    ensures encloses { Encloses E.shown E.BITS (apparent_noon_of day) result }
{
    E::from_int(day).add(E::from_frac(HALF))
}

/// The moment of true noon on a day at Tehran, in universal time (Reingold and Dershowitz, Calendrical Calculations,
/// chapter 15). One test, at `year`; it is void at `year` in a year without ΔT.
#[tactic(auto, using(book_model::proofs::Leads::leading), unfolding(book_model::specs::sky::Noon::noon_of, crate::specs::Steps::apparent_noon_of))]
pub fn noon<E: Enclosure>(d: i64, trail: &mut Trail) -> Result<E, Fail>
    requires day { IsFactDay d }
    ensures leads { Follows E.shown (noon_of d) trail.old.count trail.new.count result }
    ensures measured { Measured E.BITS E.shown (IsMoment (2 ^ 31)) result }
{
    let local = from_apparent(PERSIAN_NOON_LONGITUDE, apparent_noon::<E>(d), trail)?;
    Ok(local.sub(ahead::<E>(PERSIAN_NOON_LONGITUDE)))
}

/// The end of a day.
#[tactic(auto, unfolding(crate::specs::Steps::apparent_midnight_of))]
fn apparent_midnight<E: Enclosure>(day: i64) -> E
    requires day { IsFactDay day }
    ensures encloses { Encloses E.shown E.BITS (apparent_midnight_of day) result }
{
    E::from_int(day + 1)
}

/// Midnight at the end of a day by apparent time at Paris, in universal time (Reingold and Dershowitz, Calendrical Calculations,
/// chapter 17). One test, at `year`; it is void at `year` in a year without ΔT.
#[tactic(auto, using(book_model::proofs::Leads::leading), unfolding(book_model::specs::sky::Noon::paris_midnight_of, crate::specs::Steps::apparent_midnight_of))]
pub fn paris_midnight<E: Enclosure>(d: i64, trail: &mut Trail) -> Result<E, Fail>
    requires day { IsFactDay d }
    ensures leads { Follows E.shown (paris_midnight_of d) trail.old.count trail.new.count result }
    ensures measured { Measured E.BITS E.shown (IsMoment (2 ^ 31)) result }
{
    let local = from_apparent(PARIS_LONGITUDE, apparent_midnight::<E>(d), trail)?;
    Ok(local.sub(ahead::<E>(PARIS_LONGITUDE)))
}
