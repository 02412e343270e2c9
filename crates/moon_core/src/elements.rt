//! The mean elements of the moon at a moment: of one set of them its longitude, its latitude and its distance are computed.
ghost use Rattle.book_model.specs.numbers.Bounds.{Reach, limits_of};
ghost use Rattle.book_model.specs.numbers.Expressions.{Expression, World};
ghost use Rattle.book_model.specs.numbers.Relations.{Within, Narrow};
ghost use Rattle.book_model.specs.programs.Leading.{Leads};
ghost use Rattle.book_model.specs.programs.Widths.{IsMoment, Measures};
ghost use Rattle.book_model.specs.sky.Time.{centuries_of};
ghost use Rattle.moon_core.specs.Elements.{HoldElements, KeepElements, AreElements, AreElementsOf, AreMeasured};
ghost use Rattle.std.specs.Prelude.{◌≡◌, ◌≤◌, ◌^◌, ℕ, IfOk, IfErr};
ghost use Rattle.time_scales.specs.Steps.{IsYearUndecidedFor};

use crate::higher_terms::{angles_by, higher_terms, quartic_by};
use book_model::Fail;
use book_model::moon_tables::MOON_LONGITUDE;
use book_model::time_tables::{DAY_IN_CENTURIES, NOON_2000};
use encl_core::{Enclosure, Trail};
use periodic_terms::MeanAngles;
use time_scales::dynamical;

/// The time of a moment, in days from noon of 1 January 2000 in dynamical time and in centuries, the moon's mean longitude, in
/// degrees and not reduced, and the angles of which its terms are made.
#[derive(Clone, Copy, Drop)]
pub struct MoonElements<E> {
    pub days: E,
    pub centuries: E,
    pub mean_longitude: E,
    pub angles: MeanAngles<E>,
}

/// The elements by the days from noon of 1 January 2000.
pub(crate) fn elements_at<E: Enclosure>(days: E) -> MoonElements<E>
    ensures holds { (w : World) (x : Expression) → Within E.shown w x days
        → HoldElements E.shown w x result }
    ensures narrow { (r : Reach) (x : Expression) → Narrow E.shown (limits_of E.BITS) r x days
        → KeepElements E.shown (limits_of E.BITS) r x result }
{
    let centuries = days.mul_frac(DAY_IN_CENTURIES);
    let higher = higher_terms(centuries);
    MoonElements {
        days,
        centuries,
        mean_longitude: quartic_by(&MOON_LONGITUDE, days, higher.longitude),
        angles: angles_by(days, centuries, higher),
    }
}

/// The elements at a moment of universal time: one test, the year's. It is void at `year` in a year without ΔT.
#[tactic(auto, using(book_model::proofs::Leads::leading), unfolding(book_model::specs::sky::Time::centuries_of))]
pub fn moon_elements<E: Enclosure>(t: E, trail: &mut Trail) -> Result<MoonElements<E>, Fail>
    ensures leads { (w : World) (x : Expression) → Within E.shown w x t
        → Leads w (AreElements E.shown w) (centuries_of x) trail.old.count trail.new.count result }
    ensures again { IfOk result (λ b. (w : World) (x : Expression) → Within E.shown w x t
        → AreElementsOf E.shown w x b) }
    ensures measured { (v : ℕ) → E.BITS ≡ 56 → v ≤ 2 ^ 44 → IsMoment v (E.shown t)
        → Measures (AreMeasured E.shown E.BITS v) result }
    ensures open { IfErr result (IsYearUndecidedFor (E.shown t)) }
{
    let moment = dynamical(t, trail)?;
    Ok(elements_at(moment.sub(E::from_frac(NOON_2000))))
}
