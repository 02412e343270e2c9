//! When the sun is next at a longitude.
ghost use Rattle.std.specs.Prelude.{◌≡◌, ◌≤◌, ◌+◌, ◌*◌, ◌^◌, ℕ, IfOk, IfErr};
ghost use Rattle.book_model.specs.programs.Calls.{Encloses2, Follows2, Follows3};
ghost use Rattle.book_model.specs.programs.Widths.{IsMoment, IsUpTo, Measured2, Measures};
ghost use Rattle.book_model.specs.numbers.Expressions.{Expression, World};
ghost use Rattle.book_model.specs.numbers.Ranges.{IsInTable};
ghost use Rattle.book_model.specs.numbers.Relations.{Within};
ghost use Rattle.book_model.specs.programs.Leading.{Leads};
ghost use Rattle.book_model.specs.sky.Sun as spec;
ghost use Rattle.encl_core.specs.declared.greatest_widths.TheConstants.{SUN};
ghost use Rattle.encl_core.specs.GreatestWidths.{greatest_of};
ghost use Rattle.sun_core.specs.Longitudes.{IsLongitudeOf};
ghost use Rattle.sun_core.specs.Widths.{IsNearMoment};
ghost use Rattle.time_scales.specs.Steps.{IsEarlyYearFor};

use crate::estimates::reduced;
use crate::linear_models::{SunLinearModel, days_over, sun_by};
use crate::longitude;
use angle_search::{Angular, invert_angular};
use book_model::Fail;
use book_model::sun_tables::DEGREE_OF_YEAR;
use encl_core::{Enclosure, Trail};

/// How many days before and after the moment by the mean sun the sun is sought.
const PASSAGE_DAYS_ABOUT: i64 = 5;

/// The longitude of the sun, as an angle that grows with time.
impl<E: Enclosure> Angular<E> for SunLinearModel<E> {
    ghost angle_of = { spec.sun_of };

    ghost spread = { λ v. greatest_of SUN v };

    #[tactic(auto, using(angle_search::proofs::Measured::turn_measured))]
    fn at(&self, x: E, trail: &mut Trail) -> Result<E, Fail> {
        longitude::sun(x, trail)
    }

    fn near(&self, x: E, trail: &mut Trail) -> Result<E, Fail> {
        sun_by(self, x, trail)
    }

    fn over(&self, interval_of_days: E, trail: &Trail) -> Option<Self> {
        let days = days_over(interval_of_days, trail)?;
        Some(SunLinearModel::<E>::of(days))
    }

    fn time_of(&self, degrees: E) -> E {
        degrees.mul_frac(DEGREE_OF_YEAR)
    }
}

/// How far the sun is before a longitude, from 0 up to 360 degrees: three tests at most (`fact_eval`'s `short_few`).
#[tactic(auto, using(book_model::proofs::Leads::leading), unfolding(book_model::specs::sky::Sun::sun_short_of))]
fn degrees_short<E: Enclosure>(longitude: E, t: E, trail: &mut Trail) -> Result<E, Fail>
    ensures leads { Follows2 E.shown spec.sun_short_of longitude t trail.old.count trail.new.count
        result }
    ensures in_table { IfOk result (λ p. IsInTable (E.shown t)) }
    ensures measured { Measured2 E.BITS E.shown (2 ^ 42) (λ v. IsMoment 0) IsMoment
        (λ v. IsUpTo 360 (greatest_of SUN v)) longitude t result }
    ensures early { IfErr result (IsEarlyYearFor (E.shown t)) }
{
    let there = longitude::sun(t, trail)?;
    reduced(longitude.sub(there), trail)
}

/// The same by the longitude of the sun at the moment, where that is known: its two tests count and aren't made anew.
#[tactic(auto, using(book_model::proofs::Leads::leading), unfolding(book_model::specs::sky::Sun::sun_short_of))]
fn degrees_short_again<E: Enclosure>(longitude: E, sun: E, trail: &mut Trail) -> Result<E, Fail>
    ensures leads { (w : World) (y x : Expression) → Within E.shown w y longitude
        → IsLongitudeOf E.shown w x sun
        → Leads w (Within E.shown w) (spec.sun_short_of y x) trail.old.count trail.new.count result }
    ensures measured { (v : ℕ) → E.BITS ≡ 56 → v ≤ 2 ^ 43 → IsMoment 0 (E.shown longitude)
        → IsUpTo 360 v (E.shown sun)
        → Measures (λ d. IsUpTo 360 v (E.shown d)) result }
{
    trail.step();
    trail.step();
    reduced(longitude.sub(sun), trail)
}

/// A moment and the time in which the mean sun moves on by an angle.
#[tactic(auto, unfolding(book_model::specs::sky::Sun::forward_by))]
fn moved_on<E: Enclosure>(angle: E, t: E) -> E
    ensures encloses { Encloses2 E.shown E.BITS spec.forward_by angle t result }
{
    t.add(angle.mul_frac(DEGREE_OF_YEAR))
}

/// When the sun is at a longitude about a moment, but not before the moment `t`.
#[tactic(auto, unfolding(book_model::specs::sky::Sun::sun_about_of))]
fn passage_about<E: Enclosure>(
    linear_model: &SunLinearModel<E>,
    longitude: E,
    t: E,
    about: E,
    trail: &mut Trail,
) -> Result<E, Fail>
    ensures leads { Follows3 E.shown spec.sun_about_of longitude t about trail.old.count
        trail.new.count result }
    ensures measured { (v : ℕ) → E.BITS ≡ 56 → v ≤ 2 ^ 37 → IsMoment 0 (E.shown longitude)
        → IsMoment v (E.shown t) → IsNearMoment v (E.shown about)
        → Measures (λ x. IsMoment (v + 2 ^ 24) (E.shown x)) result }
{
    let days = E::from_int(PASSAGE_DAYS_ABOUT);
    invert_angular::<E, SunLinearModel<E>>(
        linear_model,
        longitude,
        t.max(about.sub(days)),
        about.add(days),
        trail,
    )
}

// Calls with the ending `_by` take a linear model, of which the evaluator has one for all facts; the call
// without it makes the one over all days first.
/// `sun_from`, where the linear model of the sun is known, over all days or over those about the moment.
#[tactic(auto, using(book_model::proofs::Leads::leading), unfolding(book_model::specs::sky::Sun::sun_from_of))]
pub fn sun_from_by<E: Enclosure>(
    linear_model: &SunLinearModel<E>,
    l: E,
    t: E,
    trail: &mut Trail,
) -> Result<E, Fail>
    ensures leads { Follows2 E.shown spec.sun_from_of l t trail.old.count trail.new.count result }
    ensures measured { Measured2 E.BITS E.shown (2 ^ 34) (λ v. IsMoment 0) IsMoment
        (λ v. IsMoment (4 * v + 2 ^ 33)) l t result }
    ensures early { trail.old.count ≡ 0 → IfErr result (IsEarlyYearFor (E.shown t)) }
{
    let short = degrees_short(l, t, trail)?;
    passage_about(linear_model, l, t, moved_on(short, t), trail)
}

/// `sun_from_by` by the longitude of the sun at the moment, where that is known: its two tests count and aren't made anew.
#[tactic(auto, using(book_model::proofs::Leads::leading), unfolding(book_model::specs::sky::Sun::sun_from_of))]
pub fn sun_from_again<E: Enclosure>(
    linear_model: &SunLinearModel<E>,
    l: E,
    t: E,
    there: E,
    trail: &mut Trail,
) -> Result<E, Fail>
    ensures leads { (w : World) (y x : Expression) → Within E.shown w y l → Within E.shown w x t
        → IsLongitudeOf E.shown w x there
        → Leads w (Within E.shown w) (spec.sun_from_of y x) trail.old.count trail.new.count result }
    ensures measured { (v : ℕ) → E.BITS ≡ 56 → v ≤ 2 ^ 34 → IsMoment 0 (E.shown l)
        → IsMoment v (E.shown t) → IsInTable (E.shown t)
        → IsUpTo 360 (greatest_of SUN v) (E.shown there)
        → Measures (λ x. IsMoment (4 * v + 2 ^ 33) (E.shown x)) result }
{
    let short = degrees_short_again(l, there, trail)?;
    passage_about(linear_model, l, t, moved_on(short, t), trail)
}

/// When the sun is next at a longitude, in degrees, at or after a moment of universal time: by bisection about the moment to which
/// the mean sun leads (Reingold and Dershowitz, Calendrical Calculations, chapter 14). 324 tests at most (`fact_eval`'s
/// `from_few`): the sun's two at the moment, one at `step-wrap`, and those of the bisection. It is void at `year` in a year without
/// ΔT.
pub fn sun_from<E: Enclosure>(l: E, t: E, trail: &mut Trail) -> Result<E, Fail>
    ensures leads { Follows2 E.shown spec.sun_from_of l t trail.old.count trail.new.count result }
    ensures measured { Measured2 E.BITS E.shown (2 ^ 34) (λ v. IsMoment 0) IsMoment
        (λ v. IsMoment (4 * v + 2 ^ 33)) l t result }
    ensures early { trail.old.count ≡ 0 → IfErr result (IsEarlyYearFor (E.shown t)) }
{
    let linear_model = SunLinearModel::<E>::always();
    sun_from_by(&linear_model, l, t, trail)
}
