//! When the moon was last at a phase.
ghost use Rattle.book_model.specs.programs.Calls.{Decides, Encloses2, Follows1, Follows2, Follows3};
ghost use Rattle.book_model.specs.programs.Widths.{IsAbout, IsClose, IsMoment, IsSmall, IsUpTo, Measured1, Measured2, Measures};
ghost use Rattle.std.specs.Prelude.{◌≡◌, ◌≤◌, ◌+◌, ◌*◌, ◌^◌, ℕ, pos, negsuc, ◌≤ℤ◌, IfOk, IfErr};
ghost use Rattle.book_model.specs.numbers.Ranges.{IsInTable};
ghost use Rattle.sun_core.specs.Widths.{IsNearMoment};
ghost use Rattle.book_model.specs.Interval.{Interval};
ghost use Rattle.book_model.specs.sky.Facts.{IsFactDay, IsValueDay};
ghost use Rattle.book_model.specs.sky.Phases as spec;
ghost use Rattle.book_model.specs.sky.Sun.{reduced_of};
ghost use Rattle.encl_core.specs.declared.greatest_widths.TheConstants.{PHASE};
ghost use Rattle.encl_core.specs.GreatestWidths.{greatest_of};
ghost use Rattle.moon_core.specs.PhaseDays.{IsPhaseDay};
ghost use Rattle.time_scales.specs.Steps.{IsEarlyYearFor, IsNoEarlyYear};

use crate::phase_linear_models::{PhaseLinearModel, phase_by};
use crate::phases;
use book_model::new_moon_tables::DEGREE_OF_MONTH;
use book_model::{Fail, Site};
use encl_core::{Enclosure, Trail, floor_step, wrap_step};
use sun_core::{Angular, invert_angular};

/// How many days before and after the moment by the mean phase the moon is sought.
const PHASE_DAYS_ABOUT: i64 = 2;

/// The phase of the moon, as an angle that grows with time.
impl<E: Enclosure> Angular<E> for PhaseLinearModel<E> {
    ghost angle_of = { spec.phase_of };

    ghost spread = { λ v. greatest_of PHASE v };

    fn at(&self, x: E, trail: &mut Trail) -> Result<E, Fail> {
        phases::phase(x, trail)
    }

    fn near(&self, x: E, trail: &mut Trail) -> Result<E, Fail> {
        phase_by(self, x, trail)
    }

    fn over(&self, interval_of_days: E, trail: &Trail) -> Option<Self> {
        self.over_moments(interval_of_days, trail)
    }

    fn time_of(&self, degrees: E) -> E {
        degrees.mul_frac(DEGREE_OF_MONTH)
    }
}

/// An angle, reduced to 0 up to 360 degrees: one test, at `step-wrap`.
#[tactic(auto, using(book_model::proofs::Leads::leading, crate::proofs::UndecidedTests::opening), unfolding(book_model::specs::sky::Sun::reduced_of))]
fn reduced<E: Enclosure>(angle: E, trail: &mut Trail) -> Result<E, Fail>
    ensures leads { Follows1 E.shown reduced_of angle trail.old.count trail.new.count result }
    ensures measured { Measured1 E.BITS E.shown (2 ^ 44) (IsAbout (2 ^ 90)) (IsUpTo 360) angle
        result }
    ensures elsewhere { (i : Interval) → IfErr result (IsEarlyYearFor i) }
{
    wrap_step(angle, 360, Site::StepWrap, trail)
}

/// How far the moon is past a phase, from 0 up to 360 degrees: eleven tests at most (`past_few`).
#[tactic(auto, using(book_model::proofs::Leads::leading), unfolding(book_model::specs::sky::Phases::phase_past_of))]
fn phase_past<E: Enclosure>(phase: E, t: E, trail: &mut Trail) -> Result<E, Fail>
    ensures leads { Follows2 E.shown spec.phase_past_of phase t trail.old.count trail.new.count
        result }
    ensures in_table { IfOk result (λ p. IsInTable (E.shown t)) }
    ensures measured { Measured2 E.BITS E.shown (3 * 2 ^ 37) (λ v. IsMoment 0) IsMoment
        (λ v. IsUpTo 360 (24 * v + 2 ^ 37)) phase t result }
    ensures early { trail.old.count ≡ 0 → IfErr result (IsEarlyYearFor (E.shown t)) }
{
    let there = phases::phase(t, trail)?;
    reduced(there.sub(phase), trail)
}

/// A moment less the time in which the mean phase moves on by an angle.
#[tactic(auto, unfolding(book_model::specs::sky::Phases::phase_back_by))]
fn phase_back<E: Enclosure>(angle: E, t: E) -> E
    ensures encloses { Encloses2 E.shown E.BITS spec.phase_back_by angle t result }
{
    t.sub(angle.mul_frac(DEGREE_OF_MONTH))
}

/// When the moon is at a phase about a moment, but not after the moment `t`.
#[tactic(auto, unfolding(book_model::specs::sky::Phases::phase_about_of))]
fn phase_about<E: Enclosure>(
    linear_model: &PhaseLinearModel<E>,
    phase: E,
    t: E,
    about: E,
    trail: &mut Trail,
) -> Result<E, Fail>
    ensures leads { Follows3 E.shown spec.phase_about_of phase t about trail.old.count
        trail.new.count result }
    ensures measured { (v : ℕ) → E.BITS ≡ 56 → v ≤ 2 ^ 35 → IsMoment 0 (E.shown phase)
        → IsMoment v (E.shown t) → IsNearMoment v (E.shown about)
        → Measures (λ x. IsMoment (v + 2 ^ 24) (E.shown x)) result }
{
    let days = E::from_int(PHASE_DAYS_ABOUT);
    let low = about.sub(days);
    let high = t.min(about.add(days));
    let seeking = linear_model.seeking(phase, low.hull(high), trail);
    invert_angular::<E, PhaseLinearModel<E>>(&seeking, phase, low, high, trail)
}

/// `phase_before`, where the linear models of the moon and the sun are known, over the usual days or over those about the moment.
#[tactic(auto, using(book_model::proofs::Leads::leading), unfolding(book_model::specs::sky::Phases::phase_before_of))]
pub fn phase_before_by<E: Enclosure>(
    linear_model: &PhaseLinearModel<E>,
    p: E,
    t: E,
    trail: &mut Trail,
) -> Result<E, Fail>
    ensures leads { Follows2 E.shown spec.phase_before_of p t trail.old.count trail.new.count result }
    ensures measured { Measured2 E.BITS E.shown (2 ^ 32) (λ v. IsMoment 0) IsMoment
        (λ v. IsMoment (3 * v + 2 ^ 34)) p t result }
    ensures early { trail.old.count ≡ 0 → IfErr result (IsEarlyYearFor (E.shown t)) }
{
    let past = phase_past(p, t, trail)?;
    phase_about(linear_model, p, t, phase_back(past, t), trail)
}

/// When the moon was last at a phase, in degrees, at or before a moment of universal time: by bisection about the moment to which
/// the mean phase leads back (Reingold and Dershowitz, Calendrical Calculations, chapter 14). 844 tests at most
/// (`phase_before_few`): eleven of how far the moon is past the phase, and those of the bisection. It is void at `year` in a year
/// without ΔT.
pub fn phase_before<E: Enclosure>(p: E, t: E, trail: &mut Trail) -> Result<E, Fail>
    ensures leads { Follows2 E.shown spec.phase_before_of p t trail.old.count trail.new.count result }
    ensures measured { Measured2 E.BITS E.shown (2 ^ 32) (λ v. IsMoment 0) IsMoment
        (λ v. IsMoment (3 * v + 2 ^ 34)) p t result }
    ensures early { trail.old.count ≡ 0 → IfErr result (IsEarlyYearFor (E.shown t)) }
{
    let linear_model = PhaseLinearModel::<E>::usual();
    phase_before_by(&linear_model, p, t, trail)
}

// One call, which the four phases and the first visibility of the crescent share.
/// The day (R.D.) in universal time on which the moon was last at a phase, in degrees, before a day begins or as it begins, by the
/// linear models of the moon and the sun: 845 tests at most (`phase_day_few_exactly`). It is void where `phase_before` is. Its
/// first and third tests, of the year of the day itself, are never undecided.
#[tactic(auto, using(book_model::proofs::Leads::leading), unfolding(book_model::specs::sky::Phases::phase_day_of))]
pub fn phase_day<E: Enclosure>(
    linear_model: &PhaseLinearModel<E>,
    phase: i64,
    day: i64,
    trail: &mut Trail,
) -> Result<i64, Fail>
    ensures leads { Decides (spec.phase_day_of phase day) trail.old.count trail.new.count result }
    ensures near { IfOk result IsPhaseDay }
    ensures close { E.BITS ≡ 56 → IsSmall phase → IsFactDay day → IfErr result IsClose }
    ensures early { trail.old.count ≡ 0 → 36 ≤ E.BITS → E.BITS ≤ 56 → IsValueDay day
        → IfErr result IsNoEarlyYear }
{
    let moment = phase_before_by(linear_model, E::from_int(phase), E::from_int(day), trail)?;
    floor_step(moment, Site::DayFloor, trail)
}
