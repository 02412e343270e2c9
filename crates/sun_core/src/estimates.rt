//! About when the sun was last at a longitude.
ghost use Rattle.book_model.specs.programs.Calls.{Encloses2, Follows1, Follows2};
ghost use Rattle.book_model.specs.programs.Widths.{IsAbout, IsMoment, IsUpTo, Measured1, Measured2};
ghost use Rattle.book_model.specs.numbers.Ranges.{IsInTable};
ghost use Rattle.std.specs.Prelude.{◌≡◌, ◌≤◌, ◌+◌, ◌*◌, ◌^◌, IfOk, IfErr};
ghost use Rattle.book_model.specs.Interval.{Interval};
ghost use Rattle.book_model.specs.programs.Leading.{next_turn};
ghost use Rattle.book_model.specs.sky.Sun.{reduced_of, past_of, off_of, back_by, estimate_of};
ghost use Rattle.encl_core.specs.declared.greatest_widths.TheConstants.{SUN};
ghost use Rattle.encl_core.specs.GreatestWidths.{greatest_of};
ghost use Rattle.time_scales.specs.Steps.{IsEarlyYearFor};

use crate::longitude::sun;
use angle_search::HALF_TURN;
use book_model::sun_tables::DEGREE_OF_YEAR;
use book_model::{Fail, Site};
use encl_core::{Enclosure, Trail, wrap_step};

/// An angle, reduced to 0 up to 360 degrees: one test, at `step-wrap`.
#[tactic(auto, using(book_model::proofs::Leads::leading, crate::proofs::UndecidedTests::opening), unfolding(book_model::specs::sky::Sun::reduced_of))]
pub(crate) fn reduced<E: Enclosure>(angle: E, trail: &mut Trail) -> Result<E, Fail>
    ensures leads { Follows1 E.shown reduced_of angle trail.old.count trail.new.count result }
    ensures measured { Measured1 E.BITS E.shown (2 ^ 44) (IsAbout (2 ^ 90)) (IsUpTo 360) angle
        result }
    ensures elsewhere { (i : Interval) → IfErr result (IsEarlyYearFor i) }
{
    wrap_step(angle, 360, Site::StepWrap, trail)
}

/// How far the sun is past a longitude, from 0 up to 360 degrees.
#[tactic(auto, using(book_model::proofs::Leads::leading), unfolding(book_model::specs::sky::Sun::past_of))]
fn degrees_past<E: Enclosure>(longitude: E, t: E, trail: &mut Trail) -> Result<E, Fail>
    ensures leads { Follows2 E.shown past_of longitude t trail.old.count trail.new.count result }
    ensures in_table { IfOk result (λ p. IsInTable (E.shown t)) }
    ensures measured { Measured2 E.BITS E.shown (2 ^ 42) (λ v. IsMoment 0) IsMoment
        (λ v. IsUpTo 360 (greatest_of SUN v)) longitude t result }
{
    let there = sun(t, trail)?;
    reduced(there.sub(longitude), trail)
}

/// How far the sun is past a longitude, from -180 up to 180 degrees.
#[tactic(auto, using(book_model::proofs::Leads::leading), unfolding(book_model::specs::sky::Sun::off_of))]
fn degrees_off<E: Enclosure>(longitude: E, t: E, trail: &mut Trail) -> Result<E, Fail>
    ensures leads { Follows2 E.shown off_of longitude t trail.old.count trail.new.count result }
    ensures measured { Measured2 E.BITS E.shown (2 ^ 42) (λ v. IsMoment 0) IsMoment
        (λ v. IsAbout (180 * 2 ^ 32) (greatest_of SUN v)) longitude t result }
{
    let there = sun(t, trail)?;
    let half_turn = E::from_int(HALF_TURN);
    let angle = reduced(there.sub(longitude).add(half_turn), trail)?;
    Ok(angle.sub(half_turn))
}

/// A moment less the time in which the mean sun moves on by an angle.
#[tactic(auto, unfolding(book_model::specs::sky::Sun::back_by))]
fn moved_back<E: Enclosure>(angle: E, t: E) -> E
    ensures encloses { Encloses2 E.shown E.BITS back_by angle t result }
{
    t.sub(angle.mul_frac(DEGREE_OF_YEAR))
}

// Its width is said for a longitude that is known exactly, as every caller has it.
/// About when the sun was last at a longitude, in degrees, at or before a moment of universal time (Reingold and
/// Dershowitz, Calendrical Calculations, chapter 14): from the moment it goes back by the mean sun's time from that
/// longitude, and from there once more by what the sun is still off. Six tests: the sun's two at the moment, one at
/// `step-wrap`, the sun's two at the moment found first, and one at `step-wrap`. It is void at `year` in a year
/// without ΔT.
#[tactic(auto, using(book_model::proofs::Leads::leading), unfolding(book_model::specs::sky::Sun::estimate_of))]
pub fn estimate<E: Enclosure>(l: E, t: E, trail: &mut Trail) -> Result<E, Fail>
    ensures leads { Follows2 E.shown estimate_of l t trail.old.count trail.new.count result }
    ensures measured { Measured2 E.BITS E.shown (2 ^ 40) (λ v. IsMoment 0) IsMoment
        (λ v. IsMoment (10 * v + 2 ^ 35)) l t result }
{
    let near = moved_back(degrees_past(l, t, trail)?, t);
    let rest = degrees_off(l, near, trail)?;
    Ok(t.min(moved_back(rest, near)))
}
