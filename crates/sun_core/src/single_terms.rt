//! Periodic terms: sizes times sines or cosines of angles that grow with time.

ghost use Rattle.book_model.specs.programs.Calls.{Holds1, Narrows1};
ghost use Rattle.book_model.specs.numbers.Expressions.{scale, cosine};
ghost use Rattle.book_model.specs.numbers.Fractions.{ten_millionths};
ghost use Rattle.book_model.specs.numbers.Polynomials.{angle_of_term, periodic_term_of};
ghost use Rattle.sun_core.specs.Daily.{in_centuries, daily_angle_of, daily_term_of};

use book_model::{Frac, PeriodicTerm};
use encl_core::Enclosure;
use periodic_terms::{cos_deg, sin_deg};

/// The angle of a periodic term by the days from noon of 1 January 2000.
#[inline(always)]
pub fn term_angle<E: Enclosure>(periodic_term: &PeriodicTerm, days: E) -> E
    ensures holds { Holds1 E.shown (λ x. angle_of_term periodic_term.now (in_centuries x)) days result }
    ensures narrow { Narrows1 E.shown E.BITS (daily_angle_of periodic_term.now) days result }
{
    days.angle(periodic_term.phase, periodic_term.rate)
}

/// The size of a periodic term times the sine of its angle, by the days.
#[tactic(auto, unfolding(book_model::specs::numbers::Polynomials::periodic_term_of, crate::specs::Daily::daily_term_of))]
pub fn sine_periodic_term<E: Enclosure>(periodic_term: &PeriodicTerm, days: E) -> E
    ensures holds { Holds1 E.shown (λ x. periodic_term_of (in_centuries x) periodic_term.now) days result }
    ensures narrow { Narrows1 E.shown E.BITS (λ x. daily_term_of x periodic_term.now) days result }
{
    sin_deg(term_angle(periodic_term, days)).times(periodic_term.size)
}

/// The size of a periodic term, in ten-millionths, times the cosine of its angle, by the days.
#[inline(always)]
pub(crate) fn cosine_periodic_term<E: Enclosure>(periodic_term: &PeriodicTerm, days: E) -> E
    ensures holds { Holds1 E.shown (λ x. scale (ten_millionths periodic_term.now.size)
        (cosine (angle_of_term periodic_term.now (in_centuries x)))) days result }
    ensures narrow { Narrows1 E.shown E.BITS (λ x. scale (ten_millionths periodic_term.now.size)
        (cosine (daily_angle_of periodic_term.now x))) days result }
{
    cos_deg(term_angle(periodic_term, days)).mul_frac(Frac::ten_millionths(periodic_term.size))
}
