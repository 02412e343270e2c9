//! The mean angles of which the moon's terms are made.
ghost use Rattle.book_model.specs.numbers.Bounds.{Reach, limits_of};
ghost use Rattle.book_model.specs.numbers.Expressions.{Expression, World};
ghost use Rattle.book_model.specs.numbers.Relations.{Within, Narrow};
ghost use Rattle.book_model.specs.numbers.Polynomials.{cubic_of};
ghost use Rattle.sun_core.specs.Daily.{in_centuries};
ghost use Rattle.moon_core.specs.Daily.{daily_cubic_of};

use book_model::Cubic;
use encl_core::Enclosure;
use sun_core::times_rate;

/// A cubic of the time, by the days from noon of 1 January 2000, and these in centuries: the linear part by the days.
#[inline(always)]
#[tactic(auto, using(time_scales::proofs::Powers::cubes), unfolding(book_model::specs::numbers::Polynomials::cubic_of, sun_core::specs::Daily::by_centuries, crate::specs::Daily::daily_cubic_of))]
pub(crate) fn daily_cubic<E: Enclosure>(angle: &Cubic, days: E, c: E) -> E
    ensures holds { (w : World) (x : Expression) → Within E.shown w x days
        → Within E.shown w (in_centuries x) c → Within E.shown w
        (cubic_of angle.now (in_centuries x)) result }
    ensures narrow { (r : Reach) (x : Expression) → Narrow E.shown (limits_of E.BITS) r x days
        → Narrow E.shown (limits_of E.BITS) r (in_centuries x) c
        → Narrow E.shown (limits_of E.BITS) r (daily_cubic_of angle.now x) result }
{
    let square = c.square();
    E::from_frac(angle.constant)
        .add(times_rate(days, angle.linear))
        .add(square.mul_frac(angle.square))
        .add(square.mul(c).mul_frac(angle.cube))
}
