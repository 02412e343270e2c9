//! The higher terms of a quartic of the time, which are those in its square, its cube and its fourth power. Over an interval of some
//! days they hardly move, so a linear model takes their sum once, and a moment of the interval only the constant and the linear term.
ghost use Rattle.book_model.specs.numbers.Bounds.{Reach, limits_of};
ghost use Rattle.book_model.specs.numbers.Expressions.{Expression, World, add, multiply, power, scale};
ghost use Rattle.book_model.specs.numbers.Fractions.{fraction_of};
ghost use Rattle.book_model.specs.numbers.Polynomials.{quartic_of};
ghost use Rattle.book_model.specs.numbers.Relations.{Within, Narrow};
ghost use Rattle.book_model.specs.sky.Moon.{lunar_angles_of};
ghost use Rattle.moon_core.specs.Angles.{KeepAngles};
ghost use Rattle.periodic_terms.specs.MeanAngles.{HoldAngles};
ghost use Rattle.moon_core.specs.Daily.{daily_angles_of, daily_quartic_of, higher_by};
ghost use Rattle.moon_core.specs.HigherTerms.{HoldHigherTerms, KeepHigherTerms, higher_sum_of};
ghost use Rattle.sun_core.specs.Daily.{in_centuries};

use crate::angles::daily_cubic;
use book_model::Quartic;
use book_model::moon_tables::{
    ELONGATION, LATITUDE_ARGUMENT, MOON_ANOMALY, MOON_LONGITUDE, SUN_ANOMALY,
};
use encl_core::Enclosure;
use new_moons::eccentricity_factor;
use periodic_terms::MeanAngles;
use sun_core::times_rate;

/// The sums of the higher terms of the moon's mean longitude, its mean elongation from the sun, its mean anomaly and the argument of its
/// latitude, in degrees.
#[derive(Clone, Copy, Drop)]
pub(crate) struct HigherTerms<E> {
    pub(crate) longitude: E,
    pub(crate) elongation: E,
    pub(crate) moon_anomaly: E,
    pub(crate) latitude_argument: E,
}

// Without the term in the square: with three products by fractions it would be so large that the compiler drops the hint without a word,
// and then no denominator there is known.
/// The sum of a quartic's terms in the cube and the fourth power, by the centuries from noon of 1 January 2000 and the cube of these.
#[inline(always)]
#[tactic(auto, using(time_scales::proofs::Powers::fourths))]
fn highest_sum<E: Enclosure>(angle: &Quartic, c: E, cube: E) -> E
    ensures holds { (w : World) (x : Expression) → Within E.shown w x c
        → Within E.shown w (power x 3) cube
        → Within E.shown w (add (scale (fraction_of angle.now.cube) (power x 3))
        (scale (fraction_of angle.now.fourth) (power x 4))) result }
    ensures narrow { (r : Reach) (x : Expression) → Narrow E.shown (limits_of E.BITS) r x c
        → Narrow E.shown (limits_of E.BITS) r (power x 3) cube
        → Narrow E.shown (limits_of E.BITS) r (add (scale (fraction_of angle.now.cube) (power x 3))
        (multiply (scale (fraction_of angle.now.fourth) (power x 3)) x)) result }
{
    cube.mul_frac(angle.cube)
        .add(cube.mul_frac(angle.fourth).mul(c))
}

/// The sums of the four, by the centuries from noon of 1 January 2000.
#[tactic(auto, using(time_scales::proofs::Powers::cubes), unfolding(crate::specs::HigherTerms::higher_sum_of))]
pub(crate) fn higher_terms<E: Enclosure>(c: E) -> HigherTerms<E>
    ensures holds { (w : World) (x : Expression) → Within E.shown w x c
        → HoldHigherTerms E.shown w x result }
    ensures narrow { (r : Reach) (x : Expression) → Narrow E.shown (limits_of E.BITS) r x c
        → KeepHigherTerms E.shown (limits_of E.BITS) r x result }
{
    let square = c.square();
    let cube = square.mul(c);
    HigherTerms {
        longitude: square
            .mul_frac(MOON_LONGITUDE.square)
            .add(highest_sum(&MOON_LONGITUDE, c, cube)),
        elongation: square
            .mul_frac(ELONGATION.square)
            .add(highest_sum(&ELONGATION, c, cube)),
        moon_anomaly: square
            .mul_frac(MOON_ANOMALY.square)
            .add(highest_sum(&MOON_ANOMALY, c, cube)),
        latitude_argument: square
            .mul_frac(LATITUDE_ARGUMENT.square)
            .add(highest_sum(&LATITUDE_ARGUMENT, c, cube)),
    }
}

/// A quartic of the time by the days from noon of 1 January 2000, and the sum of its higher terms there.
#[inline(always)]
#[tactic(auto, using(crate::proofs::HigherTerms::with_higher), unfolding(sun_core::specs::Daily::by_centuries, crate::specs::Daily::daily_quartic_of))]
pub(crate) fn quartic_by<E: Enclosure>(angle: &Quartic, days: E, higher: E) -> E
    ensures holds { (w : World) (x : Expression) → Within E.shown w x days
        → Within E.shown w (higher_sum_of angle.now (in_centuries x)) higher → Within E.shown w
        (quartic_of angle.now (in_centuries x)) result }
    ensures narrow { (r : Reach) (x : Expression) → Narrow E.shown (limits_of E.BITS) r x days
        → Narrow E.shown (limits_of E.BITS) r (higher_by angle.now (in_centuries x)) higher
        → Narrow E.shown (limits_of E.BITS) r (daily_quartic_of angle.now x) result }
{
    E::from_frac(angle.constant)
        .add(times_rate(days, angle.linear))
        .add(higher)
}

/// The angles by the days from noon of 1 January 2000, these in centuries, and the sums of the quartics' higher terms there.
#[tactic(auto, unfolding(book_model::specs::sky::Moon::lunar_angles_of, crate::specs::Daily::daily_angles_of))]
pub(crate) fn angles_by<E: Enclosure>(days: E, c: E, higher: HigherTerms<E>) -> MeanAngles<E>
    ensures holds { (w : World) (x : Expression) → Within E.shown w x days
        → Within E.shown w (in_centuries x) c → HoldHigherTerms E.shown w (in_centuries x) higher
        → HoldAngles E.shown w (lunar_angles_of (in_centuries x)) result }
    ensures narrow { (r : Reach) (x : Expression) → Narrow E.shown (limits_of E.BITS) r x days
        → Narrow E.shown (limits_of E.BITS) r (in_centuries x) c
        → KeepHigherTerms E.shown (limits_of E.BITS) r (in_centuries x) higher
        → KeepAngles E.shown (limits_of E.BITS) r (daily_angles_of x) result }
{
    MeanAngles {
        elongation: quartic_by(&ELONGATION, days, higher.elongation),
        sun_anomaly: daily_cubic(&SUN_ANOMALY, days, c),
        moon_anomaly: quartic_by(&MOON_ANOMALY, days, higher.moon_anomaly),
        latitude_argument: quartic_by(&LATITUDE_ARGUMENT, days, higher.latitude_argument),
        eccentricity: eccentricity_factor(c),
    }
}
