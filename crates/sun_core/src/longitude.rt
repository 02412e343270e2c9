//! The apparent longitude of the sun.
ghost use Rattle.book_model.specs.programs.Calls.{Encloses1, Follows1, Holds1, Narrows1};
ghost use Rattle.book_model.specs.programs.Widths.{AreCenturies, IsAbout, IsMoment, IsUpTo, Measured1};
ghost use Rattle.book_model.specs.numbers.Ranges.{IsInTable};
ghost use Rattle.std.specs.Prelude.{◌≡◌, ◌≤◌, ◌^◌, ◌*◌, ◌+◌, ◌/◌, ℕ, IfOk, IfErr};
ghost use Rattle.book_model.specs.numbers.Expressions.{Expression, World};
ghost use Rattle.book_model.specs.numbers.Relations.{Within};
ghost use Rattle.book_model.specs.sky.Sun.{nutation_of, aberration_of, longitude_of, sun_of};
ghost use Rattle.encl_core.specs.declared.greatest_widths.TheConstants.{SUN};
ghost use Rattle.encl_core.specs.GreatestWidths.{greatest_of};
ghost use Rattle.time_scales.specs.Steps.{IsYearUndecidedFor};
ghost use Rattle.sun_core.specs.Daily.{in_centuries};
ghost use Rattle.sun_core.specs.Longitudes.{IsLongitudeOf};
ghost use Rattle.sun_core.specs.Steps.{mean_longitude_of, periodic_of, computed_aberration_of, computed_mean_longitude_of};

use crate::daily::times_rate;
use crate::single_terms::cosine_periodic_term;
use crate::turns::sun_terms;
use book_model::sun_tables::{
    ABERRATION, MEAN_ABERRATION, NODE_NUTATION, SOLAR_NUTATION, SUN_AT_2000, SUN_RATE,
    SUN_UNIT_COARSELY, SUN_UNIT_FINELY,
};
use book_model::time_tables::{DAY_IN_CENTURIES, NOON_2000};
use book_model::{Fail, Site};
use encl_core::{Enclosure, Trail, wrap_step};
use periodic_terms::sin_deg;
use time_scales::dynamical;

/// The nutation in longitude, in degrees, by the centuries (Reingold and Dershowitz, Calendrical Calculations, chapter 14).
#[tactic(auto, unfolding(book_model::specs::sky::Sun::nutation_of, book_model::specs::numbers::Polynomials::quadratic_term_of, book_model::specs::numbers::Polynomials::quadratic_of))]
pub fn nutation<E: Enclosure>(c: E) -> E
    ensures encloses { Encloses1 E.shown E.BITS nutation_of c result }
{
    // Written out, so that the denominators are known to the compiler: it ignores `#[inline]` on a function that would grow so large.
    let square = c.square();
    let node = E::from_frac(NODE_NUTATION.angle.constant)
        .add(c.mul_frac(NODE_NUTATION.angle.linear))
        .add(square.mul_frac(NODE_NUTATION.angle.square));
    let solar = E::from_frac(SOLAR_NUTATION.angle.constant)
        .add(c.mul_frac(SOLAR_NUTATION.angle.linear))
        .add(square.mul_frac(SOLAR_NUTATION.angle.square));
    sin_deg(node)
        .mul_frac(NODE_NUTATION.size)
        .add(sin_deg(solar).mul_frac(SOLAR_NUTATION.size))
}

/// The aberration, by the days from noon of 1 January 2000.
#[tactic(auto, unfolding(book_model::specs::sky::Sun::aberration_of, crate::specs::Steps::computed_aberration_of))]
pub(crate) fn aberration<E: Enclosure>(days: E) -> E
    ensures holds { Holds1 E.shown (λ x. aberration_of (in_centuries x)) days result }
    ensures narrow { Narrows1 E.shown E.BITS computed_aberration_of days result }
{
    cosine_periodic_term(&ABERRATION, days).sub(E::from_frac(MEAN_ABERRATION))
}

/// What the sun is ahead of its mean longitude: the sum of its periodic terms times their unit, which is applied in two steps.
fn periodic<E: Enclosure>(days: E) -> E
    ensures holds { Holds1 E.shown (λ x. periodic_of (in_centuries x)) days result }
    ensures measured { (v : ℕ) → E.BITS ≡ 56 → v ≤ 2 ^ 70 → IsAbout (2 ^ 52) v (E.shown days)
        → IsAbout (5 * 2 ^ 32) (v / 20 + 2 ^ 26) (E.shown result) }
{
    sun_terms(days)
        .mul_frac(SUN_UNIT_COARSELY)
        .mul_frac(SUN_UNIT_FINELY)
}

/// The mean longitude of the sun, not reduced.
#[tactic(auto, unfolding(crate::specs::Daily::by_centuries, crate::specs::Steps::mean_longitude_of, crate::specs::Steps::computed_mean_longitude_of))]
pub(crate) fn mean_longitude<E: Enclosure>(days: E) -> E
    ensures holds { Holds1 E.shown (λ x. mean_longitude_of (in_centuries x)) days result }
    ensures narrow { Narrows1 E.shown E.BITS computed_mean_longitude_of days result }
{
    E::from_frac(SUN_AT_2000).add(times_rate(days, SUN_RATE))
}

/// The longitude of the sun by the days from noon of 1 January 2000, and these in centuries; not reduced.
#[tactic(auto, unfolding(book_model::specs::sky::Sun::longitude_of, crate::specs::Steps::periodic_of, crate::specs::Steps::mean_longitude_of))]
fn longitude<E: Enclosure>(days: E, c: E) -> E
    ensures holds { (w : World) (x : Expression) → Within E.shown w x days
        → Within E.shown w (in_centuries x) c → Within E.shown w
        (longitude_of (in_centuries x)) result }
    ensures measured { (v : ℕ) → E.BITS ≡ 56 → v ≤ 2 ^ 70 → IsAbout (2 ^ 52) v (E.shown days)
        → AreCenturies (v / 36525 + 2 ^ 12) (E.shown c)
        → IsAbout (2 ^ 90) (2 * v + 2 ^ 31) (E.shown result) }
{
    mean_longitude(days)
        .add(periodic(days))
        .add(aberration(days))
        .add(nutation(c))
}

/// The apparent longitude of the sun at a moment of universal time, in degrees from 0 up to 360 (Reingold and
/// Dershowitz, Calendrical Calculations, chapter 14). Two tests, the year's and the one at `sun-wrap`. It is void at
/// `year` in a year without ΔT.
#[tactic(auto, using(book_model::proofs::Leads::leading, crate::proofs::UndecidedTests::opening), unfolding(book_model::specs::sky::Sun::sun_of, book_model::specs::sky::Time::centuries_of, book_model::specs::sky::Time::in_centuries, crate::specs::Daily::in_centuries))]
pub fn sun<E: Enclosure>(t: E, trail: &mut Trail) -> Result<E, Fail>
    ensures leads { Follows1 E.shown sun_of t trail.old.count trail.new.count result }
    ensures in_table { IfOk result (λ s. IsInTable (E.shown t)) }
    ensures measured { Measured1 E.BITS E.shown (2 ^ 42) IsMoment
        (λ v. IsUpTo 360 (greatest_of SUN v)) t
        result }
    ensures open { IfErr result (IsYearUndecidedFor (E.shown t)) }
    ensures again { IfOk result (λ s. (w : World) (x : Expression) → Within E.shown w x t
        → IsLongitudeOf E.shown w x s) }
{
    let moment = dynamical(t, trail)?;
    let days = moment.sub(E::from_frac(NOON_2000));
    let c = days.mul_frac(DAY_IN_CENTURIES);
    wrap_step(longitude(days, c), 360, Site::SunWrap, trail)
}
