//! The moment of a new moon.
ghost use Rattle.book_model.specs.programs.Calls.{Encloses, Encloses1, Follows, Holds};
ghost use Rattle.book_model.specs.programs.Widths.{IsAbout, IsMoment, IsSmall, Measured, IsDated, IsFrom, IsSince};
ghost use Rattle.std.specs.Prelude.{◌≡◌, ◌≤◌, ◌+◌, ◌^◌, ℤ, pos, negsuc, ◌≤ℤ◌, ◌+ℤ◌};
ghost use Rattle.book_model.specs.declared.new_moon_tables.TheConstants.{FIRST_RECENT_MOON as first_recent, LAST_RECENT_MOON as last_recent, NEW_MOON_TERMS as NEW_MOON_ROWS};
ghost use Rattle.book_model.specs.numbers.Depth.{DEPTH};
ghost use Rattle.book_model.specs.numbers.Expressions.{World};
ghost use Rattle.book_model.specs.numbers.Polynomials.{quadratic_of};
ghost use Rattle.book_model.specs.numbers.Relations.{Within};
ghost use Rattle.book_model.specs.numbers.Terms.{terms_of};
ghost use Rattle.book_model.specs.numbers.Fractions.{fraction_of};
ghost use Rattle.book_model.specs.programs.Leading.{next_turn};
ghost use Rattle.book_model.specs.sky.NewMoons as spec;
ghost use Rattle.encl_core.specs.declared.greatest_widths.TheConstants.{NEW_MOON};
ghost use Rattle.encl_core.specs.GreatestWidths.{greatest_of};
ghost use Rattle.new_moons.specs.Angles.{HoldAngles};
ghost use Rattle.new_moons.specs.Months.{HoldPowers};
ghost use Rattle.new_moons.specs.Widths.{AreNearAngles, ArePowers, IsNearMonth, IsNearTime, IsRecentMean, IsRecentMonth};
ghost use Rattle.book_model.specs.declared.time_tables.TheConstants.{RECENT_START, TABLE_END};

use crate::angles::Angles;
use crate::months::{Powers, angles_by_months, mean_by_months, node_by_months, powers_at};
use crate::planets::planet_terms;
use book_model::new_moon_tables::{NEW_MOON_OF_2000, NEW_MOON_TERM, NODE_TERM};
use book_model::time_tables::NOON_2000;
use book_model::{Fail, Frac};
use encl_core::{Asked, Enclosure, Trail};
use periodic_terms::{MeanAngles, new_moon_terms, sin_deg};
use time_scales::from_dynamical;

// An exact fraction: of the polynomials at it only their own steps round.
/// So many months in units of 1236.85 months, which are centuries.
#[inline(always)]
fn centuries_of_months(months: i64) -> Frac
    requires low { negsuc 40049999 ≤ℤ months }
    requires high { months ≤ℤ pos 40050000 }
    ensures value { fraction_of result ≡ spec.centuries_of_months months }
{
    Frac::new(100 * i128::from(months), 123_685).unwrap()
}

/// The mean new moon, in dynamical time.
#[inline(always)]
fn mean_new_moon<E: Enclosure>(number: i64, powers: Powers<E>) -> E
    ensures holds { (w : World) → DEPTH ≤ w.depth
        → HoldPowers E.shown w (spec.centuries_of_months number) powers
        → Within E.shown w (spec.mean_new_moon_of (spec.centuries_of_months number)) result }
    ensures measured { E.BITS ≡ 56 → IsNearMonth number → ArePowers E.shown powers
        → IsAbout (2 ^ 54) (2 ^ 16) (E.shown result) }
    ensures recent { E.BITS ≡ 56 → IsRecentMonth number → ArePowers E.shown powers
        → IsRecentMean (2 ^ 16) (E.shown result) }
{
    E::from_frac(NOON_2000).add(mean_by_months(number, powers))
}

/// What the longitude of the moon's node adds, in days.
#[inline(always)]
fn node_term<E: Enclosure>(number: i64, powers: Powers<E>) -> E
    ensures holds { (w : World) → DEPTH ≤ w.depth
        → HoldPowers E.shown w (spec.centuries_of_months number) powers
        → Within E.shown w (spec.node_term_of (spec.centuries_of_months number)) result }
    ensures measured { E.BITS ≡ 56 → IsNearMonth number → ArePowers E.shown powers
        → IsAbout (2 ^ 32) (2 ^ 12) (E.shown result) }
{
    sin_deg(node_by_months(number, powers)).mul_frac(NODE_TERM)
}

/// The sum of the terms of the three angles, in days.
fn sum_of_angles<E: Enclosure>(angles: Angles<E>) -> E
    ensures holds { (w : World) (a : spec.NewMoonAngles) → DEPTH ≤ w.depth
        → HoldAngles E.shown w a angles → Within E.shown w
        (terms_of (spec.new_moon_term_of a) spec.no_new_moon_term NEW_MOON_ROWS) result }
    ensures measured { E.BITS ≡ 56 → AreNearAngles E.shown angles
        → IsAbout (2 ^ 33) (2 ^ 28) (E.shown result) }
{
    new_moon_terms(MeanAngles {
        elongation: E::from_int(0),
        sun_anomaly: angles.sun_anomaly,
        moon_anomaly: angles.moon_anomaly,
        latitude_argument: angles.latitude_argument,
        eccentricity: angles.eccentricity,
    })
}

/// The same by months.
fn lunar_terms<E: Enclosure>(number: i64, powers: Powers<E>) -> E
    ensures holds { (w : World) → DEPTH ≤ w.depth
        → HoldPowers E.shown w (spec.centuries_of_months number) powers
        → Within E.shown w (spec.new_moon_terms_of (spec.centuries_of_months number)) result }
    ensures measured { E.BITS ≡ 56 → IsNearMonth number → ArePowers E.shown powers
        → IsAbout (2 ^ 33) (2 ^ 28) (E.shown result) }
{
    sum_of_angles(angles_by_months(number, powers))
}

/// The angle of what Venus adds, in degrees, by the centuries.
#[tactic(auto, unfolding(book_model::specs::numbers::Polynomials::quadratic_of))]
fn venus_angle<E: Enclosure>(c: E) -> E
    ensures encloses { Encloses1 E.shown E.BITS (quadratic_of NEW_MOON_TERM.angle) c result }
{
    E::from_frac(NEW_MOON_TERM.angle.constant)
        .add(c.mul_frac(NEW_MOON_TERM.angle.linear))
        .add(c.square().mul_frac(NEW_MOON_TERM.angle.square))
}

/// What Venus adds, in days.
#[inline(always)]
#[tactic(auto, unfolding(book_model::specs::numbers::Polynomials::quadratic_term_of, book_model::specs::sky::NewMoons::venus_term_of))]
fn venus_term<E: Enclosure>(time: Frac) -> E
    ensures encloses { Encloses E.shown E.BITS (spec.venus_term_of (fraction_of time)) result }
    ensures measured { E.BITS ≡ 56 → IsNearTime (fraction_of time)
        → IsAbout (2 ^ 32) (2 ^ 12) (E.shown result) }
{
    sin_deg(venus_angle(E::from_frac(time))).mul_frac(NEW_MOON_TERM.size)
}

/// The new moon of a number, counted from that of January 2000, in dynamical time: each polynomial by what a month adds and by powers of
/// the centuries.
fn dynamical_new_moon<E: Enclosure>(number: i64) -> E
    requires low { negsuc 40049999 ≤ℤ number }
    requires high { number ≤ℤ pos 40050000 }
    ensures holds { Holds E.shown (spec.dynamical_new_moon_of number) result }
    ensures measured { E.BITS ≡ 56 → IsNearMonth number → IsMoment (2 ^ 29 + 2 ^ 24) (E.shown result) }
    ensures recent { E.BITS ≡ 56 → IsRecentMonth number
        → IsSince (RECENT_START +ℤ pos 1) (2 ^ 29 + 2 ^ 24) (E.shown result) }
{
    let time = centuries_of_months(number);
    let powers = powers_at::<E>(time);
    mean_new_moon(number, powers)
        .add(node_term(number, powers))
        .add(lunar_terms(number, powers))
        .add(venus_term::<E>(time))
        .add(planet_terms::<E>(number))
}

/// The moment of the new moon of a number, counted from that of January of the year 1, in universal time: one test.
#[tactic(auto, using(book_model::proofs::Leads::leading), unfolding(book_model::specs::sky::NewMoons::new_moon_of))]
fn evaluated_moon<E: Enclosure>(n: i64, trail: &mut Trail) -> Result<E, Fail>
    requires number { IsSmall n }
    ensures leads { Follows E.shown (spec.new_moon_of n) trail.old.count trail.new.count result }
    ensures measured { negsuc 6299 ≤ℤ n → n ≤ℤ pos 55724
        → Measured E.BITS E.shown (IsDated 1 (2 ^ 29 + 2 ^ 24 + 2 ^ 17)) result }
    ensures recent { first_recent ≤ℤ n → n ≤ℤ last_recent
        → Measured E.BITS E.shown
        (IsFrom RECENT_START (TABLE_END +ℤ pos 1) (2 ^ 29 + 2 ^ 24 + 2 ^ 17)) result }
    ensures counted { trail.new.count ≡ next_turn trail.old.count }
{
    from_dynamical(dynamical_new_moon::<E>(n - NEW_MOON_OF_2000), trail)
}

/// The same, which the trail caches from then on.
fn kept_moon<E: Enclosure>(n: i64, trail: &mut Trail) -> Result<E, Fail>
    requires number { IsSmall n }
    ensures leads { Follows E.shown (spec.new_moon_of n) trail.old.count trail.new.count result }
    ensures measured { negsuc 6299 ≤ℤ n → n ≤ℤ pos 55724
        → Measured E.BITS E.shown (IsDated 1 (2 ^ 29 + 2 ^ 24 + 2 ^ 17)) result }
    ensures recent { first_recent ≤ℤ n → n ≤ℤ last_recent
        → Measured E.BITS E.shown
        (IsFrom RECENT_START (TABLE_END +ℤ pos 1) (2 ^ 29 + 2 ^ 24 + 2 ^ 17)) result }
    ensures counted { trail.new.count ≡ next_turn trail.old.count }
{
    let moment = evaluated_moon::<E>(n, trail)?;
    trail.keep(Asked::NewMoon(n), E::BITS, moment.span());
    Ok(moment)
}

/// The moment of the new moon of a number, counted from that of January of the year 1, in universal time (Reingold and
/// Dershowitz, Calendrical Calculations, chapter 14; Meeus, Astronomical Algorithms, chapter 49). One test, at `year`; it
/// is void at `year` in a year without ΔT. Where the trail caches the moment, it is taken, and its test counted.
pub fn new_moon<E: Enclosure>(n: i64, trail: &mut Trail) -> Result<E, Fail>
    requires number { IsSmall n }
    ensures leads { Follows E.shown (spec.new_moon_of n) trail.old.count trail.new.count result }
    ensures measured { negsuc 6299 ≤ℤ n → n ≤ℤ pos 55724
        → Measured E.BITS E.shown (IsDated 1 (greatest_of NEW_MOON 0)) result }
    ensures recent { first_recent ≤ℤ n → n ≤ℤ last_recent
        → Measured E.BITS E.shown
        (IsFrom RECENT_START (TABLE_END +ℤ pos 1) (greatest_of NEW_MOON 0)) result }
    ensures counted { trail.new.count ≡ next_turn trail.old.count }
{
    match trail.kept(Asked::NewMoon(n), E::BITS) {
        Some(moment) => {
            // What is cached makes one test that is decided, and it counts at the turn at which it is
            // taken.
            trail.step();
            Ok(E::from_span(moment))
        }
        None => kept_moon::<E>(n, trail),
    }
}

/// A trail that has made no test and keeps the new moon of number 0, with which a walk begins.
pub fn trail_with_first_moon<E: Enclosure>() -> Trail
    ensures empty { result.count ≡ 0 }
{
    let mut trail = Trail::new();
    // What it gives is what the trail keeps: the run begins anew, and takes it with its test.
    let _moment = new_moon::<E>(0, &mut trail);
    trail.anew()
}
