//! A linear model of the sun over an interval of days: the sum of all but the greatest of its periodic terms, taken once, as wide as
//! it may be on one of these days. The longitude at a moment of the interval takes its mean longitude and the greatest periodic terms
//! at the moment, and the sum of the others from the model.
//!
//! That it holds at each moment needs no law of its own: an enclosure that is computed of an interval holds the value at every moment
//! that the interval holds.
ghost use Rattle.std.specs.Prelude.{◌≡◌, Ok, IfOk, IsTrue};
ghost use Rattle.book_model.specs.Interval.{everything, ◌⊆◌};
ghost use Rattle.book_model.specs.numbers.Ranges.{IsInTable};
ghost use Rattle.book_model.specs.programs.Calls.{Follows1, Holds1};
ghost use Rattle.book_model.specs.sky.Sun.{longitude_of, nutation_of, sun_of};
ghost use Rattle.sun_core.specs.Daily.{in_centuries};
ghost use Rattle.sun_core.specs.Longitudes.{reduced_sun_of};
ghost use Rattle.sun_core.specs.Steps.{periodic_of};

use crate::longitude::{aberration, mean_longitude, nutation};
use crate::turns::{greatest_sun_terms, other_sun_terms};
use book_model::sun_tables::{SUN_UNIT_COARSELY, SUN_UNIT_FINELY};
use book_model::time_tables::{DAY_IN_CENTURIES, NOON_2000};
use book_model::{Fail, Site};
use encl_core::{Enclosure, Trail, lies_within, wrap_step};
use std::marker::Model;
use time_scales::dynamical;

// A major term takes 171,000 instructions so, and 210,000, 206,000 and 263,000 with the others.
/// How many periodic terms, the first of the table, are the greatest. Tried with two, four, eight and sixteen: with four a
/// bisection for a solar term evaluates the fewest periodic terms in all.
pub(crate) const GREATEST_SUN_TERMS: usize = 4;

/// The days of dynamical time, counted from noon of 1 January 2000, of an interval of universal time; none where the year of the
/// interval isn't decided, as where it leaves a year. The tests are no part of a run.
pub fn days_over<E: Enclosure>(interval_of_days: E, trail: &Trail) -> Option<E> {
    let mut own = trail.anew();
    match dynamical(interval_of_days, &mut own) {
        Ok(moment) => Some(moment.sub(E::from_frac(NOON_2000))),
        Err(_) => None,
    }
}

/// Of how many parts of an interval's length another one's is counted.
const PARTS_OF_LENGTH: i128 = 64;

/// Whether an interval is at most 64 times as long as another.
fn is_as_short<E: Enclosure>(interval: E, other: E) -> bool {
    match (interval.span(), other.span()) {
        (Some(long), Some(short)) => match (
            long.hi.checked_sub(long.lo),
            short.hi.checked_sub(short.lo),
        ) {
            (Some(length), Some(least)) => length / PARTS_OF_LENGTH <= least,
            _ => false,
        },
        _ => false,
    }
}

// Its type says of which days it holds, and it is taken of these alone (`covers`): no interval has
// to be the right one.
/// The linear model of the sun over an interval of days, counted from noon of 1 January 2000 in dynamical time. Contracts see the days.
#[derive(Drop)]
pub struct SunLinearModel<E: Enclosure> {
    days: E,
    other_terms: E,
    aberration: E,
    nutation: E,
}

impl<E: Enclosure> Model for SunLinearModel<E> {
    ghost use Rattle.sun_core.specs.LinearModels.{IsSunLinearModel};

    ghost Value = { E };

    ghost view = { λ s. s.days };

    ghost invariant = { λ s. IsSunLinearModel E.shown s.days s.other_terms s.aberration s.nutation };
}

impl<E: Enclosure> SunLinearModel<E> {
    /// The linear model over days counted from noon of 1 January 2000 in dynamical time.
    pub fn of(days: E) -> Self
        ensures days { result ≡ days }
    {
        SunLinearModel {
            days,
            other_terms: other_sun_terms(days),
            aberration: aberration(days),
            nutation: nutation(days.mul_frac(DAY_IN_CENTURIES)),
        }
    }

    // For tests that need few digits: whether a day is past an equinox, in which sign the sun
    // stands.
    /// The linear model over all days.
    pub fn always() -> Self
        ensures all { E.shown result ≡ everything }
    {
        SunLinearModel::<E>::of(E::whole())
    }

    // Not `Clone`, which would ask for memory: these are numbers.
    /// The same linear model once more.
    pub fn copied(&self) -> Self
        ensures days { result ≡ self.now }
    {
        SunLinearModel {
            days: self.days,
            other_terms: self.other_terms,
            aberration: self.aberration,
            nutation: self.nutation,
        }
    }

    /// The nutation in longitude over the days of the linear model, in degrees.
    pub fn nutation(&self) -> E
        ensures holds { Holds1 E.shown (λ x. nutation_of (in_centuries x)) self.now result }
    {
        self.nutation
    }

    /// Whether days lie within those of the linear model.
    fn covers(&self, days: E) -> bool
        ensures there { IsTrue result → E.shown days ⊆ E.shown self.now }
    {
        lies_within(days, self.days)
    }

    /// Whether the linear model serves over such days as well as one that is taken over them alone, for what moves as fast as the
    /// moon: it holds there, and is no more than 64 times as long.
    pub fn serves(&self, days: E) -> bool
        ensures there { IsTrue result → E.shown days ⊆ E.shown self.now }
    {
        self.covers(days) && is_as_short(self.days, days)
    }

    /// What the sun is ahead of its mean longitude by days of the linear model: the greatest periodic terms at these days, and the
    /// others from the linear model.
    fn periodic(&self, days: E) -> E
        requires there { E.shown days ⊆ E.shown self.now }
        ensures holds { Holds1 E.shown (λ x. periodic_of (in_centuries x)) days result }
    {
        greatest_sun_terms(days)
            .add(self.other_terms)
            .mul_frac(SUN_UNIT_COARSELY)
            .mul_frac(SUN_UNIT_FINELY)
    }

    /// The longitude of the sun by days of the linear model, not reduced.
    fn longitude(&self, days: E) -> E
        requires there { E.shown days ⊆ E.shown self.now }
        ensures holds { Holds1 E.shown (λ x. longitude_of (in_centuries x)) days result }
    {
        mean_longitude(days)
            .add(self.periodic(days))
            .add(self.aberration)
            .add(self.nutation)
    }
}

/// The apparent longitude of the sun by a linear model, in degrees from 0 up to 360, by the days of dynamical time counted from noon of
/// 1 January 2000: what is left of `sun` after the year's test. Where it answers it has made the other test. A failure says nothing
/// of `sun`: it is void at `sun-wrap` where the days aren't of the linear model.
pub fn sun_on<E: Enclosure>(
    linear_model: &SunLinearModel<E>,
    days: E,
    trail: &mut Trail,
) -> Result<E, Fail>
    ensures leads { IfOk result (λ s. Follows1 E.shown (λ x. reduced_sun_of (in_centuries x)) days
        trail.old.count trail.new.count (Ok s)) }
{
    if !linear_model.covers(days) {
        return Err(Fail::Void(Site::SunWrap));
    }
    wrap_step(linear_model.longitude(days), 360, Site::SunWrap, trail)
}

/// The apparent longitude of the sun at a moment of universal time by a linear model, in degrees from 0 up to 360, as wide as it
/// may be over the interval of the linear model. Where it answers it has made the tests of `sun`. A failure says nothing of `sun`:
/// it is void at `sun-wrap` where the moment isn't one of the linear model.
pub fn sun_by<E: Enclosure>(
    linear_model: &SunLinearModel<E>,
    t: E,
    trail: &mut Trail,
) -> Result<E, Fail>
    ensures leads { IfOk result (λ s. Follows1 E.shown sun_of t trail.old.count trail.new.count
        (Ok s)) }
    ensures in_table { IfOk result (λ s. IsInTable (E.shown t)) }
{
    let moment = dynamical(t, trail)?;
    sun_on(linear_model, moment.sub(E::from_frac(NOON_2000)), trail)
}
