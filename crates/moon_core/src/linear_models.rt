//! A linear model of the moon over an interval of days: the sum of all but the greatest of its terms, taken once, as wide as it may
//! be on one of these days. The longitude at a moment of the interval takes its mean longitude and the greatest terms at the moment,
//! and the sum of the others from the model.
ghost use Rattle.std.specs.Prelude.{◌≡◌, ◌≤◌, Ok, IfOk, IsTrue};
ghost use Rattle.book_model.specs.Interval.{◌⊆◌};
ghost use Rattle.book_model.specs.numbers.Depth.{DEPTH};
ghost use Rattle.book_model.specs.numbers.Expressions.{Expression, World};
ghost use Rattle.book_model.specs.numbers.Relations.{Within};
ghost use Rattle.book_model.specs.programs.Calls.{Follows1, Holds1};
ghost use Rattle.book_model.specs.sky.Sun.{nutation_of};
ghost use Rattle.book_model.specs.sky.Moon.{lunar_angles_of, longitude_terms_of, inequalities_of, moon_longitude_of};
ghost use Rattle.periodic_terms.specs.MeanAngles.{HoldAngles};
ghost use Rattle.moon_core.specs.Elements.{reduced_longitude_of};
ghost use Rattle.moon_core.specs.HigherTerms.{HoldHigherTerms};
ghost use Rattle.moon_core.specs.LinearModels.{greatest_terms_of, other_terms_of};
ghost use Rattle.sun_core.specs.Daily.{in_centuries};

use crate::higher_terms::{HigherTerms, angles_by, higher_terms, quartic_by};
use crate::longitude::flattening;
use book_model::moon_tables::{
    ELONGATION, JUPITER_TERM, MILLIONTH, MOON_ANOMALY, MOON_LONGITUDE, VENUS_TERM,
};
use book_model::time_tables::DAY_IN_CENTURIES;
use book_model::{FIRST_DAY, Fail, LAST_DAY, Site};
use encl_core::{Enclosure, Trail, lies_within, wrap_step};
use periodic_terms::{MeanAngles, greatest_terms, other_terms};
use std::marker::Model;
use sun_core::{nutation, sine_periodic_term};

/// 1 January 2000 (R.D.), from whose noon days are counted.
const DAY_OF_2000: i64 = 730_120;

// Not all days, as for the sun: an angle that may be any, times 0, may be any.
/// The usual days, counted so: every day of which a fact may have a value, and more than a year before and after.
const FIRST_USUAL_DAY: i64 = FIRST_DAY - DAY_OF_2000 - 400;

const LAST_USUAL_DAY: i64 = LAST_DAY - DAY_OF_2000 + 400;

/// The sum of the greatest terms by the angles, in millionths of a degree.
fn greatest_by<E: Enclosure>(angles: MeanAngles<E>) -> E
    ensures holds { (w : World) (x : Expression) → DEPTH ≤ w.depth
        → HoldAngles E.shown w (lunar_angles_of (in_centuries x)) angles
        → Within E.shown w (greatest_terms_of x) result }
{
    greatest_terms(angles)
}

/// The sum of the others. Over an interval of more than a third of a day it may be any sum of these.
fn others_by<E: Enclosure>(angles: MeanAngles<E>) -> E
    ensures holds { (w : World) (x : Expression) → DEPTH ≤ w.depth
        → HoldAngles E.shown w (lunar_angles_of (in_centuries x)) angles
        → Within E.shown w (other_terms_of x) result }
{
    other_terms(angles)
}

/// The linear model of the moon over an interval of days, counted from noon of 1 January 2000 in dynamical time. Contracts see the
/// days.
#[derive(Drop)]
pub(crate) struct MoonLinearModel<E: Enclosure> {
    days: E,
    higher: HigherTerms<E>,
    angles: MeanAngles<E>,
    terms: E,
    venus: E,
    jupiter: E,
    flattening: E,
    nutation: E,
}

impl<E: Enclosure> Model for MoonLinearModel<E> {
    ghost use Rattle.moon_core.specs.LinearModels.{IsMoonLinearModel};

    ghost Value = { E };

    ghost view = { λ s. s.days };

    ghost invariant = { λ s. IsMoonLinearModel E.shown s.days s.higher s.angles s.terms s.venus s.jupiter
        s.flattening s.nutation };
}

impl<E: Enclosure> MoonLinearModel<E> {
    /// The linear model over days, by the higher terms, the angles and the nutation that hold there.
    fn by(days: E, higher: HigherTerms<E>, angles: MeanAngles<E>, nutation: E) -> Self
        requires higher { (w : World) (x : Expression) → Within E.shown w x days
            → HoldHigherTerms E.shown w (in_centuries x) higher }
        requires angles { (w : World) (x : Expression) → Within E.shown w x days
            → HoldAngles E.shown w (lunar_angles_of (in_centuries x)) angles }
        requires nutation { Holds1 E.shown (λ x. nutation_of (in_centuries x)) days nutation }
        ensures days { result ≡ days }
    {
        MoonLinearModel {
            days,
            higher,
            angles,
            terms: others_by(angles),
            venus: sine_periodic_term(&VENUS_TERM, days),
            jupiter: sine_periodic_term(&JUPITER_TERM, days),
            flattening: flattening(
                quartic_by(&MOON_LONGITUDE, days, higher.longitude),
                angles.latitude_argument,
            ),
            nutation,
        }
    }

    // Not `Clone`, which would ask for memory: these are numbers.
    /// The same linear model once more.
    pub(crate) fn copied(&self) -> Self
        ensures days { result ≡ self.now }
    {
        MoonLinearModel {
            days: self.days,
            higher: self.higher,
            angles: self.angles,
            terms: self.terms,
            venus: self.venus,
            jupiter: self.jupiter,
            flattening: self.flattening,
            nutation: self.nutation,
        }
    }

    /// The linear model over days, by the nutation there.
    pub(crate) fn of(days: E, nutation: E) -> Self
        requires nutation { Holds1 E.shown (λ x. nutation_of (in_centuries x)) days nutation }
        ensures days { result ≡ days }
    {
        let c = days.mul_frac(DAY_IN_CENTURIES);
        let higher = higher_terms(c);
        MoonLinearModel::<E>::by(days, higher, angles_by(days, c, higher), nutation)
    }

    /// The linear model over the usual days, over which its terms reach their whole size.
    pub(crate) fn usual() -> Self {
        let days = E::from_int(FIRST_USUAL_DAY).hull(E::from_int(LAST_USUAL_DAY));
        MoonLinearModel::<E>::of(days, nutation(days.mul_frac(DAY_IN_CENTURIES)))
    }

    /// Whether days lie within those of the linear model.
    fn covers(&self, days: E) -> bool
        ensures there { IsTrue result → E.shown days ⊆ E.shown self.now }
    {
        lies_within(days, self.days)
    }

    /// The angles by days of the linear model: those by which the greatest terms turn at these days, the others from the linear model.
    fn angles_on(&self, days: E) -> MeanAngles<E>
        requires there { E.shown days ⊆ E.shown self.now }
        ensures holds { (w : World) (x : Expression) → Within E.shown w x days
            → HoldAngles E.shown w (lunar_angles_of (in_centuries x)) result }
    {
        MeanAngles {
            elongation: quartic_by(&ELONGATION, days, self.higher.elongation),
            sun_anomaly: self.angles.sun_anomaly,
            moon_anomaly: quartic_by(&MOON_ANOMALY, days, self.higher.moon_anomaly),
            latitude_argument: self.angles.latitude_argument,
            eccentricity: self.angles.eccentricity,
        }
    }

    /// The sum of the longitude's terms by days of the linear model, in millionths of a degree.
    fn terms_on(&self, days: E) -> E
        requires there { E.shown days ⊆ E.shown self.now }
        ensures holds { Holds1 E.shown (λ x. longitude_terms_of (in_centuries x)) days result }
    {
        greatest_by(self.angles_on(days)).add(self.terms)
    }

    /// What the moon is ahead of its mean longitude by days of the linear model, in millionths of a degree.
    fn inequalities_on(&self, days: E) -> E
        requires there { E.shown days ⊆ E.shown self.now }
        ensures holds { Holds1 E.shown (λ x. inequalities_of (in_centuries x)) days result }
    {
        self.terms_on(days)
            .add(self.venus)
            .add(self.jupiter)
            .add(self.flattening)
    }

    /// The longitude of the moon by days of the linear model, not reduced.
    fn longitude_on(&self, days: E) -> E
        requires there { E.shown days ⊆ E.shown self.now }
        ensures holds { Holds1 E.shown (λ x. moon_longitude_of (in_centuries x)) days result }
    {
        quartic_by(&MOON_LONGITUDE, days, self.higher.longitude)
            .add(self.inequalities_on(days).mul_frac(MILLIONTH))
            .add(self.nutation)
    }
}

/// The apparent longitude of the moon by a linear model, in degrees from 0 up to 360, by the days of dynamical time counted from noon of
/// 1 January 2000: what is left of `moon` after the year's test, as wide as it may be over the interval of the linear model. Where it
/// answers it has made the other test. A failure says nothing of `moon`: it is void at `moon-wrap` where the days aren't of the linear
/// model.
pub(crate) fn moon_on<E: Enclosure>(
    linear_model: &MoonLinearModel<E>,
    days: E,
    trail: &mut Trail,
) -> Result<E, Fail>
    ensures leads { IfOk result (λ m. Follows1 E.shown (λ x. reduced_longitude_of (in_centuries x)) days
        trail.old.count trail.new.count (Ok m)) }
{
    if !linear_model.covers(days) {
        return Err(Fail::Void(Site::MoonWrap));
    }
    wrap_step(linear_model.longitude_on(days), 360, Site::MoonWrap, trail)
}
