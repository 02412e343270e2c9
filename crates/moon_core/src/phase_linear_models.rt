//! The phase of the moon over an interval of time, by the linear models of the moon and the sun.
ghost use Rattle.std.specs.Prelude.{◌≡◌, Ok, IfOk};
ghost use Rattle.book_model.specs.Interval.{◌⊆◌};
ghost use Rattle.book_model.specs.numbers.Ranges.{IsInTable};
ghost use Rattle.book_model.specs.programs.Calls.{Follows1};
ghost use Rattle.book_model.specs.sky.Phases.{elongation_of, phase_of};

use crate::linear_models::{MoonLinearModel, moon_on};
use crate::phases::within_turn;
use crate::picked_longitudes::{PickedLongitudes, corrected_by, longitudes_about, picked_by};
use book_model::Fail;
use book_model::time_tables::NOON_2000;
use encl_core::{Enclosure, Trail};
use sun_core::{SunLinearModel, days_over, sun_on};
use time_scales::dynamical;

/// The linear models of the moon and of the sun over an interval of days, the phases by longitudes that a bisection meets, if it is one
/// of its, and what is known of which phase is picked.
#[derive(Drop)]
pub struct PhaseLinearModel<E: Enclosure> {
    moon: MoonLinearModel<E>,
    sun: SunLinearModel<E>,
    longitudes: Option<E>,
    picked: Option<PickedLongitudes<E>>,
}

impl<E: Enclosure> PhaseLinearModel<E> {
    // A full moon is where the number of the new moon about it changes, so that this is known of no interval about that moment.
    /// Which phase is picked over an interval of moments: what is known of a longer one once more, or what is found out.
    fn picked_over(&self, moments: E, trail: &Trail) -> Option<PickedLongitudes<E>> {
        match &self.picked {
            Some(picked) if picked.covers(moments) => Some(picked.copied()),
            _ => picked_by(self.longitudes?, moments, trail),
        }
    }

    // The sun's terms but the greatest move hundreds of times more slowly than the moon's.
    /// The linear model of the sun over days, or once more the one that is known, where it serves.
    fn sun_over(&self, days: E) -> SunLinearModel<E>
        ensures there { E.shown days ⊆ E.shown result }
    {
        if self.sun.serves(days) {
            return self.sun.copied();
        }
        SunLinearModel::<E>::of(days)
    }

    /// The linear models over an interval of moments of universal time, or none where its days of dynamical time aren't known.
    pub(crate) fn over_moments(&self, moments: E, trail: &Trail) -> Option<Self> {
        let days = days_over(moments, trail)?;
        let sun = self.sun_over(days);
        Some(PhaseLinearModel {
            moon: MoonLinearModel::<E>::of(days, sun.nutation()),
            sun,
            longitudes: self.longitudes,
            picked: self.picked_over(moments, trail),
        })
    }

    /// The same linear models for a bisection over an interval of moments, which seeks a phase.
    pub(crate) fn seeking(&self, phase: E, moments: E, trail: &Trail) -> Self {
        let longitudes = longitudes_about(phase);
        PhaseLinearModel {
            moon: self.moon.copied(),
            sun: self.sun.copied(),
            longitudes: Some(longitudes),
            picked: picked_by(longitudes, moments, trail),
        }
    }

    /// The linear models over the usual days. A phase by them is many degrees wide, and still tells the number of the
    /// new moon before a moment, unless the moment is near one: that is rounded from what lies within a 50th of a whole number.
    pub fn usual() -> Self {
        PhaseLinearModel {
            moon: MoonLinearModel::<E>::usual(),
            sun: SunLinearModel::<E>::always(),
            longitudes: None,
            picked: None,
        }
    }

    /// The linear model of the sun.
    pub fn sun(&self) -> &SunLinearModel<E> {
        &self.sun
    }
}

// The definition tests the year of the moment twice, once for each longitude: the second time the test is counted alone.
/// The longitude of the moon less that of the sun, from 0 up to 360 degrees, by their linear models.
fn elongation_by<E: Enclosure>(
    linear_model: &PhaseLinearModel<E>,
    t: E,
    trail: &mut Trail,
) -> Result<E, Fail>
    ensures leads { IfOk result (λ e. Follows1 E.shown elongation_of t trail.old.count
        trail.new.count (Ok e)) }
    ensures in_table { IfOk result (λ e. IsInTable (E.shown t)) }
{
    let moment = dynamical(t, trail)?;
    let days = moment.sub(E::from_frac(NOON_2000));
    let there = moon_on(&linear_model.moon, days, trail)?;
    trail.step();
    let longitude = sun_on(&linear_model.sun, days, trail)?;
    within_turn(there.sub(longitude), trail)
}

/// The phase of the moon at a moment of universal time by a linear model, in degrees, as wide as it may be over its interval. Where
/// it answers it has made the tests of `phase`. A failure says nothing of `phase`: it is void where the moment isn't one of the
/// linear model.
pub(crate) fn phase_by<E: Enclosure>(
    linear_model: &PhaseLinearModel<E>,
    t: E,
    trail: &mut Trail,
) -> Result<E, Fail>
    ensures leads { IfOk result (λ p. Follows1 E.shown phase_of t trail.old.count trail.new.count
        (Ok p)) }
{
    let by_longitudes = elongation_by(linear_model, t, trail)?;
    corrected_by(&linear_model.picked, by_longitudes, t, trail)
}
