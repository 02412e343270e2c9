//! Which of two phases is picked over an interval of moments: the one by the longitudes, but about a new moon. Where a bisection has
//! learned so of its bounds, an iteration counts the tests by which the phase is picked and makes none.
ghost use Rattle.std.specs.Prelude.{◌≡◌, ◌≤◌, ◌^◌, ℕ, IfOk, IfErr, IsTrue, IsFalse};
ghost use Rattle.book_model.specs.numbers.Expressions.{Expression, World};
ghost use Rattle.book_model.specs.numbers.Ranges.{IsInTable};
ghost use Rattle.book_model.specs.numbers.Relations.{Within};
ghost use Rattle.book_model.specs.programs.Calls.{Follows2};
ghost use Rattle.book_model.specs.programs.Leading.{Leads};
ghost use Rattle.book_model.specs.sky.Phases.{corrected_of};
ghost use Rattle.moon_core.specs.PickedLongitudes.{IsPicked};

use crate::again::count_again;
use crate::phases::{corrected, is_apart, phase_by_months, rough_number};
use book_model::Fail;
use encl_core::{Enclosure, Trail, lies_within};
use std::marker::Model;
use time_scales::dynamical;

/// How many degrees before and after a phase the longitudes lie of which it is asked whether they are picked: what a bisection asks the
/// phase at lies nearer than that.
const DEGREES_ABOUT: i64 = 60;

/// A turn.
const TURN_DEGREES: i64 = 360;

/// An interval of moments, and one of phases by longitudes, over which these are picked, and by how many tests.
#[derive(Drop)]
pub(crate) struct PickedLongitudes<E: Enclosure> {
    moments: E,
    longitudes: E,
    tests: u32,
}

impl<E: Enclosure> Model for PickedLongitudes<E> {
    ghost use Rattle.moon_core.specs.PickedLongitudes.{ArePicked};

    ghost Value = { E };

    ghost view = { λ s. s.moments };

    ghost invariant = { λ s. ArePicked E.shown s.moments s.longitudes s.tests };
}

impl<E: Enclosure> PickedLongitudes<E> {
    /// The same once more.
    pub(crate) fn copied(&self) -> Self {
        PickedLongitudes {
            moments: self.moments,
            longitudes: self.longitudes,
            tests: self.tests,
        }
    }

    /// Whether something is known of all these moments.
    pub(crate) fn covers(&self, moments: E) -> bool {
        lies_within(moments, self.moments)
    }

    /// Whether a phase by longitudes is picked at a moment, as far as is known. Where it is its tests count.
    fn picks(&self, by_longitudes: E, t: E, trail: &mut Trail) -> bool
        ensures leads { IsTrue result → (w : World) (x p : Expression) → Within E.shown w x t
            → Within E.shown w p by_longitudes
            → IsPicked E.shown w x p trail.old.count trail.new.count by_longitudes }
        ensures back { IsFalse result → trail.new.count ≡ trail.old.count }
    {
        if !lies_within(t, self.moments) {
            return false;
        }
        if !lies_within(by_longitudes, self.longitudes) {
            return false;
        }
        count_again(self.tests, trail);
        true
    }
}

/// Whether the phase by the time is picked in place of one by longitudes, by the tests of `corrected`.
fn time_is_picked<E: Enclosure>(by_longitudes: E, t: E, trail: &mut Trail) -> Result<bool, Fail>
    requires in_table { IsInTable (E.shown t) }
    ensures longitudes { IfOk result (λ so. IsFalse so → (w : World) (x p : Expression)
        → Within E.shown w x t → Within E.shown w p by_longitudes → (e : E)
        → Within E.shown w p e
        → IsPicked E.shown w x p trail.old.count trail.new.count e) }
{
    let number = rough_number(t, trail)?;
    let by_time = phase_by_months(number, t, trail)?;
    is_apart(by_longitudes, by_time, trail)
}

/// That longitudes are picked over an interval of moments of the years of which ΔT is known, where one run of the tests tells so.
fn picked_over<E: Enclosure>(
    longitudes: E,
    moments: E,
    trail: &Trail,
) -> Option<PickedLongitudes<E>>
    requires in_table { IsInTable (E.shown moments) }
{
    let mut own = trail.anew();
    match time_is_picked(longitudes, moments, &mut own) {
        Ok(false) => {
            let tests = own.count();
            if tests < u32::MAX {
                return Some(PickedLongitudes {
                    moments,
                    longitudes,
                    tests,
                });
            }
            None
        }
        _ => None,
    }
}

/// The same of longitudes, if these are picked over the moments. About a new moon, where longitudes go from 360 degrees to 0, it isn't
/// tried. The tests are no part of a run.
pub(crate) fn picked_by<E: Enclosure>(
    longitudes: E,
    moments: E,
    trail: &Trail,
) -> Option<PickedLongitudes<E>> {
    let turn = E::from_int(0).hull(E::from_int(TURN_DEGREES));
    if !lies_within(longitudes, turn) {
        return None;
    }
    let mut own = trail.anew();
    match dynamical(moments, &mut own) {
        Ok(_) => picked_over(longitudes, moments, trail),
        Err(_) => None,
    }
}

/// The longitudes about a phase of which it is asked whether they are picked.
pub(crate) fn longitudes_about<E: Enclosure>(phase: E) -> E {
    let about = E::from_int(DEGREES_ABOUT);
    phase.sub(about).hull(phase.add(about))
}

/// The phase by longitudes, or in its place the one by the time: by what is known of which is picked, and else by the tests of
/// `corrected`.
pub(crate) fn corrected_by<E: Enclosure>(
    picked: &Option<PickedLongitudes<E>>,
    by_longitudes: E,
    t: E,
    trail: &mut Trail,
) -> Result<E, Fail>
    requires in_table { IsInTable (E.shown t) }
    ensures leads { Follows2 E.shown corrected_of t by_longitudes trail.old.count trail.new.count
        result }
{
    if let Some(known) = picked {
        if known.picks(by_longitudes, t, trail) {
            return Ok(by_longitudes);
        }
    }
    corrected(by_longitudes, t, trail)
}
