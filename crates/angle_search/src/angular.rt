//! An angle that grows with time.
ghost use Rattle.std.specs.Prelude.{◌≡◌, ◌≤◌, ◌*◌, ◌^◌, ℕ, Ok, IfOk};
ghost use Rattle.book_model.specs.programs.Calls.{Follows1};
ghost use Rattle.book_model.specs.programs.Widths.{IsAbout, IsMoment, Measured1};
ghost use Rattle.book_model.specs.numbers.Expressions.{Expression};
ghost use Rattle.book_model.specs.programs.Programs.{Program};

use book_model::Fail;
use encl_core::{Enclosure, Trail};

/// An angle that grows with time, as the longitude of the sun or the phase of the moon does, by a linear model: what is known of it
/// over an interval of time.
///
/// A bisection asks the angle at many moments that lie close together, and of each no more than on which side of another angle
/// it is. By a linear model it is told at a moment of the interval for less than `at` takes, though only as narrowly as it stays
/// over the interval.
pub trait Angular<E: Enclosure>: Drop {
    /// The angle at a moment, as a formula.
    ghost angle_of: { Expression → Program Expression };

    /// How wide the angle is at the scale 2⁻⁵⁶, by the width of the moment. Both are in units of 2⁻⁶⁴.
    ghost spread: { ℕ → ℕ };

    // Any number of tests: a bound on them would be a condition on angles that nobody needs.
    /// The angle at a moment, in degrees. It makes the tests of its formula, and fails where that does. It lies within
    /// 2²⁶ degrees of 0, and its width is bounded by that of the moment.
    fn at(&self, x: E, trail: &mut Trail) -> Result<E, Fail>
        ensures leads { Follows1 E.shown angle_of x trail.old.count trail.new.count result }
        ensures measured { Measured1 E.BITS E.shown (3 * 2 ^ 37) IsMoment
            (λ v. IsAbout (2 ^ 58) (spread v)) x result };

    // What the calls say of an enclosure they say of every number that it holds: so a linear model needs
    // no law of its own, and no interval has to be the right one.
    /// The angle at a moment by the linear model, in degrees. Nothing is said of its width. Where it answers it has made the
    /// tests of its formula. A failure says nothing of the formula: it is void where the moment isn't one of the linear model.
    fn near(&self, x: E, trail: &mut Trail) -> Result<E, Fail>
        ensures leads { IfOk result (λ a. Follows1 E.shown angle_of x trail.old.count
            trail.new.count
            (Ok a)) };

    /// The angle by its linear model over an interval of time, or none where it isn't known there. The tests are no part of the run.
    /// It may take from this one what still serves over the interval.
    fn over(&self, interval_of_days: E, trail: &Trail) -> Option<Self>;

    /// About the time in days in which the angle grows by so many degrees. Nothing rests on it but the interval over which a
    /// linear model is taken.
    fn time_of(&self, degrees: E) -> E;
}
