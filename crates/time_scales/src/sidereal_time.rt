//! Sidereal time.
ghost use Rattle.book_model.specs.programs.Calls.{Encloses1, Follows1};
ghost use Rattle.book_model.specs.programs.Widths.{IsAbout, Measured1, IsDated};
ghost use Rattle.std.specs.Prelude.{◌≡◌, ◌^◌, IfOk};
ghost use Rattle.book_model.specs.numbers.Bounds.{Reach, limits_of};
ghost use Rattle.book_model.specs.numbers.Expressions.{Expression};
ghost use Rattle.book_model.specs.numbers.Polynomials.{cubic_of};
ghost use Rattle.book_model.specs.numbers.Relations.{Narrow};
ghost use Rattle.book_model.specs.sky.Time.{in_centuries, sidereal_of};
ghost use Rattle.encl_core.specs.declared.greatest_widths.TheConstants.{SIDEREAL};
ghost use Rattle.encl_core.specs.GreatestWidths.{greatest_of};

use crate::dynamical_time::to_centuries;
use book_model::Fail;
use book_model::time_tables::SIDEREAL_TIME;
use encl_core::{Enclosure, Trail};

/// Mean sidereal time at Greenwich by the centuries of universal time from noon of 1 January 2000, in degrees, not reduced. Written out,
/// as each polynomial that a fact asks often: so its denominators are known to the compiler.
#[tactic(auto, using(crate::proofs::Powers::cubes), unfolding(book_model::specs::numbers::Polynomials::cubic_of))]
fn sidereal_at<E: Enclosure>(c: E) -> E
    ensures encloses { Encloses1 E.shown E.BITS (cubic_of SIDEREAL_TIME) c result }
{
    let square = c.square();
    E::from_frac(SIDEREAL_TIME.constant)
        .add(c.mul_frac(SIDEREAL_TIME.linear))
        .add(square.mul_frac(SIDEREAL_TIME.square))
        .add(square.mul(c).mul_frac(SIDEREAL_TIME.cube))
}

/// Mean sidereal time at Greenwich at a moment of universal time, in degrees, not reduced (Reingold and Dershowitz,
/// Calendrical Calculations, chapter 14). It makes no test and never fails.
#[tactic(auto, using(book_model::proofs::Leads::leading, crate::proofs::Measured::measuring), unfolding(book_model::specs::sky::Time::sidereal_of))]
pub fn sidereal<E: Enclosure>(t: E, trail: &mut Trail) -> Result<E, Fail>
    ensures leads { Follows1 E.shown sidereal_of t trail.old.count trail.new.count result }
    ensures narrow { IfOk result (λ y. (r : Reach) (x : Expression)
        → Narrow E.shown (limits_of E.BITS) r x t → Narrow E.shown (limits_of E.BITS) r
        (cubic_of SIDEREAL_TIME (in_centuries x)) y) }
    ensures measured { Measured1 E.BITS E.shown (2 ^ 44) (IsDated 0)
        (λ v. IsAbout (2 ^ 61) (greatest_of SIDEREAL v))
        t result }
{
    Ok(sidereal_at(to_centuries(t)))
}
