//! The obliquity of the ecliptic.
ghost use Rattle.book_model.specs.programs.Calls.{Encloses1, Follows1};
ghost use Rattle.book_model.specs.programs.Widths.{Measured1, AreCenturies};
ghost use Rattle.std.specs.Prelude.{◌≡◌, ◌^◌, IfOk};
ghost use Rattle.book_model.specs.numbers.Bounds.{Reach, limits_of};
ghost use Rattle.book_model.specs.numbers.Expressions.{Expression};
ghost use Rattle.book_model.specs.numbers.Polynomials.{cubic_of};
ghost use Rattle.book_model.specs.numbers.Relations.{Narrow};
ghost use Rattle.book_model.specs.sky.Sun.{obliquity_of};
ghost use Rattle.sun_core.specs.Widths.{IsObliquity};

use book_model::Fail;
use book_model::sun_tables::OBLIQUITY;
use encl_core::{Enclosure, Trail};

/// The obliquity of the ecliptic, in degrees, by the cubic.
#[tactic(auto, using(time_scales::proofs::Powers::cubes), unfolding(book_model::specs::numbers::Polynomials::cubic_of))]
fn obliquity_at<E: Enclosure>(c: E) -> E
    ensures encloses { Encloses1 E.shown E.BITS (cubic_of OBLIQUITY) c result }
{
    let square = c.square();
    E::from_frac(OBLIQUITY.constant)
        .add(c.mul_frac(OBLIQUITY.linear))
        .add(square.mul_frac(OBLIQUITY.square))
        .add(square.mul(c).mul_frac(OBLIQUITY.cube))
}

// A trail and a result, as every formula of a moment has.
/// The obliquity of the ecliptic by the centuries from noon of 1 January 2000, in degrees (Reingold and Dershowitz,
/// Calendrical Calculations, chapter 14). It makes no test and never fails.
#[tactic(auto, using(book_model::proofs::Leads::leading, crate::proofs::Measured::obliquity_within), unfolding(book_model::specs::sky::Sun::obliquity_of))]
pub fn obliquity<E: Enclosure>(c: E, trail: &mut Trail) -> Result<E, Fail>
    ensures leads { Follows1 E.shown obliquity_of c trail.old.count trail.new.count result }
    ensures narrow { IfOk result (λ y. (r : Reach) (x : Expression)
        → Narrow E.shown (limits_of E.BITS) r x c → Narrow E.shown (limits_of E.BITS) r
        (cubic_of OBLIQUITY x) y) }
    ensures measured { Measured1 E.BITS E.shown (2 ^ 42) AreCenturies IsObliquity c result }
{
    Ok(obliquity_at(c))
}
