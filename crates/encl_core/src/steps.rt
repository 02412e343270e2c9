//! The tests of enclosures as steps of formulas: each leads to a program of one test.
ghost use Rattle.book_model.specs.programs.Calls.{Decides1, Decides2, Follows1};
ghost use Rattle.book_model.specs.programs.Widths.{IsAbout, IsUpTo, IsClose, Measured1, most_apart};
ghost use Rattle.std.specs.Prelude.{◌≡◌, ◌<◌, ◌≤◌, ◌+◌, ◌^◌, ℕ, ℤ, IfOk, IfErr, IsSome, Some};
ghost use Rattle.book_model.specs.numbers.Bounds.{Reach, limits_of};
ghost use Rattle.book_model.specs.numbers.Expressions.{Expression, remainder};
ghost use Rattle.book_model.specs.programs.Leading.{next_turn};
ghost use Rattle.book_model.specs.programs.Programs.{answer, cell, compare, integers, multiples, cell_at, compare_at};
ghost use Rattle.book_model.specs.numbers.Relations.{Narrow};
ghost use Rattle.encl_core.specs.Steps.{IsUndecidedFloor, IsUndecidedLess, IsUndecidedWrap};

use crate::{Enclosure, Trail};
use book_model::{Fail, Site};

/// The greatest whole number that is not above an enclosed number, as a test at a site. It fails exactly where the
/// enclosure leaves the test undecided, and is never void.
pub fn floor_step<E: Enclosure>(x: E, site: Site, trail: &mut Trail) -> Result<i64, Fail>
    ensures leads { Decides1 E.shown (λ e. cell site integers e answer) x trail.old.count
        trail.new.count result }
    ensures decided { IfOk result (λ q. cell_at integers (E.shown x) ≡ Some q) }
    ensures open { IfErr result (IsUndecidedFloor (E.shown x) site) }
    ensures close { (v : ℕ) → v ≤ most_apart site → IsAbout (2 ^ 90) v (E.shown x)
        → IfErr result IsClose }
    ensures counted { trail.new.count ≡ next_turn trail.old.count }
{
    match x.floor(site, trail) {
        Ok(whole) => Ok(whole),
        Err(at) => Err(Fail::Undecided(at)),
    }
}

/// Whether an enclosed number is below another, as a test at a site. It fails exactly where the enclosures leave the
/// test undecided, and is never void.
pub fn less_step<E: Enclosure>(x: E, y: E, site: Site, trail: &mut Trail) -> Result<bool, Fail>
    ensures leads { Decides2 E.shown (λ e f. compare site e f answer) x y trail.old.count
        trail.new.count result }
    ensures decided { IfOk result (λ t. compare_at (E.shown x) (E.shown y) ≡ Some t) }
    ensures open { IfErr result (IsUndecidedLess (E.shown x) (E.shown y) site) }
    ensures close { (v u : ℕ) → v + u ≤ most_apart site → IsAbout (2 ^ 90) v (E.shown x)
        → IsAbout (2 ^ 90) u (E.shown y) → IfErr result IsClose }
    ensures counted { trail.new.count ≡ next_turn trail.old.count }
{
    match x.less(y, site, trail) {
        Ok(is_less) => Ok(is_less),
        Err(at) => Err(Fail::Undecided(at)),
    }
}

/// What an enclosed number is above the greatest multiple of the modulus that is not above it, as a test at a site. It
/// fails exactly where the enclosure leaves the test undecided, and is never void.
pub fn wrap_step<E: Enclosure>(x: E, modulus: u32, site: Site, trail: &mut Trail) -> Result<E, Fail>
    requires { 0 < modulus }
    ensures leads { Follows1 E.shown (λ e. cell site (multiples modulus) e
        (λ q. answer (remainder modulus e q))) x trail.old.count trail.new.count result }
    ensures narrow { IfOk result (λ y. (q : ℤ) (r : Reach) (e : Expression)
        → Narrow E.shown (limits_of E.BITS) r e x → Narrow E.shown (limits_of E.BITS) r
        (remainder modulus e q) y) }
    ensures decided { IfOk result (λ y. IsSome (cell_at (multiples modulus) (E.shown x))) }
    ensures open { IfErr result (IsUndecidedWrap modulus (E.shown x) site) }
    ensures measured { Measured1 E.BITS E.shown (most_apart site) (IsAbout (2 ^ 90))
        (IsUpTo modulus)
        x result }
    ensures counted { trail.new.count ≡ next_turn trail.old.count }
{
    match x.wrap(modulus, site, trail) {
        Ok(rest) => Ok(rest),
        Err(at) => Err(Fail::Undecided(at)),
    }
}
