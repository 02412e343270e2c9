//! Enclosures by endpoints of 128 bits in units of 2⁻⁵⁶.
ghost use Rattle.book_model.specs.programs.Calls.{Encloses, Encloses1, Encloses2};
ghost use Rattle.std.specs.Prelude.{refl, ◌≡◌, ◌<◌, ℤ, Some, IfOk, IfErr, IsSome};
ghost use Rattle.book_model.specs.Interval.{◌⊆◌, hull as hull_of_intervals};
ghost use Rattle.book_model.specs.numbers.Fractions.{fraction_of};
ghost use Rattle.book_model.specs.numbers.Expressions.{Expression, World, integer, constant, scale, widen as widen_of, add as add_of, subtract, multiply, negate, minimum, maximum, hull as hull_of, divide, power, root as root_of, clamp as clamp_of, remainder};
ghost use Rattle.book_model.specs.numbers.Bounds.{Reach, limits_of};
ghost use Rattle.book_model.specs.numbers.Relations.{Within, Narrow};
ghost use Rattle.book_model.specs.programs.Programs.{multiples, cell_at};
ghost use Rattle.book_model.specs.programs.Leading.{next_turn};
ghost use Rattle.encl_core.specs.Steps.{IsUndecidedPeriod};
ghost use Rattle.fix_fine.specs.Shown.{shown_fine, fine_proper};
ghost use Rattle.fix_fine.specs.Table.{IsIntegerRow, IsFractionRow, IsFactorRow, IsWidenedRow, IsSumRow, IsMovedRow, IsCutRow, IsChoiceRow, IsHullRow, IsProductRow, IsSquareRow, IsQuotientRow, IsRootRow};

use book_model::{Frac, Site, Undecided};
use encl_core::{Enclosure, Span, Trail};
use interval_endpoints::{
    Endpoints, add_endpoints, cell_of_endpoints, clamp_endpoints, endpoints_at_fine_scale,
    endpoints_of_fraction, endpoints_of_span, hull_endpoints, int_endpoints, max_endpoints,
    min_endpoints, neg_endpoints, order_of_endpoints, period_of_endpoints, rest_of_period,
    scale_endpoints, sub_endpoints, undecided_test_at, widen_endpoints,
};
use interval_products::{div_endpoints, mul_endpoints, root_endpoints, square_endpoints};

/// An enclosure by two endpoints of 128 bits in units of 2⁻⁵⁶, rounded outwards; every number, where a number doesn't fit.
#[derive(Clone, Copy, Debug, PartialEq)]
pub struct Fine {
    pub(crate) endpoints: Option<Endpoints<i128>>,
}

impl Enclosure for Fine {
    ghost shown = { shown_fine };

    ghost proper = { fine_proper };

    ghost BITS = { 56 };

    ghost DEPTH = { 40 };

    ghost depth_law = { refl };

    const BITS: u32 = 56;

    const DEPTH: u32 = 40;

    fn whole() -> Self {
        Fine { endpoints: None }
    }

    fn from_int(value: i64) -> Self
        ensures encloses { Encloses shown_fine 56 (integer value) result }
        ensures table { IsIntegerRow (shown_fine result) }
    {
        Fine {
            endpoints: int_endpoints(value),
        }
    }

    fn from_frac(value: Frac) -> Self
        ensures encloses { Encloses shown_fine 56 (constant (fraction_of value)) result }
        ensures table { IsFractionRow (fraction_of value) (shown_fine result) }
    {
        Fine {
            endpoints: endpoints_of_fraction(value),
        }
    }

    fn from_span(span: Span) -> Self {
        Fine {
            endpoints: endpoints_of_span(span.lo, span.hi),
        }
    }

    fn add(self, other: Self) -> Self
        ensures encloses { Encloses2 shown_fine 56 add_of self other result }
        ensures table { IsSumRow (shown_fine self) (shown_fine other) (shown_fine result) }
    {
        Fine {
            endpoints: add_endpoints(self.endpoints, other.endpoints),
        }
    }

    fn sub(self, other: Self) -> Self
        ensures encloses { Encloses2 shown_fine 56 subtract self other result }
        ensures table { IsSumRow (shown_fine self) (shown_fine other) (shown_fine result) }
    {
        Fine {
            endpoints: sub_endpoints(self.endpoints, other.endpoints),
        }
    }

    fn mul(self, other: Self) -> Self
        ensures encloses { Encloses2 shown_fine 56 multiply self other result }
        ensures table { IsProductRow (shown_fine self) (shown_fine other) (shown_fine result) }
    {
        Fine {
            endpoints: mul_endpoints(self.endpoints, other.endpoints),
        }
    }

    fn min(self, other: Self) -> Self
        ensures encloses { Encloses2 shown_fine 56 minimum self other result }
        ensures table { IsChoiceRow (shown_fine self) (shown_fine other) (shown_fine result) }
    {
        Fine {
            endpoints: min_endpoints(self.endpoints, other.endpoints),
        }
    }

    fn max(self, other: Self) -> Self
        ensures encloses { Encloses2 shown_fine 56 maximum self other result }
        ensures table { IsChoiceRow (shown_fine self) (shown_fine other) (shown_fine result) }
    {
        Fine {
            endpoints: max_endpoints(self.endpoints, other.endpoints),
        }
    }

    fn hull(self, other: Self) -> Self
        ensures encloses { Encloses2 shown_fine 56 hull_of self other result }
        ensures tight { shown_fine result ⊆ hull_of_intervals (shown_fine self) (shown_fine other) }
        ensures table { IsHullRow (shown_fine self) (shown_fine other) (shown_fine result) }
    {
        Fine {
            endpoints: hull_endpoints(self.endpoints, other.endpoints),
        }
    }

    fn neg(self) -> Self
        ensures encloses { Encloses1 shown_fine 56 negate self result }
        ensures table { IsMovedRow (shown_fine self) (shown_fine result) }
    {
        Fine {
            endpoints: neg_endpoints(self.endpoints),
        }
    }

    fn widen(self, by: Frac) -> Self
        ensures encloses { Encloses1 shown_fine 56 (widen_of (fraction_of by)) self result }
        ensures table { IsWidenedRow (fraction_of by) (shown_fine self) (shown_fine result) }
    {
        Fine {
            endpoints: widen_endpoints(self.endpoints, by),
        }
    }

    fn mul_frac(self, by: Frac) -> Self
        ensures encloses { Encloses1 shown_fine 56 (scale (fraction_of by)) self result }
        ensures table { IsFactorRow (fraction_of by) (shown_fine self) (shown_fine result) }
    {
        Fine {
            endpoints: scale_endpoints(self.endpoints, by),
        }
    }

    fn div(self, other: Self) -> Self
        ensures encloses { Encloses2 shown_fine 56 divide self other result }
        ensures table { IsQuotientRow (shown_fine self) (shown_fine other) (shown_fine result) }
    {
        Fine {
            endpoints: div_endpoints(self.endpoints, other.endpoints),
        }
    }

    fn square(self) -> Self
        ensures encloses { Encloses1 shown_fine 56 (λ x. power x 2) self result }
        ensures table { IsSquareRow (shown_fine self) (shown_fine result) }
    {
        Fine {
            endpoints: square_endpoints(self.endpoints),
        }
    }

    fn root(self) -> Self
        ensures encloses { Encloses1 shown_fine 56 root_of self result }
        ensures table { IsRootRow (shown_fine self) (shown_fine result) }
    {
        Fine {
            endpoints: root_endpoints(self.endpoints),
        }
    }

    fn clamp_unit(self) -> Self
        ensures encloses { Encloses1 shown_fine 56 clamp_of self result }
        ensures table { IsCutRow (shown_fine self) (shown_fine result) }
    {
        Fine {
            endpoints: Some(clamp_endpoints(self.endpoints)),
        }
    }

    fn span(self) -> Option<Span> {
        let (lo, hi) = endpoints_at_fine_scale(self.endpoints)?;
        Some(Span { lo, hi })
    }

    fn less(self, other: Self, site: Site, trail: &mut Trail) -> Result<bool, Undecided> {
        let turn = trail.step();
        match order_of_endpoints(self.endpoints, other.endpoints) {
            Some(answer) => Ok(answer),
            None => Err(undecided_test_at(
                hull_endpoints(self.endpoints, other.endpoints),
                site,
                turn,
            )),
        }
    }

    fn floor(self, site: Site, trail: &mut Trail) -> Result<i64, Undecided> {
        let turn = trail.step();
        match cell_of_endpoints(self.endpoints) {
            Some(cell) => match i64::try_from(cell) {
                Ok(cell) => Ok(cell),
                // A floor outside 64 bits has no place in a line: its test is undecided, and its bounds are those of an
                // unbounded test.
                Err(_) => Err(undecided_test_at::<i128>(None, site, turn)),
            },
            None => Err(undecided_test_at(self.endpoints, site, turn)),
        }
    }

    fn wrap(self, modulus: u32, site: Site, trail: &mut Trail) -> Result<Self, Undecided>
        requires { 0 < modulus }
        ensures decided { IfOk result (λ y. IsSome (cell_at (multiples modulus) (shown_fine self))) }
        ensures holds { IfOk result (λ y. (q : ℤ) (w : World) (x : Expression)
            → cell_at (multiples modulus) (shown_fine self) ≡ Some q → Within shown_fine w x self
            → Within shown_fine w (remainder modulus x q) y) }
        ensures narrow { IfOk result (λ y. (q : ℤ) (r : Reach) (x : Expression)
            → Narrow shown_fine (limits_of 56) r x self → Narrow shown_fine (limits_of 56) r
            (remainder modulus x q) y) }
        ensures undecided { IfErr result (λ u. IsUndecidedPeriod modulus (shown_fine self) u.lo u.hi) }
        ensures named { IfErr result (λ u. (u.site ≡ site) × (u.turn ≡ next_turn trail.old.count)) }
        ensures counted { trail.new.count ≡ next_turn trail.old.count }
        ensures table { IfOk result (λ y. IsMovedRow (shown_fine self) (shown_fine y)) }
    {
        let turn = trail.step();
        match period_of_endpoints(self.endpoints, modulus) {
            Some(period) => Ok(Fine {
                endpoints: rest_of_period(self.endpoints, modulus, period),
            }),
            None => Err(undecided_test_at(self.endpoints, site, turn)),
        }
    }
}
