//! A third kind of enclosures, at a rough scale: the trait's laws hold of it as of the others, so that no formula that is
//! proved over the trait leans on one scale.
ghost use Rattle.std.specs.Prelude.{refl};
ghost use Rattle.book_model.specs.Interval.{◌⊆◌};
ghost use Rattle.interval_endpoints.specs.Shown.{shown_endpoints, endpoints_proper};

use book_model::{Frac, Site, Undecided};
use encl_core::{Enclosure, Span, Trail};
use int_division::{ceil_div, floor_div};
use interval_endpoints::{
    Endpoints, add_endpoints, cell_of_endpoints, clamp_endpoints, endpoints_at_fine_scale,
    endpoints_of, endpoints_of_fraction, endpoints_of_span, hull_endpoints, int_endpoints,
    max_endpoints, min_endpoints, neg_endpoints, order_of_endpoints, period_of_endpoints,
    rest_of_period, scale_endpoints, sub_endpoints, undecided_test_at, widen_endpoints,
};
use interval_products::{div_endpoints, mul_endpoints, root_endpoints, square_endpoints};

/// How many units of 2⁻³⁶ one of 2⁻⁸ has.
const GRAIN: i128 = 268_435_456;

/// The endpoints, each moved outwards to a multiple of 2⁻⁸.
fn roughened(endpoints: Option<Endpoints<i64>>) -> Option<Endpoints<i64>>
    ensures { shown_endpoints endpoints ⊆ shown_endpoints result }
{
    let e = endpoints?;
    let lo = floor_div(i128::from(e.lo), GRAIN) * GRAIN;
    let hi = ceil_div(i128::from(e.hi), GRAIN) * GRAIN;
    endpoints_of(lo, hi)
}

/// An enclosure by two endpoints that are multiples of 2⁻⁸, rounded outwards; every number, where an endpoint doesn't fit.
#[derive(Clone, Copy, Debug, PartialEq)]
pub struct Rough {
    endpoints: Option<Endpoints<i64>>,
}

impl Enclosure for Rough {
    ghost shown = { λ x. shown_endpoints x.endpoints };

    ghost proper = { λ x. endpoints_proper x.endpoints };

    ghost BITS = { 8 };

    ghost DEPTH = { 40 };

    ghost depth_law = { refl };

    const BITS: u32 = 8;

    const DEPTH: u32 = 40;

    fn whole() -> Self {
        Rough { endpoints: None }
    }

    fn from_int(value: i64) -> Self {
        Rough {
            endpoints: int_endpoints(value),
        }
    }

    fn from_frac(value: Frac) -> Self {
        Rough {
            endpoints: roughened(endpoints_of_fraction(value)),
        }
    }

    fn from_span(span: Span) -> Self {
        Rough {
            endpoints: roughened(endpoints_of_span(span.lo, span.hi)),
        }
    }

    fn add(self, other: Self) -> Self {
        Rough {
            endpoints: add_endpoints(self.endpoints, other.endpoints),
        }
    }

    fn sub(self, other: Self) -> Self {
        Rough {
            endpoints: sub_endpoints(self.endpoints, other.endpoints),
        }
    }

    fn mul(self, other: Self) -> Self {
        Rough {
            endpoints: roughened(mul_endpoints(self.endpoints, other.endpoints)),
        }
    }

    fn min(self, other: Self) -> Self {
        Rough {
            endpoints: min_endpoints(self.endpoints, other.endpoints),
        }
    }

    fn max(self, other: Self) -> Self {
        Rough {
            endpoints: max_endpoints(self.endpoints, other.endpoints),
        }
    }

    fn hull(self, other: Self) -> Self {
        Rough {
            endpoints: hull_endpoints(self.endpoints, other.endpoints),
        }
    }

    fn neg(self) -> Self {
        Rough {
            endpoints: neg_endpoints(self.endpoints),
        }
    }

    fn widen(self, by: Frac) -> Self {
        Rough {
            endpoints: roughened(widen_endpoints(self.endpoints, by)),
        }
    }

    fn mul_frac(self, by: Frac) -> Self {
        Rough {
            endpoints: roughened(scale_endpoints(self.endpoints, by)),
        }
    }

    fn div(self, other: Self) -> Self {
        Rough {
            endpoints: roughened(div_endpoints(self.endpoints, other.endpoints)),
        }
    }

    fn square(self) -> Self {
        Rough {
            endpoints: roughened(square_endpoints(self.endpoints)),
        }
    }

    fn root(self) -> Self {
        Rough {
            endpoints: roughened(root_endpoints(self.endpoints)),
        }
    }

    fn clamp_unit(self) -> Self {
        Rough {
            endpoints: Some(clamp_endpoints(self.endpoints)),
        }
    }

    fn span(self) -> Option<Span> {
        let (lo, hi) = endpoints_at_fine_scale(self.endpoints)?;
        Some(Span { lo, hi })
    }

    fn less(self, other: Self, site: Site, trail: &mut Trail) -> Result<bool, Undecided> {
        let turn = trail.step();
        match order_of_endpoints(self.endpoints, other.endpoints) {
            Some(answer) => Ok(answer),
            None => Err(undecided_test_at(
                hull_endpoints(self.endpoints, other.endpoints),
                site,
                turn,
            )),
        }
    }

    fn floor(self, site: Site, trail: &mut Trail) -> Result<i64, Undecided> {
        let turn = trail.step();
        match cell_of_endpoints(self.endpoints) {
            Some(cell) => Ok(cell),
            None => Err(undecided_test_at(self.endpoints, site, turn)),
        }
    }

    fn wrap(self, modulus: u32, site: Site, trail: &mut Trail) -> Result<Self, Undecided> {
        let turn = trail.step();
        match period_of_endpoints(self.endpoints, modulus) {
            Some(period) => Ok(Rough {
                endpoints: rest_of_period(self.endpoints, modulus, period),
            }),
            None => Err(undecided_test_at(self.endpoints, site, turn)),
        }
    }
}
