//! Enclosures by endpoints of 64 bits in units of 2⁻³⁶.
ghost use Rattle.std.specs.Prelude.{refl};
ghost use Rattle.encl_core.specs.Shown.{shown_coarse, coarse_proper};

use crate::fractions::frac_endpoints;
use crate::turning::angle_endpoints;
use crate::{Enclosure, Span, Trail};
use book_model::{Frac, Site, Undecided};
use interval_endpoints::{
    Endpoints, add_endpoints, cell_of_endpoints, clamp_endpoints, endpoints_at_fine_scale,
    endpoints_of_span, hull_endpoints, int_endpoints, max_endpoints, min_endpoints, neg_endpoints,
    order_of_endpoints, period_of_endpoints, rest_of_period, scale_endpoints, sub_endpoints,
    undecided_test_at, widen_endpoints,
};
use interval_products::{div_endpoints, mul_endpoints, root_endpoints, square_endpoints};

/// An enclosure by two endpoints of 64 bits in units of 2⁻³⁶, rounded outwards; every number, where an endpoint doesn't fit.
#[derive(Clone, Copy, Debug, PartialEq)]
pub struct Coarse {
    pub(crate) endpoints: Option<Endpoints<i64>>,
}

impl Enclosure for Coarse {
    ghost shown = { shown_coarse };

    ghost proper = { coarse_proper };

    ghost BITS = { 36 };

    ghost DEPTH = { 40 };

    ghost depth_law = { refl };

    const BITS: u32 = 36;

    const DEPTH: u32 = 40;

    fn whole() -> Self {
        Coarse { endpoints: None }
    }

    fn from_int(value: i64) -> Self {
        Coarse {
            endpoints: int_endpoints(value),
        }
    }

    // Inlined where an argument is mostly a constant, so that the compiler knows the divisor.
    #[inline(always)]
    fn from_frac(value: Frac) -> Self {
        Coarse {
            endpoints: frac_endpoints(value),
        }
    }

    #[inline(always)]
    fn from_span(span: Span) -> Self {
        Coarse {
            endpoints: endpoints_of_span(span.lo, span.hi),
        }
    }

    fn add(self, other: Self) -> Self {
        Coarse {
            endpoints: add_endpoints(self.endpoints, other.endpoints),
        }
    }

    fn sub(self, other: Self) -> Self {
        Coarse {
            endpoints: sub_endpoints(self.endpoints, other.endpoints),
        }
    }

    fn mul(self, other: Self) -> Self {
        Coarse {
            endpoints: mul_endpoints(self.endpoints, other.endpoints),
        }
    }

    fn min(self, other: Self) -> Self {
        Coarse {
            endpoints: min_endpoints(self.endpoints, other.endpoints),
        }
    }

    fn max(self, other: Self) -> Self {
        Coarse {
            endpoints: max_endpoints(self.endpoints, other.endpoints),
        }
    }

    fn hull(self, other: Self) -> Self {
        Coarse {
            endpoints: hull_endpoints(self.endpoints, other.endpoints),
        }
    }

    fn neg(self) -> Self {
        Coarse {
            endpoints: neg_endpoints(self.endpoints),
        }
    }

    fn widen(self, by: Frac) -> Self {
        Coarse {
            endpoints: widen_endpoints(self.endpoints, by),
        }
    }

    #[inline(always)]
    fn mul_frac(self, by: Frac) -> Self {
        Coarse {
            endpoints: scale_endpoints(self.endpoints, by),
        }
    }

    #[inline(always)]
    fn angle(self, phase: i64, rate: i64) -> Self {
        Coarse {
            // One quotient at each endpoint in place of three roundings.
            endpoints: angle_endpoints(self.endpoints, phase, rate),
        }
    }

    fn div(self, other: Self) -> Self {
        Coarse {
            endpoints: div_endpoints(self.endpoints, other.endpoints),
        }
    }

    fn square(self) -> Self {
        Coarse {
            endpoints: square_endpoints(self.endpoints),
        }
    }

    fn root(self) -> Self {
        Coarse {
            endpoints: root_endpoints(self.endpoints),
        }
    }

    fn clamp_unit(self) -> Self {
        Coarse {
            endpoints: Some(clamp_endpoints(self.endpoints)),
        }
    }

    fn span(self) -> Option<Span> {
        let (lo, hi) = endpoints_at_fine_scale(self.endpoints)?;
        Some(Span { lo, hi })
    }

    fn less(self, other: Self, site: Site, trail: &mut Trail) -> Result<bool, Undecided> {
        let turn = trail.step();
        match order_of_endpoints(self.endpoints, other.endpoints) {
            Some(answer) => Ok(answer),
            None => Err(undecided_test_at(
                hull_endpoints(self.endpoints, other.endpoints),
                site,
                turn,
            )),
        }
    }

    fn floor(self, site: Site, trail: &mut Trail) -> Result<i64, Undecided> {
        let turn = trail.step();
        match cell_of_endpoints(self.endpoints) {
            Some(cell) => Ok(cell),
            None => Err(undecided_test_at(self.endpoints, site, turn)),
        }
    }

    fn wrap(self, modulus: u32, site: Site, trail: &mut Trail) -> Result<Self, Undecided> {
        let turn = trail.step();
        match period_of_endpoints(self.endpoints, modulus) {
            Some(period) => Ok(Coarse {
                endpoints: rest_of_period(self.endpoints, modulus, period),
            }),
            None => Err(undecided_test_at(self.endpoints, site, turn)),
        }
    }
}
