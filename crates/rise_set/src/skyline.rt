//! What stays the same at a horizon from approximation to approximation, and from day to day.
ghost use Rattle.book_model.specs.numbers.Expressions.{Expression, World};
ghost use Rattle.book_model.specs.numbers.Relations.{Within};
ghost use Rattle.book_model.specs.programs.Calls.{Holds};
ghost use Rattle.rise_set.specs.Horizons.{IsHorizon, IsHorizonOf};
ghost use Rattle.rise_set.specs.Widths.{IsDepression, IsNarrowHorizon, IsNarrowLocation};
ghost use Rattle.std.specs.Prelude.{◌≡◌};

use book_model::Location;
use encl_core::Enclosure;
use sun_core::{cos_deg, sin_deg, tan_deg};

/// The horizon of a location, below which the sun stands by a depression: the tangent and the cosine of the latitude, and the
/// sine of the depression. They are taken once for all approximations of dawns and dusks there, of however many days.
#[derive(Clone, Copy, Drop)]
pub struct Horizon<E> {
    pub location: Location,
    pub(crate) tangent: E,
    pub(crate) cosine: E,
    pub(crate) sine: E,
}

/// The horizon of a location for a depression, in degrees. It makes no test.
pub fn horizon_at<E: Enclosure>(location: &Location, depression: E) -> Horizon<E>
    ensures location { result.location ≡ location.now }
    ensures holds { (w : World) (a : Expression) → Within E.shown w a depression
        → IsHorizon E.shown w a result }
    ensures measured { E.BITS ≡ 56 → IsNarrowLocation location.now
        → IsDepression (E.shown depression) → IsNarrowHorizon E.shown result }
    ensures whole { (a : Expression) → Holds E.shown a depression
        → (E.BITS ≡ 56 → IsNarrowLocation location.now → IsDepression (E.shown depression))
        → IsHorizonOf E.shown E.BITS a result }
{
    let latitude = E::from_frac(location.latitude);
    Horizon {
        location: *location,
        tangent: tan_deg(latitude),
        cosine: cos_deg(latitude),
        sine: sin_deg(depression),
    }
}
