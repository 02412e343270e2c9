//! The number pi.

ghost use Rattle.book_model.specs.programs.Calls.{Encloses};
ghost use Rattle.book_model.specs.numbers.Expressions.{pi as pi_number};

use crate::{Enclosure, Span};
use book_model::tables::{PI_ABOVE, PI_BELOW};

/// Pi, between two neighbours in units of 2⁻⁵⁶.
#[tactic(auto, using(crate::proofs::PiEndpoints::within_pi, crate::proofs::PiEndpoints::narrow_pi))]
pub fn pi<E: Enclosure>() -> E
    ensures encloses { Encloses E.shown E.BITS pi_number result }
{
    E::from_span(Span {
        lo: PI_BELOW.num(),
        hi: PI_ABOVE.num(),
    })
}
