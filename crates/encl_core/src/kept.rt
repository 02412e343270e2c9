//! What a run has evaluated.
ghost use Rattle.encl_core.specs.Kept.{IsKept, IsKept-prop, IsKeptWithin, IsKeptWithin-prop, program_of, tests_of};

use crate::Span;
use crate::asked::Asked;
use std::alloc::AllocError;

// The type says that what is cached is right: the program of what was asked makes so many tests,
// decides them and ends within these endpoints, which are so narrow at the fine scale. So it may be
// taken at any turn. A ghost field has to be a proposition, so that is said of runs and not by `Leads`.
/// What was asked, as enclosures of one scale give it.
pub struct Kept {
    asked: Asked,
    // The scale is part of the key: fine enclosures never take coarse endpoints.
    bits: u32,
    endpoints: Span,
    ghost evaluated: { IsKept (tests_of asked) (program_of asked) endpoints } by { IsKept-prop (tests_of asked) (program_of asked) endpoints },
    ghost measured: { IsKeptWithin asked bits endpoints } by { IsKeptWithin-prop asked bits endpoints },
}

impl Clone for Kept {
    ghost use Rattle.std.specs.Prelude.{◌≡◌};

    ghost is_clone = { λ v w. w ≡ v };

    fn clone(&self) -> Result<Self, AllocError> {
        Ok(*self)
    }
}

impl Copy for Kept {}

impl Kept {
    ghost use Rattle.std.specs.Prelude.{IfSome};

    /// What was asked, where an enclosure at scale 2 to the power of minus `bits` gave these endpoints.
    pub(crate) fn new(asked: Asked, bits: u32, endpoints: Span) -> Self
        requires evaluated { IsKept (tests_of asked) (program_of asked) endpoints }
        requires measured { IsKeptWithin asked bits endpoints }
    {
        Kept {
            asked,
            bits,
            endpoints,
        }
    }

    /// Its endpoints, if this was asked at this scale.
    pub(crate) fn at(self, asked: Asked, bits: u32) -> Option<Span>
        ensures evaluated { IfSome result (IsKept (tests_of asked) (program_of asked)) }
        ensures measured { IfSome result (IsKeptWithin asked bits) }
    {
        if self.asked == asked {
            return self.at_scale(bits);
        }
        None
    }

    /// Its endpoints, if it is at this scale.
    fn at_scale(self, bits: u32) -> Option<Span>
        ensures evaluated { IfSome result (IsKept (tests_of self.asked) (program_of self.asked)) }
        ensures measured { IfSome result (IsKeptWithin self.asked bits) }
    {
        if self.bits == bits {
            return Some(self.endpoints);
        }
        None
    }
}
