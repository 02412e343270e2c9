//! The evaluator that C holds.
ghost use Rattle.std.specs.Prelude.{◌≡◌, Bool, true, false};
ghost use Rattle.calendrica_c.specs.Evaluators.{kept_owns};

use crate::kept::Kept;
use crate::parts::Parts;
use std::alloc::Global;
use std::marker::Model;
use std::ptr;

// The pointer is to a byte, since C is to know nothing of what lies there.
/// The evaluator as C holds it, `calendrica_evaluator` of the header. Where it is open it owns the box of what it keeps; else it owns
/// nothing. It is moved out of the variable of the caller and back within each call.
#[repr(C)]
#[derive(Drop)]
pub struct Evaluator {
    at: *mut u8,
    pub ghost is_open: { Bool },
}

impl Model for Evaluator {
    ghost also_owns = { λ e. kept_owns e.is_open e.at };
}

impl Evaluator {
    /// An evaluator that isn't open.
    pub(crate) fn none() -> Evaluator
        ensures closed { result.is_open ≡ false }
    {
        Evaluator {
            at: ptr::null_mut(),
        }
    }

    /// The open evaluator that owns the parts of a box.
    pub(crate) fn of(parts: Parts<Kept, Global>) -> Evaluator
        ensures open { result.is_open ≡ true }
    {
        let Parts { ptr, alloc: _ } = parts;
        Evaluator { at: ptr as *mut u8 }
    }

    /// The parts of the box that an open evaluator owns.
    pub(crate) fn into_parts(self, alloc: Global) -> Parts<Kept, Global>
        requires open { self.is_open ≡ true }
    {
        let Evaluator { at } = self;
        Parts {
            ptr: at as *mut Kept,
            alloc,
        }
    }
}
