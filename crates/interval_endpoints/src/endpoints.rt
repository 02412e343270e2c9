//! Two endpoints in order.
ghost use Rattle.std.specs.Prelude.{◌≡◌, ◌≤ℤ◌};

use crate::word::MachineWord;
use std::alloc::AllocError;

/// Two endpoints in order, which count the units of their word's scale.
#[derive(Debug, PartialEq)]
pub struct Endpoints<I: MachineWord> {
    pub lo: I,
    pub hi: I,
    ghost ordered: { I.value lo ≤ℤ I.value hi },
}

impl<I: MachineWord> Clone for Endpoints<I> {
    ghost is_clone = { λ v w. w ≡ v };

    fn clone(&self) -> Result<Self, AllocError> {
        Ok(*self)
    }
}

impl<I: MachineWord> Copy for Endpoints<I> {}
