//! The facts with their values on which a result rests.
ghost use Rattle.std.specs.Prelude.{◌≡◌, ◌<◌, length, IfOk, slice_index_or};
ghost use Rattle.jobs_core.specs.LineFacts.{pairs_in};

use crate::near::NearFacts;
use book_model::Fact;
use std::alloc::{AllocError, Global};

// A list of other bytes is one allocation more, and its facts are read one by one: for a line of five
// facts, as most Chinese ones are, the time isn't worth the bytes.
/// So few facts take little memory as they are: 192 bytes at most.
const FEW: usize = 8;

/// Facts with their values, in order of first use: as they are, or in a third of the bytes where they are many and their days
/// near one another, as those that a line asks are.
#[derive(Drop)]
pub enum LineFacts {
    Pairs(Vec<(Fact, i64)>),
    Near(NearFacts),
}

impl LineFacts {
    /// These facts with their values. The error comes where memory runs out.
    pub(crate) fn of(alloc: Global, mut pairs: Vec<(Fact, i64)>) -> Result<LineFacts, AllocError>
        ensures pairs { IfOk result (λ facts. pairs_in facts ≡ pairs.items) }
    {
        if pairs.len() <= FEW {
            return Ok(LineFacts::Pairs(pairs));
        }
        match NearFacts::of(alloc, &pairs)? {
            Some(near) => Ok(LineFacts::Near(near)),
            None => {
                pairs.shrink_to_fit();
                Ok(LineFacts::Pairs(pairs))
            }
        }
    }

    /// How many there are.
    pub fn len(&self) -> usize
        ensures len { result ≡ length (pairs_in self.now) }
    {
        match self {
            LineFacts::Pairs(pairs) => pairs.len(),
            LineFacts::Near(near) => near.len(),
        }
    }

    /// A fact with its value, from 0.
    pub fn pair(&self, index: usize) -> (Fact, i64)
        requires within { index < length (pairs_in self.now) }
        ensures pair { result ≡ slice_index_or (pairs_in self.now) index result }
    {
        match self {
            LineFacts::Pairs(pairs) => pairs[index],
            LineFacts::Near(near) => near.pair(index),
        }
    }
}
