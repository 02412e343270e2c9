//! How facts with their values are held.
ghost use Rattle.std.specs.Prelude.{◌≡◌, ◌++◌, [], ◌∷◌, IfOk, OnOk, OnErr};
ghost use Rattle.oracle_core.specs.Kept.{kept_pairs};

use book_model::Fact;
use std::alloc::{AllocError, Global};

// Many lines ask a single fact, and an allocation is an eighth of what such a line costs whose fact is
// known already.
/// Facts with their values, in order: none, one or more. Neither an empty list nor one of a single fact takes memory.
#[derive(Debug, Drop)]
pub enum Kept {
    Empty,
    One([(Fact, i64); 1]),
    Many(Vec<(Fact, i64)>),
}

/// A list of two facts with their values. The error comes where memory runs out.
fn both_of(
    alloc: Global,
    first: &[(Fact, i64); 1],
    second: (Fact, i64),
) -> Result<Vec<(Fact, i64)>, AllocError>
    ensures pairs { IfOk result (λ pairs. pairs.items ≡ first.now ++ second ∷ []) }
{
    let mut pairs = Vec::new(alloc);
    pairs.push(first[0])?;
    pairs.push(second)?;
    Ok(pairs)
}

impl Kept {
    /// Adds a fact with its value at the end. Where memory runs out the list stays as it was.
    pub(crate) fn push(&mut self, alloc: Global, item: (Fact, i64)) -> Result<(), AllocError>
        ensures ok { OnOk result (kept_pairs self.new ≡ kept_pairs self.old ++ item ∷ []) }
        ensures err { OnErr result (kept_pairs self.new ≡ kept_pairs self.old) }
    {
        match self {
            Kept::Empty => *self = Kept::One([item]),
            Kept::One(first) => *self = Kept::Many(both_of(alloc, first, item)?),
            Kept::Many(pairs) => pairs.push(item)?,
        }
        Ok(())
    }

    /// The facts with their values, in order.
    pub(crate) fn entries(&self) -> &[(Fact, i64)]
        ensures entries { result.now ≡ kept_pairs self.now }
    {
        match self {
            Kept::Empty => &[],
            Kept::One(pair) => pair,
            Kept::Many(pairs) => pairs,
        }
    }
}
