//! The facts of a file so far, as a set.
ghost use Rattle.std.specs.Prelude.{◌≡◌, ◌*◌, ◌<◌, ℤ, List, false, not, length, IfOk, OnOk};
ghost use Rattle.std.specs.BTreeSet.{BTreeSet};
ghost use Rattle.book_model.specs.declared.fact.Fact.{Fact};
ghost use Rattle.book_model.specs.declared.fact.TheConstants.{KINDS as kinds, PLACES as places};
ghost use Rattle.cert_parser.specs.Seen as spec;

use book_model::{Fact, KINDS, PLACES};
use std::alloc::{AllocError, Global};
use std::collections::BTreeSet;
use std::marker::Model;

/// The place of a fact's kind and place among all pairs of a kind and a place.
pub fn row_of(fact: Fact) -> usize
    ensures row { result ≡ spec.row_of fact }
    ensures within { result < length kinds * length places }
{
    fact.kind().number() * PLACES.len() + fact.place().number()
}

// 400,000 chosen facts took a hashed set a hundred seconds; a random key needs a source that can
// fail. For 9,600,000 facts in order these sets take a quarter of its time, in three fifths of the
// memory. Sets of bits would have room for the days that have a value alone.
/// The facts that were seen: for each kind and place the days of which one was. The days stand in order, so that a look-up
/// takes time by their number alone. A set that hashes takes as long as whoever writes a file wants: its hasher begins with
/// a fixed number, and days can be chosen whose hashes are alike.
#[derive(Drop)]
pub(crate) struct SeenFacts {
    days: Vec<BTreeSet<i64>>,
}

impl Model for SeenFacts {
    ghost Value = { List (BTreeSet ℤ) };

    ghost view = { λ s. s.days.items };

    ghost invariant = { λ s. length s.days.items ≡ length kinds * length places };
}

impl SeenFacts {
    /// No facts. The error comes where memory runs out.
    pub(crate) fn new(alloc: Global) -> Result<Self, AllocError>
        ensures none { IfOk result (λ seen. (f : Fact) → spec.has_fact seen f ≡ false) }
    {
        let mut days = Vec::new(alloc);
        for _ in 0..KINDS.len() * PLACES.len() {
            days.push(BTreeSet::new(alloc))?;
        }
        Ok(SeenFacts { days })
    }

    /// Adds the fact, and says whether it is new. The error comes where memory runs out.
    pub(crate) fn insert(&mut self, fact: Fact) -> Result<bool, AllocError>
        ensures new { IfOk result (λ new. new ≡ not (spec.has_fact self.old fact)) }
        ensures seen { OnOk result (spec.HasMore self.old fact self.new) }
    {
        let is_new = self.days[row_of(fact)].insert(fact.day())?;
        Ok(is_new)
    }
}
