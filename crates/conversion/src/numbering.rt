//! The facts that have been written, numbered in order of first use.
ghost use Rattle.std.specs.Prelude.{◌≡◌, ◌<◌, ◌+◌, ◌^◌, [], List, length, not, IfOk, OnOk, IsTrue};
ghost use Rattle.std.specs.List.{list_any, position_or_len};
ghost use Rattle.book_model.specs.calendars.Inquiries.{fact_eq, with_fact};
ghost use Rattle.book_model.specs.declared.fact.Fact.{Fact as FactOf};

use crate::hashing::RowHashing;
use crate::listed::ListedFacts;
use book_model::Fact;
use indexmap::IndexSet;
use std::alloc::{AllocError, Global};
use std::marker::Model;

/// A count in 32 bits. Where it doesn't fit, the answer is that memory ran out: so many facts or lines don't come from an
/// input within the limit.
pub fn count_of(count: usize) -> Result<u32, AllocError>
    ensures count { IfOk result (λ n. n ≡ count) }
    ensures fits { OnOk result (count < 2 ^ 32) }
{
    u32::try_from(count).map_err(|_| AllocError)
}

/// The number that follows a count, in 32 bits.
pub fn number_after(count: usize) -> Result<u32, AllocError>
    ensures number { IfOk result (λ n. n ≡ count + 1) }
{
    count_of(count)?.checked_add(1).ok_or(AllocError)
}

/// A fact's number, and whether the fact is new.
#[derive(Clone, Copy, Debug, PartialEq, Eq)]
pub(crate) struct Numbered {
    pub(crate) number: u32,
    pub(crate) is_new: bool,
}

// A new fact takes 246 instructions here and another 94, in blocks of days 120 and 22, and in a set
// whose hasher begins with a fixed number, so that facts can be chosen whose hashes are alike, 196 and 73.
/// Facts, each once, numbered from 1 in order of first use. A look-up takes a time that depends on no choice of facts.
#[derive(Drop)]
pub(crate) struct NumberedFacts {
    facts: IndexSet<Fact, RowHashing>,
}

impl Model for NumberedFacts {
    ghost Value = { List FactOf };

    ghost view = { λ s. s.facts.keys };
}

impl NumberedFacts {
    /// No facts, with room for those that are listed. The error comes where memory runs out.
    pub(crate) fn new(alloc: Global, listed: ListedFacts) -> Result<Self, AllocError>
        ensures none { IfOk result (λ seen. seen ≡ []) }
    {
        let facts = IndexSet::with_capacity_and_hasher(alloc, listed.room(), listed.hashing())?;
        Ok(NumberedFacts { facts })
    }

    /// How many facts there are.
    pub(crate) fn len(&self) -> usize
        ensures len { result ≡ length self.now }
    {
        self.facts.len()
    }
}

/// The number of a fact, which is added to a set where it is new.
fn number_in(facts: &mut IndexSet<Fact, RowHashing>, fact: Fact) -> Result<Numbered, AllocError>
    ensures seen { OnOk result (facts.new.keys ≡ with_fact facts.old.keys fact) }
    ensures number { IfOk result (λ n. n.number ≡ position_or_len (fact_eq fact) facts.old.keys + 1) }
    ensures new { IfOk result (λ n. n.is_new ≡ not (list_any (fact_eq fact) facts.old.keys)) }
    ensures last { IfOk result (λ n. IsTrue n.is_new → n.number ≡ length facts.old.keys + 1) }
{
    let (index, is_new) = facts.insert_full(fact)?;
    let number = number_after(index)?;
    Ok(Numbered { number, is_new })
}

/// The number of a fact, which is added to the facts where it is new.
pub(crate) fn number_fact(seen: &mut NumberedFacts, fact: Fact) -> Result<Numbered, AllocError>
    ensures seen { OnOk result (seen.new ≡ with_fact seen.old fact) }
    ensures number { IfOk result (λ n. n.number ≡ position_or_len (fact_eq fact) seen.old + 1) }
    ensures new { IfOk result (λ n. n.is_new ≡ not (list_any (fact_eq fact) seen.old)) }
    ensures last { IfOk result (λ n. IsTrue n.is_new → n.number ≡ length seen.old + 1) }
{
    number_in(&mut seen.facts, fact)
}
