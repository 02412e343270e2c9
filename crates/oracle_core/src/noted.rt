//! The facts asked so far, with quick look-ups.
ghost use Rattle.std.specs.Prelude.{◌≡◌, [], List, false, OnOk, OnErr};
ghost use Rattle.book_model.specs.declared.fact.Fact.{Fact};
ghost use Rattle.std.specs.List.{list_any, position};
ghost use Rattle.book_model.specs.calendars.Inquiries.{fact_eq, with_fact};

use crate::FactList;
use book_model::Fact;
use std::alloc::{AllocError, Global};
use std::marker::Model;

/// Whether two facts are one. It stands apart from the search among facts, whose proof would otherwise go through each pair of kinds.
fn is_same(one: Fact, other: Fact) -> bool
    ensures same { result ≡ fact_eq one other }
{
    one == other
}

/// Where a fact stands among facts, if it does. A request asks some dozens of facts at most, and each is looked up among the
/// others one after the other: that takes no memory, for a plain list less time than to hash or to sort it, and time by the
/// length of the list alone, whichever facts a stranger puts there.
pub(crate) fn place_among(facts: &[Fact], fact: Fact) -> Option<usize>
    ensures place { result ≡ position (fact_eq fact) facts.now }
{
    // 41 facts were the most in the lines that were tried. Facts of thousands of requests in one
    // oracle would be slow; the program makes one oracle for each line.
    facts.iter().position(|other| is_same(fact, *other))
}

/// Where a fact stands among facts with their values, if it does.
pub(crate) fn place_among_pairs(pairs: &[(Fact, i64)], fact: Fact) -> Option<usize>
    ensures place { result ≡ position (λ pair. fact_eq fact pair.0) pairs.now }
{
    pairs.iter().position(|pair| is_same(fact, pair.0))
}

/// Facts, each once, in order of first use.
#[derive(Drop)]
pub(crate) struct Noted {
    list: FactList,
}

impl Model for Noted {
    ghost Value = { List Fact };

    ghost view = { λ n. n.list };
}

impl Noted {
    /// No facts.
    pub(crate) fn new(alloc: Global) -> Self
        ensures empty { result ≡ [] }
    {
        Noted {
            list: FactList::new(alloc),
        }
    }

    /// The facts as a list.
    pub(crate) fn list(&self) -> &FactList
        ensures list { result.now ≡ self.now }
    {
        &self.list
    }

    /// Where the fact stands, if it is there.
    pub(crate) fn place(&self, fact: Fact) -> Option<usize>
        ensures place { result ≡ position (fact_eq fact) self.now }
    {
        place_among(self.list.facts(), fact)
    }

    /// Adds the fact at the end, unless it is there. Where memory runs out the facts stay as they were; none is needed where the
    /// fact is there.
    pub(crate) fn note(&mut self, fact: Fact) -> Result<(), AllocError>
        ensures ok { OnOk result (self.new ≡ with_fact self.old fact) }
        ensures err { OnErr result (self.new ≡ self.old) }
        ensures new { OnErr result (list_any (fact_eq fact) self.old ≡ false) }
    {
        match self.place(fact) {
            Some(_) => Ok(()),
            None => self.list.push(fact),
        }
    }
}
