//! An oracle that looks facts up in a list.
ghost use Rattle.std.specs.Prelude.{◌≡◌, [], length, IsTrue};
ghost use Rattle.oracle_core.specs.Inquiring.{State};
ghost use Rattle.oracle_core.specs.Oracles.{by_table, one_by_table};
ghost use Rattle.oracle_core.specs.Pairs.{FactTable, IsListing, AreFactValues, are_distinct};

use crate::noted::{Noted, place_among};
use crate::{FactList, Oracle, Stop};
use book_model::Fact;
use std::alloc::Global;
use std::marker::Model;

/// Answers facts by the values that stand beside them in a list.
#[derive(Drop)]
pub struct Listed<'a> {
    facts: &'a [Fact],
    values: &'a [i64],
    asked: Noted,
}

impl<'a> Model for Listed<'a> {
    ghost Value = { State FactTable };

    ghost view = { λ l. record { known = record { facts = l.facts.now; values = l.values.now }; asked = l.asked } };

    ghost invariant = { λ l. IsListing l.facts.now l.values.now l.asked };
}

impl<'a> Listed<'a> {
    /// An oracle over the facts with the value of each at the same place. It takes no memory.
    pub fn new(alloc: Global, facts: &'a [Fact], values: &'a [i64]) -> Self
        requires same { length facts.now ≡ length values.now }
        requires distinct { IsTrue (are_distinct facts.now) }
        requires known { AreFactValues values.now }
        ensures facts { result.known.facts ≡ facts.now }
        ensures values { result.known.values ≡ values.now }
        ensures asked { result.asked ≡ [] }
    {
        Listed {
            facts,
            values,
            asked: Noted::new(alloc),
        }
    }

    /// The facts that were answered, each once, in order of first use.
    pub fn asked(&self) -> &FactList
        ensures facts { result.now ≡ self.now.asked }
    {
        self.asked.list()
    }
}

impl<'a> Oracle for Listed<'a> {
    ghost Known = { FactTable };

    ghost meaning = { by_table };

    ghost state = { λ l. l };

    ghost one_value = { one_by_table };

    fn ask(&mut self, fact: Fact) -> Result<i64, Stop> {
        match place_among(self.facts, fact) {
            // The first value that stands beside the fact. The facts of a file are distinct, so it
            // is the only one; a law of the trait can't see that.
            Some(place) => {
                let value = self.values[place];
                // It needs memory for a fact that it notes for the first time alone.
                self.asked.note(fact)?;
                Ok(value)
            }
            None => Err(Stop::Missing(fact)),
        }
    }
}
