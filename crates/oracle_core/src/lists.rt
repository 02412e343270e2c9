//! Lists of facts, of facts with their values, and of answers, which contracts see as lists.
ghost use Rattle.std.specs.Prelude.{◌≡◌, ◌<◌, ◌++◌, [], ◌∷◌, ℤ, List, Some, length, slice_get, OnOk, OnErr};
ghost use Rattle.book_model.specs.declared.fact.Fact.{Fact};
ghost use Rattle.oracle_core.specs.Kept.{kept_pairs};
ghost use Rattle.oracle_core.specs.declared.evaluator.Answer.{Answer};

use crate::{Answer, Kept};
use book_model::Fact;
use std::alloc::{AllocError, Global};
use std::marker::Model;

/// Facts, in order.
#[derive(Drop)]
pub struct FactList {
    facts: Vec<Fact>,
}

impl Model for FactList {
    ghost Value = { List Fact };

    ghost view = { λ l. l.facts.items };
}

impl FactList {
    /// The empty list.
    pub fn new(alloc: Global) -> Self
        ensures empty { result ≡ [] }
    {
        FactList {
            facts: Vec::new(alloc),
        }
    }

    /// Adds an item at the end. Where memory runs out the list stays as it was.
    pub fn push(&mut self, item: Fact) -> Result<(), AllocError>
        ensures ok { OnOk result (self.new ≡ self.old ++ item ∷ []) }
        ensures err { OnErr result (self.new ≡ self.old) }
    {
        self.facts.push(item)?;
        Ok(())
    }

    /// The number of items.
    pub fn len(&self) -> usize
        ensures len { result ≡ length self.now }
    {
        self.facts.len()
    }

    /// An item, from 0.
    pub fn item(&self, index: usize) -> &Fact
        requires within { index < length self.now }
        ensures item { Some result.now ≡ slice_get self.now index }
    {
        &self.facts[index]
    }

    /// The facts, in order.
    pub(crate) fn facts(&self) -> &[Fact]
        ensures facts { result.now ≡ self.now }
    {
        &self.facts
    }
}

/// Facts with their values, in order. Neither an empty list nor one of a single fact takes memory.
#[derive(Debug, Drop)]
pub struct FactValues {
    alloc: Global,
    kept: Kept,
}

impl Model for FactValues {
    ghost Value = { List (Fact × ℤ) };

    ghost view = { λ l. kept_pairs l.kept };
}

impl FactValues {
    /// The empty list.
    pub fn new(alloc: Global) -> Self
        ensures empty { result ≡ [] }
    {
        FactValues {
            alloc,
            kept: Kept::Empty,
        }
    }

    /// Adds an item at the end. Where memory runs out the list stays as it was.
    pub fn push(&mut self, item: (Fact, i64)) -> Result<(), AllocError>
        ensures ok { OnOk result (self.new ≡ self.old ++ item ∷ []) }
        ensures err { OnErr result (self.new ≡ self.old) }
    {
        self.kept.push(self.alloc, item)?;
        Ok(())
    }

    /// The number of items.
    pub fn len(&self) -> usize
        ensures len { result ≡ length self.now }
    {
        self.entries().len()
    }

    /// An item, from 0.
    pub fn item(&self, index: usize) -> &(Fact, i64)
        requires within { index < length self.now }
        ensures item { Some result.now ≡ slice_get self.now index }
    {
        &self.entries()[index]
    }

    /// The facts with their values, in order.
    pub fn entries(&self) -> &[(Fact, i64)]
        ensures entries { result.now ≡ self.now }
    {
        self.kept.entries()
    }

    /// The facts with their values, by their number.
    pub fn into_kept(self) -> Kept
        ensures kept { kept_pairs result ≡ self }
    {
        self.kept
    }
}

/// Answers, in order.
#[derive(Drop)]
pub struct Answers {
    answers: Vec<Answer>,
}

impl Model for Answers {
    ghost Value = { List Answer };

    ghost view = { λ l. l.answers.items };
}

impl Answers {
    /// The empty list.
    pub fn new(alloc: Global) -> Self
        ensures empty { result ≡ [] }
    {
        Answers {
            answers: Vec::new(alloc),
        }
    }

    /// Adds an item at the end. Where memory runs out the list stays as it was.
    pub fn push(&mut self, item: Answer) -> Result<(), AllocError>
        ensures ok { OnOk result (self.new ≡ self.old ++ item ∷ []) }
        ensures err { OnErr result (self.new ≡ self.old) }
    {
        self.answers.push(item)?;
        Ok(())
    }

    /// The number of items.
    pub fn len(&self) -> usize
        ensures len { result ≡ length self.now }
    {
        self.answers.len()
    }

    /// An item, from 0.
    pub fn item(&self, index: usize) -> &Answer
        requires within { index < length self.now }
        ensures item { Some result.now ≡ slice_get self.now index }
    {
        &self.answers[index]
    }
}
