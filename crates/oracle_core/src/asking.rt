//! An oracle that asks an evaluator.
ghost use Rattle.std.specs.Prelude.{IfOk, ◌≡◌, ◌++◌, ℤ, [], ◌∷◌, List, false, OnOk, OnErr};
ghost use Rattle.book_model.specs.declared.fact.Fact.{Fact};
ghost use Rattle.std.specs.List.{list_any};
ghost use Rattle.book_model.specs.sky.Facts.{IsFactValue};
ghost use Rattle.book_model.specs.calendars.Inquiries.{ask_once, fact_eq};
ghost use Rattle.oracle_core.specs.Inquiring.{Inquires};
ghost use Rattle.oracle_core.specs.Oracles.{after_pairs, by_evaluator, one_by_evaluator};
ghost use Rattle.oracle_core.specs.Pairs.{StandsWith, AllStand, facts_of};

use crate::noted::place_among_pairs;
use crate::{Answer, Evaluator, FactValues, Oracle, Stop};
use book_model::Fact;
use std::alloc::{AllocError, Global};
use std::marker::Model;

// One list, so that a line whose rule asks few facts takes one allocation for them at most.
/// Answers facts by an evaluator, and stores each fact that was answered with its value, in order of first use. A
/// fact that is stored isn't evaluated again.
#[derive(Drop)]
pub struct Asking<'a, E: Evaluator> {
    evaluator: &'a E,
    kept: FactValues,
}

impl<'a, E: Evaluator> Model for Asking<'a, E> {
    ghost Value = { List (Fact × ℤ) };

    ghost view = { λ a. a.kept };

    ghost invariant = { λ a. AllStand a.kept };
}

impl<'a, E: Evaluator> Asking<'a, E> {
    /// An oracle over the evaluator that wasn't asked anything yet.
    pub fn new(alloc: Global, evaluator: &'a E) -> Self
        ensures empty { result ≡ [] }
    {
        Asking {
            evaluator,
            kept: FactValues::new(alloc),
        }
    }

    /// The facts that were answered, with their values, each once, in order of first use.
    pub fn asked(&self) -> &FactValues
        ensures pairs { result.now ≡ self.now }
    {
        &self.kept
    }

    /// The facts that were answered, with their values, in order of first use.
    pub fn finish(self) -> FactValues
        ensures pairs { result ≡ self.entry }
        ensures stand { AllStand self.entry }
    {
        self.kept
    }

    /// Stores a fact that isn't stored yet with its value. Where memory runs out nothing changes.
    fn keep(&mut self, fact: Fact, value: i64) -> Result<(), AllocError>
        requires new { list_any (fact_eq fact) (facts_of self.old) ≡ false }
        requires stands { StandsWith fact value }
        ensures ok { OnOk result (self.new ≡ self.old ++ (fact, value) ∷ []) }
        ensures err { OnErr result (self.new ≡ self.old) }
    {
        self.kept.push((fact, value))?;
        Ok(())
    }

    /// The value of a fact that isn't stored yet, by the evaluator; then it is stored. An early return changes nothing.
    fn evaluate(&mut self, fact: Fact) -> Result<i64, Stop>
        requires new { list_any (fact_eq fact) (facts_of self.old) ≡ false }
        ensures asks { Inquires by_evaluator (ask_once fact) (after_pairs self.old)
            (after_pairs self.new) result }
        ensures value { IfOk result IsFactValue }
    {
        match self.evaluator.eval(fact) {
            Answer::Value(value) => {
                self.keep(fact, value)?;
                Ok(value)
            }
            Answer::Undecided(at) => Err(Stop::Undecided(fact, at)),
            Answer::Void(site) => Err(Stop::Void(fact, site)),
        }
    }
}

impl<'a, E: Evaluator> Oracle for Asking<'a, E> {
    ghost Known = { Unit {0} };

    ghost meaning = { by_evaluator };

    ghost state = { λ a. after_pairs a };

    ghost one_value = { one_by_evaluator };

    fn ask(&mut self, fact: Fact) -> Result<i64, Stop> {
        match place_among_pairs(self.kept.entries(), fact) {
            // Never an early return again at a fact that was asked, not even out of memory: its value is
            // stored.
            Some(place) => Ok(self.kept.item(place).1),
            None => self.evaluate(fact),
        }
    }
}
