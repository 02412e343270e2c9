//! An evaluator whose evaluations are counted.
use book_model::Fact;
use oracle_core::{Answer, Evaluator};
use std::cell::Cell;

/// Answers as an evaluator does, and counts how often it was asked.
#[derive(Drop)]
pub(crate) struct Counted<E: Evaluator> {
    evaluator: E,
    count: Cell<u64>,
}

impl<E: Evaluator> Counted<E> {
    /// The evaluator, which hasn't been asked yet.
    pub(crate) fn new(evaluator: E) -> Self {
        Counted {
            evaluator,
            count: Cell::new(0),
        }
    }

    /// How often it was asked.
    pub(crate) fn count(&self) -> u64 {
        self.count.get()
    }

    /// Counts from 0 again.
    pub(crate) fn forget(&mut self) {
        self.count.set(0);
    }
}

impl<E: Evaluator> Evaluator for Counted<E> {
    fn eval(&self, fact: Fact) -> Answer {
        self.count.set(self.count.get().saturating_add(1));
        self.evaluator.eval(fact)
    }
}
