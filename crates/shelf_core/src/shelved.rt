//! An evaluator that keeps its answers on a shelf.
use crate::Shelf;
use book_model::Fact;
use oracle_core::{Answer, Evaluator};
use std::alloc::Global;

/// Answers facts by a shelf, and those that aren't there by an evaluator, whose answers are put there.
#[derive(Drop)]
pub struct Shelved<'a, E: Evaluator> {
    alloc: Global,
    shelf: &'a Shelf,
    evaluator: &'a E,
}

impl<'a, E: Evaluator> Shelved<'a, E> {
    /// The evaluator over this shelf, which boxes its entries by this allocator. It takes no memory.
    pub fn new(alloc: Global, shelf: &'a Shelf, evaluator: &'a E) -> Shelved<'a, E> {
        Shelved {
            alloc,
            shelf,
            evaluator,
        }
    }
}

impl<'a, E: Evaluator> Evaluator for Shelved<'a, E> {
    fn eval(&self, fact: Fact) -> Answer {
        self.shelf.answer(self.alloc, self.evaluator, fact)
    }
}
