//! A shelf of answers, which threads share: one slot for each kind of fact, place and day, which is set once and then stays.
//! A fact whose slot is set is answered by the slot's entry, any other by an evaluator, whose answer is then put there. So a
//! run evaluates a fact once.
//!
//! `rows` numbers the pairs of a kind and a place, `entry` is what a slot holds, `block` a number of slots that are made
//! together, `notes` what two looks at a slot have in common, `shelf` the slots with the passes by which they are read and
//! set, `shelved` the evaluator over a shelf, and `laws` what holds of a shelf after any steps, and of the numbers of slots.
//!
//! The definition of a shelf stands in this crate and not in book_model, since it speaks of an evaluator's answers.
#![tactic(auto)]

mod block;
mod entry;
pub mod laws;
mod notes;
mod rows;
mod shelf;
mod shelved;

pub use entry::Entry;
pub use shelf::{Pass, Shelf};
pub use shelved::Shelved;
