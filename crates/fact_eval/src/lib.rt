//! The evaluator of the program: it answers a fact by its formula (`day_facts`) over coarse enclosures, and over fine ones where these
//! leave a test undecided. No formula stands here: what is proved here is that an answer is right for its fact.
//!
//! - `Staged`: the evaluator; what every fact may ask it has evaluated once, over the coarse kind, and what its runs find of ΔT, new
//!   moons (`shared`) and evenings they share;
//! - `evaluate`, `answer_over`: the value, and the answer, of a fact by enclosures of one kind; `is_close`: whether an answer's bounds are
//!   close;
//! - `laws`: how many tests the formula of a fact makes at most.
#![tactic(auto)]

pub mod laws;
mod shared;
mod staged;

pub use staged::{Staged, answer_over, evaluate, is_close};
