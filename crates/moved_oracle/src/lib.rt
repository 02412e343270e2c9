//! The sky of other places for rules that ask of the sky of Beijing: an oracle over another one that moves each such fact to
//! Hanoi, Seoul or Tokyo, so that the Chinese rules, asked through it, give Vietnamese, Korean and Japanese dates. Which facts
//! it moves is book_model's (`Moving.antt`). It stands by itself, below `east_cal`, so that whoever reads lines waits for no
//! enclosure.
#![tactic(auto)]

mod moving;

pub use moving::Moved;
