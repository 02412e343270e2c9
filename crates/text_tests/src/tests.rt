//! What no clause says of streams and texts, one file for each crate; and an evaluator that several use.
mod files;
mod known;
mod outcomes;
mod pieces;
mod shelves;
mod streams;
mod texts;
mod verdicts;
mod words;
