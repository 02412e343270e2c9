//! Tests by value of the facts, as the evaluator gives them: each kind at each of its places. Expected values come from an
//! independent implementation. They stand here, above the evaluator, so that it is proved once; there is no code.
#![tactic(auto)]

#[cfg(test)]
mod tests;
