//! Tests by value of the top call over the evaluator of the program, above both of them, so that the program itself is proved once: no
//! code.
#![tactic(auto)]

#[cfg(test)]
mod tests;
