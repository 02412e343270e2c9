//! Tests by value of the model's types, of quotients, of the endpoints of enclosures, of enclosures of each kind, and of sines,
//! arcs and sums in whole numbers over them. Expected values come from an independent implementation. They stand here, above
//! all of these crates, so that each of those is proved once; there is no code.
#![tactic(auto)]

#[cfg(test)]
mod tests;
