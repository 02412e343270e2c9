//! Tests by value of calendars, and of what stands beside them: counts of spans, oracles, the lines of an almanac. Expected
//! values come from an independent implementation. They stand here, above all of these crates, so that each of those is proved
//! once; there is no code.
#![tactic(auto)]

#[cfg(test)]
mod tests;
