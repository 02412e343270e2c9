//! Tests by value of the crates of formulas below the facts: time, new moons, the sun, the moon, the horizon, the crescent, the
//! moon over the horizon, what the Hindu calendars ask. Expected values come from an independent implementation. They stand here,
//! above all of these crates, so that each of those is proved once; there is no code.
#![tactic(auto)]

#[cfg(test)]
mod tests;
