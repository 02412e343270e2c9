//! Tests by value of the crates that read and write texts: streams, certificates, verdicts, words, shelves, chunks of work,
//! runs. They stand here, above all of these crates, so that each of those is proved once; there is no code.
#![tactic(auto)]

#[cfg(test)]
mod tests;
