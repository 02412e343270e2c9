//! Checks certificates. The evaluator is asked for each fact of a file, and a line gets a verdict by those answers:
//! yes, where its words give what it shows over the facts that it lists, each of which was answered by its listed
//! value; no, with the first reason against it; or skip, where it shows no result.
#![tactic(auto)]

mod answers;
mod check;
mod compare;
mod laws;
mod listed;
mod verdict;
mod write;

pub use answers::check_facts;
pub use check::check_line;
pub use laws::{checkable, completeness};
pub use verdict::{Reason, Verdict};
pub use write::{write_counts, write_verdict};
