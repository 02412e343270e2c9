//! What no clause says of the facts: their values, and that enclosures decide them.
mod answers;
mod decided;
mod decided_far;
mod facts;
mod zoned_facts;
