//! What is found of a line of a certificate.

use book_model::{Fact, Resolved, Site, Undecided};

/// What is found of a line: it stands, it doesn't for a reason, or it shows no result.
#[derive(Clone, Copy, Debug, PartialEq, Eq)]
pub enum Verdict {
    Yes,
    No(Reason),
    Skip,
}

/// The first reason against a line.
#[derive(Clone, Copy, Debug, PartialEq, Eq)]
pub enum Reason {
    /// The line's words break this rule, from 1 to 4, without any fact.
    Form(u8),
    /// The listed fact of this number was answered by another value than the listed one.
    Value { fact: u32, listed: i64, found: i64 },
    /// A test of a listed fact is undecided.
    Undecided(Fact, Undecided),
    /// A listed fact has no value.
    Void(Fact, Site),
    /// The line's rule asks a fact that the line doesn't list.
    Missing(Fact),
    /// The facts that the rule asks, in order of first use, first differ from the listed ones at this place, from 1.
    List { place: u32 },
    /// The rule gives this result, whose text isn't the line's.
    Date { found: Resolved },
}
