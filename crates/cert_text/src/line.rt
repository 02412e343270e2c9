//! The lines of a certificate, and the block of facts and a line that stands for one line of input.
use crate::echo::Echo;
use crate::lists::{Numbers, Word};
use book_model::{Fact, Site, Undecided};
use oracle_core::FactValues;

// A line that lists facts never has another form, whatever its words: no word that the last three
// forms must hold can stand where a listed line's do. A kind named `refused`, or a place named
// `facts`, would break this.
/// A line of a certificate without its number.
#[derive(Debug, Drop)]
pub enum CertLine {
    /// The result, and the numbers of the facts that it rests on.
    Shown {
        echo: Echo,
        result: Word,
        facts: Numbers,
    },
    // With the facts that say why, as the next variant. Neither is a result, so that `convert` ends with
    // 1.
    /// The computed day (R.D.) is out of range.
    TooFar {
        echo: Echo,
        day: i64,
        facts: Numbers,
    },
    /// The day's own date is another.
    NoDate {
        echo: Echo,
        back: Word,
        facts: Numbers,
    },
    /// The line breaks this rule, from 1 to 4.
    Refused(u8),
    /// A test of the fact is undecided.
    Undecided {
        fact: Fact,
        at: Undecided,
    },
    /// The fact has no value.
    Void {
        fact: Fact,
        site: Site,
    },
}

/// What stands for one line of input: the new facts, of which the first has the number `first`, and the line with
/// its number.
#[derive(Debug, Drop)]
pub struct Block {
    pub facts: FactValues,
    pub first: u32,
    pub number: u32,
    pub line: CertLine,
}
