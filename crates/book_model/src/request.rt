//! What a line of input asks, and what it gets.

use crate::{FromWord, ToWord};

// Types of requests stand here, since the definitions of lines and outcomes speak of them. In lines
// a date of any calendar is `Fields`; the crate of a calendar turns a type of its own into them and
// back.
/// The fields of a date: the first `count` values, in the calendar's order; the values after them are 0.
#[derive(Clone, Copy, Debug, PartialEq, Eq)]
pub struct Fields {
    pub count: u8,
    pub values: [i32; 5],
}

impl Fields {
    ghost use Rattle.std.specs.Prelude.{◌≡◌, ◌<◌};
    ghost use Rattle.book_model.specs.calendars.Dates.{field as field_of};

    // It asks for an index below 5, the room of a date's fields. The sign is left out, since no
    // field in a line has one.
    /// A field of the date, from 0, less its sign.
    pub fn field(&self, index: usize) -> u32
        requires few { index < 5 }
        ensures field { result ≡ field_of self.now index }
    {
        self.values[index].unsigned_abs()
    }
}

/// What a line asks that breaks none of the rules.
#[derive(Clone, Copy, Debug, PartialEq, Eq)]
pub struct Request {
    pub from: FromWord,
    pub date: Fields,
    pub to: ToWord,
}

/// The rules of a line, numbered from 1: its syntax, its calendar words, its date's fields, its range.
#[derive(Clone, Copy, Debug, PartialEq, Eq)]
pub enum Rule {
    Syntax,
    Calendar,
    Field,
    Range,
}

impl Rule {
    ghost use Rattle.std.specs.Prelude.{◌≡◌};
    ghost use Rattle.book_model.specs.lines.Requests.{rule_number};

    /// The number of the rule, from 1.
    pub fn number(self) -> u8
        ensures number { result ≡ rule_number self }
    {
        match self {
            Rule::Syntax => 1,
            Rule::Calendar => 2,
            Rule::Field => 3,
            Rule::Range => 4,
        }
    }
}

/// The outcome of a line that breaks no rule by itself: what it asks for, the day that its date names where that
/// is outside the range, or the own date of that day where it isn't the date of the line.
#[derive(Clone, Copy, Debug, PartialEq, Eq)]
pub enum Resolved {
    Shown(ToWord, Fields),
    TooFar { day: i64 },
    NoDate { back: Fields },
}
