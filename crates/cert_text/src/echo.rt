//! The three words of a line of input.
ghost use Rattle.std.specs.Prelude.{◌≡◌, IfOk};
ghost use Rattle.book_model.specs.lines.Lines.{IsWord};
ghost use Rattle.cert_text.specs.Echo.{Echo as EchoView, AreParts, first_part, second_part, third_part};

use smallvec::SmallVec;
use std::alloc::{AllocError, Global};
use std::marker::Model;

/// How many bytes of the words stand in the echo itself.
const ROOM: usize = 32;

/// The three words of an input line, as they were given: each is one byte or more from 0x21 to 0x7E. They stand in one text,
/// without the spaces, so that an echo takes one allocation, and one of short words takes none.
#[derive(Debug, Drop)]
pub struct Echo {
    text: SmallVec<u8, ROOM>,
    /// Where the date begins.
    date: usize,
    /// Where the last word begins.
    to: usize,
}

impl Model for Echo {
    ghost Value = { EchoView };

    ghost view = { λ e. record {
      from = first_part e.text.items e.date;
      date = second_part e.text.items e.date e.to;
      to = third_part e.text.items e.to;
    } };

    ghost invariant = { λ e. AreParts e.text.items e.date e.to };
}

impl Echo {
    /// The echo of these words. The error comes where memory runs out.
    pub fn of(alloc: Global, from: &[u8], date: &[u8], to: &[u8]) -> Result<Echo, AllocError>
        requires from { IsWord from.now }
        requires date { IsWord date.now }
        requires to { IsWord to.now }
        ensures from { IfOk result (λ e. e.from ≡ from.now) }
        ensures date { IfOk result (λ e. e.date ≡ date.now) }
        ensures to { IfOk result (λ e. e.to ≡ to.now) }
    {
        let room = from
            .len()
            .saturating_add(date.len())
            .saturating_add(to.len());
        let mut text = SmallVec::with_capacity(alloc, room)?;
        text.extend_from_slice(from)?;
        let date_start = text.len();
        text.extend_from_slice(date)?;
        let to_start = text.len();
        text.extend_from_slice(to)?;
        Ok(Echo {
            text,
            date: date_start,
            to: to_start,
        })
    }

    /// The word before the date.
    pub fn from(&self) -> &[u8]
        ensures word { result.now ≡ self.now.from }
        ensures printed { IsWord result.now }
    {
        &self.text[..self.date]
    }

    /// The date.
    pub fn date(&self) -> &[u8]
        ensures word { result.now ≡ self.now.date }
        ensures printed { IsWord result.now }
    {
        &self.text[self.date..self.to]
    }

    /// The word after the date.
    pub fn to(&self) -> &[u8]
        ensures word { result.now ≡ self.now.to }
        ensures printed { IsWord result.now }
    {
        &self.text[self.to..]
    }
}
