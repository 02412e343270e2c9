//! Lists of bytes and of numbers, which contracts see as lists.
ghost use Rattle.std.specs.Prelude.{◌≡◌, ◌<◌, ◌++◌, ◌∷◌, [], ℕ, List, Some, length, slice_get, IfOk, OnOk, OnErr};

use smallvec::SmallVec;
use std::alloc::{AllocError, Global};
use std::marker::Model;

/// How many bytes of a word stand in the word itself: no date and no value that a line shows has more.
pub(crate) const WORD_ROOM: usize = 24;

/// How many numbers stand in their list itself: most lines rest on no more facts.
const NUMBERS_ROOM: usize = 4;

// A word is made whole and read as bytes, so that it has none of a list's other calls.
/// A word: a list of bytes. A short one takes no memory of its own.
#[derive(Debug, Drop)]
pub struct Word {
    bytes: SmallVec<u8, WORD_ROOM>,
}

impl Model for Word {
    ghost Value = { List ℕ };

    ghost view = { λ w. w.bytes.items };
}

impl Word {
    /// The word of these bytes. The error comes where memory runs out.
    pub fn of(alloc: Global, bytes: &[u8]) -> Result<Word, AllocError>
        ensures bytes { IfOk result (λ w. w ≡ bytes.now) }
    {
        Ok(Word {
            bytes: SmallVec::from_slice(alloc, bytes)?,
        })
    }

    /// The word that holds these bytes.
    pub(crate) fn with(bytes: SmallVec<u8, WORD_ROOM>) -> Word
        ensures bytes { result ≡ bytes.items }
    {
        Word { bytes }
    }

    /// The bytes.
    pub fn bytes(&self) -> &[u8]
        ensures bytes { result.now ≡ self.now }
    {
        &self.bytes
    }
}

/// A list of the numbers of facts. A short one takes no memory of its own.
#[derive(Debug, Drop)]
pub struct Numbers {
    items: SmallVec<u32, NUMBERS_ROOM>,
}

impl Model for Numbers {
    ghost Value = { List ℕ };

    ghost view = { λ n. n.items.items };
}

impl Numbers {
    /// The list of no numbers.
    pub fn new(alloc: Global) -> Self
        ensures empty { result ≡ [] }
    {
        Numbers {
            items: SmallVec::new(alloc),
        }
    }

    /// Adds a number at the end. The error comes where memory runs out, and leaves the list as it was.
    pub fn push(&mut self, number: u32) -> Result<(), AllocError>
        ensures ok { OnOk result (self.new ≡ self.old ++ number ∷ []) }
        ensures err { OnErr result (self.new ≡ self.old) }
    {
        self.items.push(number)?;
        Ok(())
    }

    /// The number of items.
    pub fn len(&self) -> usize
        ensures len { result ≡ length self.now }
    {
        self.numbers().len()
    }

    /// An item, from 0.
    pub fn item(&self, index: usize) -> &u32
        requires within { index < length self.now }
        ensures item { Some result.now ≡ slice_get self.now index }
    {
        &self.numbers()[index]
    }

    /// Empties the list, and keeps its room.
    pub fn clear(&mut self)
        ensures empty { self.new ≡ [] }
    {
        self.items.clear();
    }

    /// The numbers in order.
    pub fn numbers(&self) -> &[u32]
        ensures numbers { result.now ≡ self.now }
    {
        &self.items
    }
}
