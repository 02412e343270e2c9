//! Bytes that are gathered for a word.
ghost use Rattle.std.specs.Prelude.{◌≡◌, [], Some};

use crate::lists::{WORD_ROOM, Word};
use byte_streams::{Failed, Sink};
use smallvec::SmallVec;
use std::alloc::Global;

/// Gathers the bytes of a word that are written to it. It fails only where memory runs out, of which a short word needs none.
#[derive(Drop)]
pub(crate) struct Brief {
    bytes: SmallVec<u8, WORD_ROOM>,
    faults: u64,
}

impl Brief {
    /// Nothing is gathered yet.
    pub(crate) fn new(alloc: Global) -> Brief
        ensures bytes { result.bytes.items ≡ [] }
    {
        Brief {
            bytes: SmallVec::new(alloc),
            faults: 0,
        }
    }

    /// The bytes that were gathered, as a word.
    pub(crate) fn into_word(self) -> Word
        ensures bytes { result ≡ self.bytes.items }
    {
        Word::with(self.bytes)
    }
}

impl Sink for Brief {
    ghost written = { λ s. Some s.bytes.items };

    ghost faults = { λ s. s.faults };

    fn write(&mut self, from: &[u8]) -> Result<usize, Failed> {
        match self.bytes.extend_from_slice(from) {
            Ok(()) => Ok(from.len()),
            Err(_) => {
                self.faults = self.faults.saturating_add(1);
                Err(Failed)
            }
        }
    }
}
