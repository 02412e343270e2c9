//! Bytes that are gathered in memory.
ghost use Rattle.std.specs.Prelude.{◌≡◌, [], Some};

use crate::stream::{Failed, Sink};
use std::alloc::Global;

/// Gathers the bytes that are written to it, in memory that grows. It fails only where memory runs out.
#[derive(Debug, Drop)]
pub struct Gathered {
    bytes: Vec<u8>,
    faults: u64,
}

impl Gathered {
    /// Nothing is gathered yet.
    pub fn new(alloc: Global) -> Gathered
        ensures bytes { result.bytes.items ≡ [] }
    {
        Gathered {
            bytes: Vec::new(alloc),
            faults: 0,
        }
    }

    /// The bytes that were gathered.
    pub fn bytes(&self) -> &[u8]
        ensures bytes { result.now ≡ self.now.bytes.items }
    {
        &self.bytes
    }

    /// The bytes that were gathered, as a vector.
    pub fn into_bytes(self) -> Vec<u8>
        ensures bytes { result ≡ self.bytes }
    {
        self.bytes
    }

    /// Forgets the bytes that were gathered, and keeps the count of faults.
    pub fn clear(&mut self)
        ensures bytes { self.new.bytes.items ≡ [] }
        ensures faults { self.new.faults ≡ self.old.faults }
    {
        self.bytes.clear();
    }
}

impl Sink for Gathered {
    ghost written = { λ s. Some s.bytes.items };

    ghost faults = { λ s. s.faults };

    fn write(&mut self, from: &[u8]) -> Result<usize, Failed> {
        match self.bytes.extend_from_slice(from) {
            Ok(()) => Ok(from.len()),
            Err(_) => {
                self.faults = self.faults.saturating_add(1);
                Err(Failed)
            }
        }
    }
}
