//! Any reader and any writer of the standard library, with their faults counted.
ghost use Rattle.std.specs.Prelude.{◌≡◌, None};

use crate::stream::{Failed, Sink, Source};
use std::io::{Read, Write};

/// A reader as a source. It tells no bytes.
#[derive(Drop)]
pub struct StdSource<T: Read + Drop> {
    reader: T,
    faults: u64,
}

impl<T: Read + Drop> StdSource<T> {
    /// The reader as a source that hasn't failed yet.
    pub fn new(reader: T) -> Self
        ensures reader { result.reader ≡ reader }
        ensures faults { result.faults ≡ 0 }
    {
        StdSource { reader, faults: 0 }
    }
}

impl<T: Read + Drop> Source for StdSource<T> {
    ghost left = { λ s. None };

    ghost faults = { λ s. s.faults };

    fn read(&mut self, into: &mut [u8]) -> Result<usize, Failed> {
        match self.reader.read(into) {
            Ok(count) => Ok(count),
            Err(_) => {
                self.faults = self.faults.saturating_add(1);
                Err(Failed)
            }
        }
    }
}

/// A writer as a sink. It tells no bytes.
#[derive(Drop)]
pub struct StdSink<T: Write + Drop> {
    writer: T,
    faults: u64,
}

impl<T: Write + Drop> StdSink<T> {
    /// The writer as a sink that hasn't failed yet.
    pub fn new(writer: T) -> Self
        ensures writer { result.writer ≡ writer }
        ensures faults { result.faults ≡ 0 }
    {
        StdSink { writer, faults: 0 }
    }
}

impl<T: Write + Drop> Sink for StdSink<T> {
    ghost written = { λ s. None };

    ghost faults = { λ s. s.faults };

    /// A writer that takes none of some bytes has failed.
    fn write(&mut self, from: &[u8]) -> Result<usize, Failed> {
        match self.writer.write(from) {
            Ok(count) if count > 0 || from.is_empty() => Ok(count),
            _ => {
                self.faults = self.faults.saturating_add(1);
                Err(Failed)
            }
        }
    }
}
