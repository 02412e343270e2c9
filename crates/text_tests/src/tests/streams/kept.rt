//! A source and a sink in memory.
ghost use Rattle.std.specs.Prelude.{None};

use byte_streams::{Failed, Sink, Source};
use std::alloc::Global;

/// Gives bytes, so many at a call at most, and fails at one call.
#[derive(Drop)]
pub(crate) struct Given<'a> {
    pub(crate) left: &'a [u8],
    pub(crate) most: usize,
    pub(crate) failing: u32,
    pub(crate) calls: u32,
    pub(crate) faults: u64,
}

impl Source for Given<'_> {
    ghost left = { λ s. None };

    ghost faults = { λ s. s.faults };

    fn read(&mut self, into: &mut [u8]) -> Result<usize, Failed> {
        self.calls = self.calls.saturating_add(1);
        if self.calls == self.failing {
            self.faults = self.faults.saturating_add(1);
            return Err(Failed);
        }
        let count = self.left.len().min(into.len()).min(self.most);
        into[..count].copy_from_slice(&self.left[..count]);
        self.left = &self.left[count..];
        Ok(count)
    }
}

/// Keeps bytes while there is room, so many at a call at most.
#[derive(Drop)]
pub(crate) struct Kept {
    pub(crate) bytes: Vec<u8>,
    room: usize,
    most: usize,
    pub(crate) faults: u64,
}

impl Kept {
    /// A sink that has taken nothing yet, with so much room, and so many bytes at most in one write.
    pub(crate) fn new(alloc: Global, room: usize, most: usize) -> Kept {
        Kept {
            bytes: Vec::new(alloc),
            room,
            most,
            faults: 0,
        }
    }
}

impl Sink for Kept {
    ghost written = { λ s. None };

    ghost faults = { λ s. s.faults };

    fn write(&mut self, from: &[u8]) -> Result<usize, Failed> {
        let left = self.room.saturating_sub(self.bytes.len());
        let count = from.len().min(left).min(self.most);
        let is_stuck = count == 0 && !from.is_empty();
        if is_stuck || self.bytes.extend_from_slice(&from[..count]).is_err() {
            self.faults = self.faults.saturating_add(1);
            return Err(Failed);
        }
        Ok(count)
    }
}
