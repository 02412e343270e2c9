//! A source and a sink in memory, whose calls fail where they are told to.
ghost use Rattle.std.specs.Prelude.{◌≡◌, ◌≤◌, ◌<◌, ◌+◌, ◌-◌, ◌^◌, ◌||◌, ◌&&◌, ◌⊎◌, ◌==◌, not, [], nat_lt, if◌then◌else◌, min, length, drop, Some, IfOk, IsErr, IsTrue, ◌↔◌, vec_len, vec_capacity};
ghost use Rattle.std.specs.Io.{ReadsAtMost};
ghost use Rattle.std.specs.Io.KnownBytes.{ReadConsumes, WriteAppends};
ghost use Rattle.byte_streams.specs.Stream.{HasCause, next_count};
ghost use Rattle.byte_streams.specs.Calls.{is_listed};

use crate::stream::{Failed, Sink, Source};
use std::alloc::{AllocError, Global};

/// Whether the number of a call is listed.
fn lists(failing: &[u32], call: u64) -> bool
    ensures { result ≡ is_listed failing.now call }
{
    failing.iter().any(|listed| u64::from(*listed) == call)
}

/// Gives the bytes that it was made with, as many at each call as there is room for.
#[derive(Drop)]
pub struct MemorySource {
    bytes: Vec<u8>,
    taken: usize,
    calls: u64,
    failing: Vec<u32>,
    faults: u64,
    ghost within: { taken ≤ length bytes.items },
}

impl MemorySource {
    /// A source of these bytes that fails exactly at the calls whose numbers, from 1, are listed.
    pub fn new(bytes: Vec<u8>, failing: Vec<u32>) -> Self
        ensures bytes { result.bytes ≡ bytes }
        ensures taken { result.taken ≡ 0 }
        ensures calls { result.calls ≡ 0 }
        ensures failing { result.failing ≡ failing }
        ensures faults { result.faults ≡ 0 }
    {
        MemorySource {
            bytes,
            taken: 0,
            calls: 0,
            failing,
            faults: 0,
        }
    }
}

impl Source for MemorySource {
    ghost left = { λ s. Some (drop s.taken s.bytes.items) };

    ghost faults = { λ s. s.faults };

    fn read(&mut self, into: &mut [u8]) -> Result<usize, Failed>
        ensures bound { ReadsAtMost result into.new }
        ensures bytes { ReadConsumes (Some (drop self.old.taken self.old.bytes.items))
            (Some (drop self.new.taken self.new.bytes.items)) result into.new }
        ensures cause { HasCause self.old.faults self.new.faults result }
        // Where it doesn't fail it gives as many bytes as are left, or as there is room for.
        ensures most { IfOk result (λ n. n ≡ min (length into.old)
            (length (drop self.old.taken self.old.bytes.items))) }
        // It fails exactly at the listed calls.
        ensures exact { IsErr result ↔ IsTrue (is_listed self.old.failing.items
            (next_count self.old.calls)) }
        ensures count { self.new.faults ≡ (if is_listed self.old.failing.items
            (next_count self.old.calls) then next_count self.old.faults else self.old.faults) }
        ensures calls { self.new.calls ≡ next_count self.old.calls }
        ensures failing { self.new.failing ≡ self.old.failing }
    {
        self.calls = self.calls.saturating_add(1);
        if lists(&self.failing, self.calls) {
            self.faults = self.faults.saturating_add(1);
            return Err(Failed);
        }
        let left = &self.bytes[self.taken..];
        let count = left.len().min(into.len());
        into[..count].copy_from_slice(&left[..count]);
        self.taken += count;
        Ok(count)
    }
}

/// Holds the bytes that are written to it, in room that is taken when it is made.
#[derive(Drop)]
pub struct MemorySink {
    bytes: Vec<u8>,
    room: usize,
    calls: u64,
    failing: Vec<u32>,
    faults: u64,
    ghost within: { vec_len bytes ≤ room },
    ghost roomy: { room ≤ vec_capacity bytes },
}

impl MemorySink {
    /// An empty sink with room for so many bytes. It fails exactly at the calls whose numbers, from 1, are listed,
    /// and at a call with bytes where no room is left.
    pub fn new(alloc: Global, room: usize, failing: Vec<u32>) -> Result<MemorySink, AllocError>
        ensures bytes { IfOk result (λ s. s.bytes.items ≡ []) }
        ensures room { IfOk result (λ s. s.room ≡ room) }
        ensures calls { IfOk result (λ s. s.calls ≡ 0) }
        ensures failing { IfOk result (λ s. s.failing ≡ failing) }
        ensures faults { IfOk result (λ s. s.faults ≡ 0) }
    {
        Ok(MemorySink {
            bytes: Vec::with_capacity(alloc, room)?,
            room,
            calls: 0,
            failing,
            faults: 0,
        })
    }

    /// The bytes that were written.
    pub fn written(&self) -> &[u8]
        ensures { result.now ≡ self.now.bytes.items }
    {
        &self.bytes
    }
}

impl Sink for MemorySink {
    ghost written = { λ s. Some s.bytes.items };

    ghost faults = { λ s. s.faults };

    fn write(&mut self, from: &[u8]) -> Result<usize, Failed>
        ensures bound { IfOk result (λ n. n ≤ length from.now) }
        ensures bytes { WriteAppends (Some self.old.bytes.items)
            (Some self.new.bytes.items) result from.now }
        ensures progress { IfOk result (λ n. 0 < length from.now → 0 < n) }
        ensures cause { HasCause self.old.faults self.new.faults result }
        // It fails exactly at the listed calls, and at a call with bytes where there is no room.
        ensures listed { IsTrue (is_listed self.old.failing.items (next_count self.old.calls))
            → IsErr result }
        ensures full { 0 < length from.now → vec_len self.old.bytes ≡ self.old.room → IsErr result }
        ensures only { IsErr result → IsTrue (is_listed self.old.failing.items
            (next_count self.old.calls))
            ⊎ (0 < length from.now) × (vec_len self.old.bytes ≡ self.old.room) }
        ensures rises { IsErr result → self.new.faults ≡ next_count self.old.faults }
        ensures stays { IfOk result (λ _. self.new.faults ≡ self.old.faults) }
        ensures most { IfOk result (λ n. n ≡ min (length from.now)
            (self.old.room - vec_len self.old.bytes)) }
        ensures room { self.new.room ≡ self.old.room }
        ensures calls { self.new.calls ≡ next_count self.old.calls }
        ensures failing { self.new.failing ≡ self.old.failing }
    {
        self.calls = self.calls.saturating_add(1);
        if lists(&self.failing, self.calls) {
            self.faults = self.faults.saturating_add(1);
            return Err(Failed);
        }
        let left = self.room - self.bytes.len();
        if left == 0 && !from.is_empty() {
            self.faults = self.faults.saturating_add(1);
            return Err(Failed);
        }
        let count = left.min(from.len());
        self.bytes.extend_from_slice(&from[..count]).unwrap();
        Ok(count)
    }
}
