//! Bytes in and out, with faults that are counted.
ghost use Rattle.std.specs.Prelude.{◌≡◌, ◌≤◌, ◌<◌, ◌+◌, ◌-◌, ◌^◌, List, ℕ, [], length, IfOk, IfErr, OnOk, IsErrOf, Some};
ghost use Rattle.std.specs.declared.option.Option.{Option};
ghost use Rattle.std.specs.Io.{ReadsAtMost};
ghost use Rattle.std.specs.Io.KnownBytes.{ReadConsumes, WriteAppends, Consumes, IsAtEnd};
ghost use Rattle.byte_streams.specs.declared.stream.ReadStop.TheVariants.{Fault, Memory, TooLarge};
ghost use Rattle.byte_streams.specs.Stream.{HasCause, Rose, Writes};

use std::alloc::{AllocError, Global};

/// A read or a write that failed.
#[derive(Clone, Copy, Debug, PartialEq, Eq)]
pub struct Failed;

/// Gives bytes.
pub trait Source {
    /// The bytes that are left, where the source tells them.
    ghost left: { Self → Option (List ℕ) };

    /// How often it has failed. The count stands still at the last value of a `u64`.
    ghost faults: { Self → ℕ };

    /// Takes the next bytes into the front of `into`, and says how many: 0 only at the end of the bytes, where
    /// there is room for one. It fails only where the count of faults rises, and takes nothing then.
    fn read(&mut self, into: &mut [u8]) -> Result<usize, Failed>
        ensures bound { ReadsAtMost result into.new }
        ensures bytes { ReadConsumes (left self.old) (left self.new) result into.new }
        ensures cause { HasCause (faults self.old) (faults self.new) result };
}

/// Takes bytes.
pub trait Sink {
    /// The bytes that were written, where the sink tells them.
    ghost written: { Self → Option (List ℕ) };

    /// How often it has failed. The count stands still at the last value of a `u64`.
    ghost faults: { Self → ℕ };

    /// Writes bytes from the front of `from`, and says how many: at least one, where there is one. It fails only
    /// where the count of faults rises, and writes nothing then.
    fn write(&mut self, from: &[u8]) -> Result<usize, Failed>
        ensures bound { IfOk result (λ n. n ≤ length from.now) }
        ensures bytes { WriteAppends (written self.old) (written self.new) result from.now }
        ensures progress { IfOk result (λ n. 0 < length from.now → 0 < n) }
        ensures cause { HasCause (faults self.old) (faults self.new) result };
}

/// Why an input wasn't read whole: a read failed, memory ran out, or the input is larger than the limit.
#[derive(Clone, Copy, Debug, PartialEq, Eq)]
pub enum ReadStop {
    Fault,
    Memory,
    TooLarge,
}

impl From<Failed> for ReadStop {
    ghost from_gives = { λ _ e. e ≡ Fault };

    fn from(_: Failed) -> Self {
        ReadStop::Fault
    }
}

impl From<AllocError> for ReadStop {
    ghost from_gives = { λ _ e. e ≡ Memory };

    fn from(_: AllocError) -> Self {
        ReadStop::Memory
    }
}

/// All the bytes of the source, where they are at most the limit. `Fault` comes only where the count of faults
/// rose, and `TooLarge` only where the source gave more bytes than the limit.
#[tactic(auto, using(crate::proofs::Flow::consumes_on))]
pub fn read_all<S: Source>(alloc: Global, source: &mut S, limit: usize) -> Result<Vec<u8>, ReadStop>
    ensures read { IfOk result (λ v. Consumes (S.left source.old) (S.left source.new) v.items) }
    ensures end { OnOk result (IsAtEnd (S.left source.new)) }
    ensures small { IfOk result (λ v. length v.items ≤ limit) }
    ensures large { IsErrOf result ReadStop.TooLarge →
        (taken : List ℕ) × Consumes (S.left source.old) (S.left source.new) taken
        × (limit < length taken) }
    ensures fault { IsErrOf result ReadStop.Fault → Rose (S.faults source.old) (S.faults source.new) }
    ensures later { S.faults source.old ≤ S.faults source.new }
{
    let mut held = Vec::new(alloc);
    // By chunks, so that no more memory is needed than there are bytes, whatever the limit is.
    let mut piece = [0u8; 4096];
    while held.len() <= limit {
        let count = source.read(&mut piece)?;
        if count == 0 {
            return Ok(held);
        }
        held.extend_from_slice(&piece[..count])?;
    }
    Err(ReadStop::TooLarge)
}

/// Writes all the bytes, in as many calls as it takes. At an error a prefix of them was written, and the count
/// of faults rose.
#[tactic(auto, using(crate::proofs::Flow::wrote_take))]
pub fn write_all<K: Sink>(sink: &mut K, bytes: &[u8]) -> Result<(), Failed>
    ensures { Writes K.written K.faults sink.old sink.new bytes.now result }
{
    let mut rest = bytes;
    while !rest.is_empty() {
        let count = sink.write(rest)?;
        rest = &rest[count..];
    }
    Ok(())
}
