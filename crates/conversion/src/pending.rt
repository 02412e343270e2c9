//! Bytes that wait to be written, so that many blocks make few writes.
ghost use Rattle.std.specs.Prelude.{◌≡◌, ◌≤◌, length, OnOk};
ghost use Rattle.byte_streams.specs.Stream.{HasCause, Wrote};
ghost use Rattle.conversion.specs.Writing.{WritesPrefix};

use byte_streams::{Failed, Gathered, Sink, write_all};

// The real sink makes a system call for each write. What a failed write leaves is a prefix of the
// text all the same.
/// How many bytes may wait before they are written.
pub const MANY: usize = 65536;

/// Writes the bytes that wait, where they are more than so many. At an error a prefix of them was written.
#[tactic(auto, using(byte_streams::proofs::Flow::wrote_whole))]
pub fn write_if_many<K: Sink>(
    sink: &mut K,
    pending: &mut Gathered,
    most: usize,
) -> Result<(), Failed>
    ensures ok { OnOk result (Wrote (K.written sink.old) (K.written sink.new)
        pending.old.bytes.items pending.new.bytes.items) }
    ensures few { OnOk result (length pending.new.bytes.items ≤ most) }
    ensures err { WritesPrefix K.written sink.old sink.new pending.old.bytes.items result }
    ensures cause { HasCause (K.faults sink.old) (K.faults sink.new) result }
{
    if pending.bytes().len() > most {
        write_all(sink, pending.bytes())?;
        pending.clear();
    }
    Ok(())
}
