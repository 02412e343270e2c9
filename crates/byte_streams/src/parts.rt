//! Texts that are written part by part.
ghost use Rattle.std.specs.Prelude.{◌≡◌};
ghost use Rattle.std.specs.List.{flat_map};
ghost use Rattle.byte_streams.specs.Parts.{counts_line};
ghost use Rattle.byte_streams.specs.Stream.{Writes};

use crate::stream::{Failed, Sink, write_all};
use itoa::{Buffer, Integer};

/// The decimal digits of a number, after a minus sign where it is below 0.
pub fn decimal<'a, I: Integer>(buffer: &'a mut Buffer, number: I) -> &'a [u8]
    ensures { result.now ≡ I.text number }
{
    buffer.format(number).as_bytes()
}

// What a call appends is one word (`Writes`): on `Ok` the whole text, on `Err` a prefix of it, and
// why.
/// Writes one part after the other. At an error, which comes only where the count of the sink's faults rose, a prefix
/// of them was written.
pub fn write_parts<K: Sink>(sink: &mut K, parts: &[&[u8]]) -> Result<(), Failed>
    ensures { Writes K.written K.faults sink.old sink.new (flat_map
        (λ part. part.now) parts.now) result }
{
    for part in parts {
        write_all(sink, *part)?;
    }
    Ok(())
}

/// Writes a line of two counts, each behind its words. At an error, which comes only where the count of the sink's
/// faults rose, a prefix of it was written.
pub fn write_two_counts<K: Sink>(
    sink: &mut K,
    head: &[u8],
    first: u32,
    middle: &[u8],
    second: u32,
) -> Result<(), Failed>
    ensures { Writes K.written K.faults sink.old sink.new
        (counts_line head.now first middle.now second) result }
{
    let mut first_buffer = Buffer::new();
    let mut second_buffer = Buffer::new();
    let first = decimal(&mut first_buffer, first);
    let second = decimal(&mut second_buffer, second);
    write_parts(sink, &[head, first, middle, second, b"\n"])
}
