//! Lines that are answered as they come.
ghost use Rattle.std.specs.Prelude.{◌≡◌, ◌≢◌, ◌≤◌, ◌∷◌, [], OnOk, OnErr, IsErrOf};
ghost use Rattle.byte_streams.specs.Stream.{Rose};
ghost use Rattle.answered_lines.specs.Lines as lines;
ghost use Rattle.answered_lines.specs.Answers as spec;

use crate::answerer::Answerer;
use crate::begun::BegunLine;
use oracle_core::Evaluator;
use run_core::{Sink, Source, Status, WriteStop};
use std::alloc::Global;

/// Answers the line that has begun, which ends here, and forgets it.
fn answer_begun<K: Sink, E: Evaluator>(
    answerer: &mut Answerer<E>,
    sink: &mut K,
    begun: &mut BegunLine,
) -> Result<(), WriteStop>
    ensures ok { OnOk result (spec.AnswersAll (K.written sink.old) (K.written sink.new)
        (lines.without_return begun.old ∷ [])) }
    ensures begun { OnOk result (begun.new ≡ []) }
    ensures err { OnErr result (spec.AnswersCut (K.written sink.old) (K.written sink.new)
        (lines.without_return begun.old ∷ [])) }
    ensures fault { IsErrOf result WriteStop.Fault → Rose (K.faults sink.old) (K.faults sink.new) }
    ensures later { K.faults sink.old ≤ K.faults sink.new }
{
    answerer.answer(sink, begun.line())?;
    begun.clear();
    Ok(())
}

/// Takes a byte: answers the line that it ends, or adds it to the line that has begun.
fn answer_byte<K: Sink, E: Evaluator>(
    answerer: &mut Answerer<E>,
    sink: &mut K,
    begun: &mut BegunLine,
    byte: u8,
) -> Result<(), WriteStop>
    ensures ok { OnOk result (spec.AnswersAll (K.written sink.old) (K.written sink.new)
        (lines.plain_lines (lines.kept_lines begun.old (byte ∷ [])))) }
    ensures begun { OnOk result (begun.new ≡ lines.kept_prefix begun.old (byte ∷ [])) }
    ensures err { OnErr result (spec.AnswersCut (K.written sink.old) (K.written sink.new)
        (lines.plain_lines (lines.kept_lines begun.old (byte ∷ [])))) }
    ensures fault { IsErrOf result WriteStop.Fault → Rose (K.faults sink.old) (K.faults sink.new) }
    ensures later { K.faults sink.old ≤ K.faults sink.new }
{
    if byte == b'\n' {
        answer_begun(answerer, sink, begun)
    } else {
        begun.put(byte)?;
        Ok(())
    }
}

// Byte by byte, and not by a search for line feeds: a line has some thirty bytes, and takes some twenty microseconds.
/// Takes bytes as they come, in any pieces: answers each line that ends in them, in order, each by a write of its own, and keeps a
/// prefix of the line that has begun. On `Ok` each line that has come whole is answered. At a fault of the sink, and where memory
/// runs out, a prefix of these answers was written.
pub fn answer_piece<K: Sink, E: Evaluator>(
    answerer: &mut Answerer<E>,
    sink: &mut K,
    begun: &mut BegunLine,
    piece: &[u8],
) -> Result<(), WriteStop>
    ensures ok { OnOk result (spec.AnswersAll (K.written sink.old) (K.written sink.new)
        (lines.plain_lines (lines.kept_lines begun.old piece.now))) }
    ensures begun { OnOk result (begun.new ≡ lines.kept_prefix begun.old piece.now) }
    ensures err { OnErr result (spec.AnswersCut (K.written sink.old) (K.written sink.new)
        (lines.plain_lines (lines.kept_lines begun.old piece.now))) }
    ensures fault { IsErrOf result WriteStop.Fault → Rose (K.faults sink.old) (K.faults sink.new) }
    ensures later { K.faults sink.old ≤ K.faults sink.new }
{
    for byte in piece {
        answer_byte(answerer, sink, begun, *byte)?;
    }
    Ok(())
}

/// Answers the line that has begun, where there is one: the bytes have ended, and a last line needs no line feed.
pub fn answer_last<K: Sink, E: Evaluator>(
    answerer: &mut Answerer<E>,
    sink: &mut K,
    begun: &mut BegunLine,
) -> Result<(), WriteStop>
    ensures ok { OnOk result (spec.AnswersAll (K.written sink.old) (K.written sink.new)
        (lines.plain_lines (lines.last_line begun.old))) }
    ensures err { OnErr result (spec.AnswersCut (K.written sink.old) (K.written sink.new)
        (lines.plain_lines (lines.last_line begun.old))) }
    ensures fault { IsErrOf result WriteStop.Fault → Rose (K.faults sink.old) (K.faults sink.new) }
    ensures later { K.faults sink.old ≤ K.faults sink.new }
{
    if begun.is_empty() {
        Ok(())
    } else {
        answer_begun(answerer, sink, begun)
    }
}

/// How answering ends where a write failed or memory ran out.
fn stopped(stop: WriteStop) -> Status
    ensures status { result ≡ spec.stopped stop }
{
    match stop {
        WriteStop::Fault => Status::WriteFault,
        WriteStop::Memory => Status::Memory,
    }
}

/// Answers the last line, and says how answering ends.
fn end_lines<K: Sink, E: Evaluator>(
    answerer: &mut Answerer<E>,
    sink: &mut K,
    begun: &mut BegunLine,
) -> Status
    ensures done { result ≡ Status.Done → spec.AnswersAll (K.written sink.old)
        (K.written sink.new) (lines.plain_lines (lines.last_line begun.old)) }
    ensures cut { spec.IsStopped result → spec.AnswersCut (K.written sink.old)
        (K.written sink.new) (lines.plain_lines (lines.last_line begun.old)) }
    ensures only { spec.IsOfLines result }
    ensures read { result ≢ Status.ReadFault }
    ensures fault { result ≡ Status.WriteFault → Rose (K.faults sink.old) (K.faults sink.new) }
    ensures later { K.faults sink.old ≤ K.faults sink.new }
{
    match answer_last(answerer, sink, begun) {
        Ok(()) => Status::Done,
        Err(stop) => stopped(stop),
    }
}

/// Reads lines from a source to its end, as `convert` does, and writes the answer to each before more is read: what `convert`
/// writes for an input of this line alone, between its header and its end line. A line of more than 200 bytes is refused by the
/// first rule, and no more than 202 bytes of it are kept.
///
/// `Done` says that the source has ended and each line is answered; `ReadFault` that a read failed, and each line that had ended is
/// answered: since any read may be the one that fails, no read is made while such a line waits; `WriteFault` that a write failed,
/// and `Memory` that memory ran out, or that the source was read 2⁶⁴ times. What was written then is a prefix of the answers.
pub fn answer_lines<S: Source, K: Sink, E: Evaluator>(
    alloc: Global,
    answerer: &mut Answerer<E>,
    source: &mut S,
    sink: &mut K,
) -> Status
    ensures done { result ≡ Status.Done → spec.AnswersInput (S.left source.old)
        (S.left source.new) (K.written sink.old) (K.written sink.new) }
    ensures read_fault { result ≡ Status.ReadFault → spec.AnswersEnded (S.left source.old)
        (S.left source.new) (K.written sink.old) (K.written sink.new) }
    ensures write_fault { result ≡ Status.WriteFault → spec.InputCut (S.left source.old)
        (S.left source.new) (K.written sink.old) (K.written sink.new) }
    ensures memory { result ≡ Status.Memory → spec.InputCut (S.left source.old)
        (S.left source.new) (K.written sink.old) (K.written sink.new) }
    ensures only { spec.IsOfLines result }
    // Faults have a cause.
    ensures read_cause { result ≡ Status.ReadFault → Rose (S.faults source.old)
        (S.faults source.new) }
    ensures write_cause { result ≡ Status.WriteFault → Rose (K.faults sink.old)
        (K.faults sink.new) }
    ensures source_later { S.faults source.old ≤ S.faults source.new }
    ensures sink_later { K.faults sink.old ≤ K.faults sink.new }
{
    let mut begun = BegunLine::new(alloc);
    let mut piece = [0u8; PIECE];
    'reads: for _ in 0..u64::MAX {
        let count = match source.read(&mut piece) {
            Ok(count) => count,
            Err(_) => return Status::ReadFault,
        };
        if count == 0 {
            return end_lines(answerer, sink, &mut begun);
        }
        match answer_piece(answerer, sink, &mut begun, &piece[..count]) {
            Ok(()) => {}
            Err(stop) => return stopped(stop),
        }
    }
    Status::Memory
}

/// How many bytes are read at once, at most.
const PIECE: usize = 4096;
