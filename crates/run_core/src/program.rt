//! The top call: all that the program does.
ghost use Rattle.std.specs.Prelude.{◌≡◌, ◌≤◌, ◌⊎◌, ℕ, true, false, List, map, length, Some, None, string_bytes, IfOk, IsOk, IsErrOf};
ghost use Rattle.std.specs.Io.KnownBytes.{Appends, Consumes, Keeps};
ghost use Rattle.command_line.specs.Words.{command_of as named, IsInRange};
ghost use Rattle.run_core.specs.Commands.{input_of, limit_of, nothing};
ghost use Rattle.run_core.specs.Run.{usage, Finishes, IsCut, Refuses, IsOfWork, HasRead, CanRead, IsTooLarge, IsPast, ended, check_ended};
ghost use Rattle.byte_streams.specs.Stream.{Rose, AppendsPrefix};

use crate::check::{Checked, check};
use crate::limits::limit_read;
use crate::status::Status;
use crate::upgrade::upgrade;
use crate::work::{Work, work_of};
use byte_streams::{ReadStop, Sink, Source, read_all, write_all};
use command_line::{Command, NoCommand, order_of};
use conversion::{Rows, WriteStop, count, print};
use jobs_core::{Gate, Tools};
use oracle_core::Evaluator;
use std::alloc::{AllocError, Global};
use std::thread::Threads;

/// The line that is written where the arguments are in no form.
pub const USAGE: &str =
    "usage: calendrica convert | check | almanac YEAR | sample COUNT SEED | upgrade | east YEAR [--jobs N]\n";

/// How a run ends whose lines were written, with results in all or not, or that stopped there.
fn status_of(written: Result<bool, WriteStop>) -> Status
    ensures status { result ≡ ended written }
{
    match written {
        Ok(true) => Status::Done,
        Ok(false) => Status::Mixed,
        Err(WriteStop::Fault) => Status::WriteFault,
        Err(WriteStop::Memory) => Status::Memory,
    }
}

// A value, the whole input or nothing, of which alone the clauses of `run` speak.
/// Reads what a command reads: the whole input, or nothing.
fn read_input<S: Source>(
    alloc: Global,
    command: Command,
    source: &mut S,
) -> Result<Vec<u8>, ReadStop>
    ensures ok { IfOk result (λ input. HasRead (input_of command) (S.left source.old)
        (S.left source.new) input.items) }
    ensures short { IfOk result (λ input. length input.items ≤ limit_of command) }
    ensures too_large { IsErrOf result ReadStop.TooLarge → (taken : List ℕ)
        × Consumes (S.left source.old) (S.left source.new) taken × IsPast (input_of command) taken }
    ensures too_large_told { IsTooLarge (input_of command) (S.left source.old)
        → ¬ Rose (S.faults source.old) (S.faults source.new)
        → IsErrOf result ReadStop.TooLarge ⊎ IsErrOf result ReadStop.Memory }
    ensures finished { CanRead (input_of command) (S.left source.old)
        → ¬ Rose (S.faults source.old) (S.faults source.new)
        → IsErrOf result ReadStop.Memory ⊎ IsOk result }
    ensures fault { IsErrOf result ReadStop.Fault → Rose (S.faults source.old) (S.faults source.new) }
    ensures later { S.faults source.old ≤ S.faults source.new }
    ensures unread { input_of command ≡ nothing → source.new ≡ source.old }
{
    match limit_read(command) {
        Some(limit) => read_all(alloc, source, limit),
        None => Ok(Vec::new(alloc)),
    }
}

/// How work on a certificate ends: with each verdict yes or each line a result, or not, with bytes that aren't such a file, or
/// where it stopped.
pub(crate) fn status_of_check(checked: Result<Checked, WriteStop>) -> Status
    ensures status { result ≡ check_ended checked }
{
    match checked {
        Ok(Checked::AllYes) => Status::Done,
        Ok(Checked::NotAll) => Status::Mixed,
        Ok(Checked::BadText) => Status::BadText,
        Err(WriteStop::Fault) => Status::WriteFault,
        Err(WriteStop::Memory) => Status::Memory,
    }
}

/// Does what a command says with an input that was read whole.
fn obey<R: Threads + Sync, K: Sink, E: Evaluator + Sync, G: Gate + Sync>(
    tools: &Tools<'_, R, E, G>,
    sink: &mut K,
    command: Command,
    input: &[u8],
) -> Status
    requires short { length input.now ≤ limit_of command }
    requires ranges { IsInRange command }
    ensures done { result ≡ Status.Done → Finishes command (K.written sink.old)
        (K.written sink.new) input.now true }
    ensures mixed { result ≡ Status.Mixed → Finishes command (K.written sink.old)
        (K.written sink.new) input.now false }
    ensures bad_text { result ≡ Status.BadText → Refuses command (K.written sink.old)
        (K.written sink.new) input.now }
    ensures cut { result ≡ Status.WriteFault → IsCut command (K.written sink.old)
        (K.written sink.new) input.now }
    ensures memory { result ≡ Status.Memory →
        Keeps (K.written sink.old) (K.written sink.new)
        ⊎ IsCut command (K.written sink.old) (K.written sink.new) input.now }
    ensures cause { result ≡ Status.WriteFault → Rose (K.faults sink.old) (K.faults sink.new) }
    ensures later { K.faults sink.old ≤ K.faults sink.new }
    ensures work { IsOfWork result }
{
    match work_of(tools.alloc, command, input) {
        Ok(Work::Print(rows)) => status_of(print(tools, sink, &rows)),
        Ok(
            Work::Count {
                rows,
                count: many,
                seed,
            },
        ) => { status_of(count(tools, sink, &rows, many, seed)) }
        Ok(Work::Judge) => status_of_check(check(tools, sink, input)),
        Ok(Work::Renew) => status_of_check(upgrade(tools, sink, input)),
        Err(AllocError) => Status::Memory,
    }
}

/// Writes the usage line.
fn refuse_words<K: Sink>(sink: &mut K) -> Status
    ensures words { result ≡ Status.Words → Appends (K.written sink.old) (K.written sink.new) usage }
    ensures cut { result ≡ Status.WriteFault → AppendsPrefix (K.written sink.old)
        (K.written sink.new) usage }
    ensures either { (result ≡ Status.Words) ⊎ (result ≡ Status.WriteFault) }
    ensures cause { result ≡ Status.WriteFault → Rose (K.faults sink.old) (K.faults sink.new) }
    ensures later { K.faults sink.old ≤ K.faults sink.new }
{
    match write_all(sink, USAGE.as_bytes()) {
        Ok(()) => Status::Words,
        Err(_) => Status::WriteFault,
    }
}

/// All that the program does: looks at its arguments, reads the whole input, computes, and writes. The arguments name a command:
/// `convert`, which writes the outcome of each line of the input; `check`, which writes a verdict for each line of a
/// certificate, whoever made it; `upgrade`, which writes the outcomes of the lines of a certificate of an older version, by the
/// version that is written; `almanac YEAR` or `east YEAR`, which write the outcomes of the lines of an almanac, or of those of the
/// months of a year in the calendars of the east; or `sample COUNT SEED`, which writes one line of counts of the outcomes of a
/// sample's lines. The last three read nothing. Other arguments are answered by a usage line.
///
/// `Done` says that each line has a result, or that each verdict is yes, `Mixed` that some line or verdict isn't so,
/// `Words` that the arguments are in no form and the usage line is written, `ReadFault` and `WriteFault` that a read or a
/// write failed, `Memory` that memory ran out, `TooLarge` that the input has more bytes than the limit (4,194,304, or
/// 268,435,456 under `check` and `upgrade`), and `BadText` that the bytes to check aren't in the grammar, or those to upgrade no
/// file of an older version, and a line says why.
///
/// The outcomes of lines, or the answers for the facts of a certificate, are computed in as many chunks as the arguments give by
/// `--jobs`, 1 to 64, or in one. Each chunk is worked in a thread of its own where one can be had, and `gate` is told as it begins;
/// verdicts, text and writing are the work of one thread. The contract holds under every schedule: `run` starts its threads itself,
/// and each clause speaks of whatever it returns, and names neither an order of threads nor the number of threads.
pub fn run<R: Threads + Sync, S: Source, K: Sink, E: Evaluator + Sync, G: Gate + Sync>(
    rt: &R,
    alloc: Global,
    words: &[String],
    source: &mut S,
    sink: &mut K,
    evaluator: &E,
    gate: &G,
) -> Status
    // At Done and Mixed what the command reads was read to its end, and the whole text stands for
    // it; Done exactly where every
    // outcome is a result, under `check` where every verdict is yes.
    ensures done { result ≡ Status.Done → (c : Command) ×
        (named (map string_bytes words.now) ≡ Some c)
        × (input : List ℕ) × HasRead (input_of c) (S.left source.old) (S.left source.new) input
        × Finishes c (K.written sink.old) (K.written sink.new) input true }
    ensures mixed { result ≡ Status.Mixed → (c : Command)
        × (named (map string_bytes words.now) ≡ Some c)
        × (input : List ℕ) × HasRead (input_of c) (S.left source.old) (S.left source.new) input
        × Finishes c (K.written sink.old) (K.written sink.new) input false }
    // BadText comes only under `check` and `upgrade`, where the bytes read to their end aren't in
    // the grammar, or have the header that `upgrade` doesn't take.
    ensures bad_text { result ≡ Status.BadText → (c : Command)
        × (named (map string_bytes words.now) ≡ Some c)
        × (input : List ℕ) × HasRead (input_of c) (S.left source.old) (S.left source.new) input
        × Refuses c (K.written sink.old) (K.written sink.new) input }
    // Words comes exactly where the arguments are in no form, unless the usage line can't be written
    // or memory runs out. Nothing is read then.
    ensures words { result ≡ Status.Words → Appends (K.written sink.old) (K.written sink.new) usage }
    ensures words_only { result ≡ Status.Words → named (map string_bytes words.now) ≡ None }
    ensures words_refused { named (map string_bytes words.now) ≡ None
        → (result ≡ Status.Words) ⊎ (result ≡ Status.WriteFault) ⊎ (result ≡ Status.Memory) }
    ensures words_unread { named (map string_bytes words.now) ≡ None → source.new ≡ source.old }
    // Nothing is read under `almanac`, `east` and `sample` either.
    ensures unread { (c : Command) → named (map string_bytes words.now) ≡ Some c
        → input_of c ≡ nothing → source.new ≡ source.old }
    // Faults have a cause.
    ensures read_fault { result ≡ Status.ReadFault → Rose (S.faults source.old)
        (S.faults source.new) }
    ensures write_fault { result ≡ Status.WriteFault → Rose (K.faults sink.old) (K.faults sink.new) }
    ensures source_later { S.faults source.old ≤ S.faults source.new }
    ensures sink_later { K.faults sink.old ≤ K.faults sink.new }
    // TooLarge comes only where the source gave more bytes than the limit; and where it tells
    // more, nothing else comes but a fault or out of memory.
    ensures too_large { result ≡ Status.TooLarge → (c : Command)
        × (named (map string_bytes words.now) ≡ Some c)
        × (taken : List ℕ) × Consumes (S.left source.old) (S.left source.new) taken
        × IsPast (input_of c) taken }
    ensures too_large_told { (c : Command) → named (map string_bytes words.now) ≡ Some c
        → IsTooLarge (input_of c) (S.left source.old)
        → ¬ Rose (S.faults source.old) (S.faults source.new)
        → (result ≡ Status.TooLarge) ⊎ (result ≡ Status.Memory) }
    // Nothing is written at a fault of reading and for an input that is too large.
    ensures unwritten { (result ≡ Status.ReadFault) ⊎ (result ≡ Status.TooLarge)
        → sink.new ≡ sink.old }
    // What a cut leaves is a prefix of such a text.
    ensures cut { result ≡ Status.WriteFault → (c : Command)
        → named (map string_bytes words.now) ≡ Some c →
        (input : List ℕ) × HasRead (input_of c) (S.left source.old) (S.left source.new) input
        × IsCut c (K.written sink.old) (K.written sink.new) input }
    ensures cut_usage { result ≡ Status.WriteFault → named (map string_bytes words.now) ≡ None →
        AppendsPrefix (K.written sink.old) (K.written sink.new) usage }
    ensures memory { result ≡ Status.Memory → Keeps (K.written sink.old) (K.written sink.new)
        ⊎ (c : Command) × (named (map string_bytes words.now) ≡ Some c)
        × (input : List ℕ) × HasRead (input_of c) (S.left source.old) (S.left source.new) input
        × IsCut c (K.written sink.old) (K.written sink.new) input }
    // With the arguments in the form, an input within the limit and no new fault, the run is finished,
    // unless memory runs out.
    ensures finished { (c : Command) → named (map string_bytes words.now) ≡ Some c
        → CanRead (input_of c) (S.left source.old)
        → ¬ Rose (S.faults source.old) (S.faults source.new)
        → ¬ Rose (K.faults sink.old) (K.faults sink.new)
        → (result ≡ Status.Done) ⊎ (result ≡ Status.Mixed) ⊎ (result ≡ Status.BadText)
        ⊎ (result ≡ Status.Memory) }
{
    let order = match order_of(alloc, words) {
        Ok(order) => order,
        Err(NoCommand::Form) => return refuse_words(sink),
        Err(NoCommand::Memory) => return Status::Memory,
    };
    let command = order.command;
    let input = match read_input(alloc, command, source) {
        Ok(input) => input,
        Err(ReadStop::Fault) => return Status::ReadFault,
        Err(ReadStop::Memory) => return Status::Memory,
        Err(ReadStop::TooLarge) => return Status::TooLarge,
    };
    let tools = Tools {
        rt,
        alloc,
        evaluator,
        jobs: order.jobs,
        gate,
    };
    obey(&tools, sink, command, &input)
}
