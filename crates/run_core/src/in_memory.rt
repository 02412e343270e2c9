//! Checks a certificate that stands in memory, on the thread that calls.
ghost use Rattle.std.specs.Prelude.{◌≡◌, ◌≤◌, ◌<◌, ◌⊎◌, true, false, length};
ghost use Rattle.std.specs.Io.KnownBytes.{Keeps};
ghost use Rattle.byte_streams.specs.Stream.{Rose};
ghost use Rattle.cert_check.specs.Verdicts.{IsCheckable};
ghost use Rattle.cert_parser.specs.Reading.{grammar_of};
ghost use Rattle.cert_parser.specs.declared.read.TheConstants.{LONGEST_FILE as longest_file};
ghost use Rattle.conversion.specs.Writing.{Performs};
ghost use Rattle.run_core.specs.Checking as spec;
ghost use Rattle.run_core.specs.Run.{IsOfCheck};

use crate::check::{Checked, write_fail, write_verdicts};
use crate::program::status_of_check;
use crate::status::Status;
use byte_streams::Sink;
use cert_check::check_facts;
use cert_parser::{CertFile, LONGEST_FILE, read_file};
use conversion::WriteStop;
use oracle_core::Evaluator;
use std::alloc::Global;

/// Writes the verdicts of the lines of a file by the answers of an evaluator, and says whether all are yes.
fn check_file_alone<K: Sink, E: Evaluator>(
    alloc: Global,
    sink: &mut K,
    evaluator: &E,
    file: &CertFile,
) -> Result<bool, WriteStop>
    requires checkable { IsCheckable file.now }
    ensures performs { Performs K.written K.faults sink.old sink.new
        (spec.ChecksFile (K.written sink.old) (K.written sink.new) file.now)
        (spec.CutsFile (K.written sink.old) (K.written sink.new) file.now) result }
{
    let answers = check_facts(alloc, file, evaluator)?;
    let is_right = write_verdicts(alloc, sink, file, &answers)?;
    Ok(is_right)
}

/// Checks bytes, whoever made them, by the answers of an evaluator: writes the verdicts of the lines of a certificate, or the
/// line that says why they are none.
fn check_alone<K: Sink, E: Evaluator>(
    alloc: Global,
    sink: &mut K,
    evaluator: &E,
    input: &[u8],
) -> Result<Checked, WriteStop>
    requires short { length input.now ≤ longest_file }
    ensures performs { Performs K.written K.faults sink.old sink.new
        (spec.Comes (K.written sink.old) (K.written sink.new) input.now)
        (spec.CheckCutShort (K.written sink.old) (K.written sink.new) input.now) result }
{
    match read_file(alloc, input) {
        Ok(file) => {
            let is_right = check_file_alone(alloc, sink, evaluator, &file)?;
            Ok(Checked::of(is_right))
        }
        Err(fail) => write_fail(sink, fail),
    }
}

/// Checks bytes in memory as `check` checks its input, on the thread that calls, by the answers of an evaluator: writes the
/// verdicts of the lines of a certificate, or the line that says why the bytes are none. `Done` says that each verdict is yes,
/// `Mixed` that one isn't, `BadText` that the bytes aren't in the grammar, `TooLarge` that they are more than 268,435,456,
/// `WriteFault` and `Memory` that a write failed or memory ran out.
pub fn check_bytes<K: Sink, E: Evaluator>(
    alloc: Global,
    sink: &mut K,
    evaluator: &E,
    input: &[u8],
) -> Status
    ensures done { result ≡ Status.Done → spec.ChecksText (K.written sink.old)
        (K.written sink.new) input.now true }
    ensures mixed { result ≡ Status.Mixed → spec.ChecksText (K.written sink.old)
        (K.written sink.new) input.now false }
    ensures bad_text { result ≡ Status.BadText → spec.RefusesText (grammar_of input.now)
        (K.written sink.old) (K.written sink.new) }
    ensures cut { result ≡ Status.WriteFault → spec.CheckCutShort (K.written sink.old)
        (K.written sink.new) input.now }
    ensures memory { result ≡ Status.Memory → Keeps (K.written sink.old) (K.written sink.new)
        ⊎ spec.CheckCutShort (K.written sink.old) (K.written sink.new) input.now }
    ensures too_large { result ≡ Status.TooLarge → (longest_file < length input.now)
        × (sink.new ≡ sink.old) }
    ensures only { IsOfCheck result }
    ensures cause { result ≡ Status.WriteFault → Rose (K.faults sink.old) (K.faults sink.new) }
    ensures later { K.faults sink.old ≤ K.faults sink.new }
{
    if input.len() <= LONGEST_FILE {
        status_of_check(check_alone(alloc, sink, evaluator, input))
    } else {
        Status::TooLarge
    }
}
