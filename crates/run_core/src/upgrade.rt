//! Upgrades a certificate of an older version.
ghost use Rattle.std.specs.Prelude.{◌≡◌, ◌≤◌, length};
ghost use Rattle.book_model.specs.lines.Lines.{lines_of};
ghost use Rattle.book_model.specs.declared.version.TheConstants.{WRITTEN as written};
ghost use Rattle.cert_parser.specs.Reading.{Answers};
ghost use Rattle.cert_parser.specs.declared.read.TheConstants.{LONGEST_FILE as longest_file};
ghost use Rattle.conversion.specs.Writing.{Performs};
ghost use Rattle.run_core.specs.Upgrading as spec;

use crate::check::{Checked, write_fail};
use book_model::WRITTEN;
use byte_streams::Sink;
use cert_parser::{CertFile, ReadFail, read_file};
use conversion::{WriteStop, renew};
use jobs_core::{Gate, Tools};
use line_core::cut_line;
use oracle_core::Evaluator;
use std::alloc::Global;
use std::thread::Threads;

/// Whether the first line of bytes is the header of the version that is written.
fn is_written(bytes: &[u8]) -> bool
    ensures header { result ≡ spec.has_header written (lines_of bytes.now) }
{
    match cut_line(bytes) {
        Some((first, _)) => first == WRITTEN.header().as_bytes(),
        None => false,
    }
}

// So that nothing is taken for upgraded that only looks so.
/// The file of an older version that the bytes are. A file of the version that is written is refused by its first line, whatever
/// follows.
#[tactic(auto, unfolding(crate::specs::Upgrading::upgradable))]
fn read_older(alloc: Global, bytes: &[u8]) -> Result<CertFile, ReadFail>
    requires short { length bytes.now ≤ longest_file }
    ensures { Answers result (spec.upgradable bytes.now) }
{
    if is_written(bytes) {
        Err(ReadFail::Bad { line: 1, rule: 1 })
    } else {
        read_file(alloc, bytes)
    }
}

/// Upgrades bytes, whoever made them: writes the text of the outcomes of the lines of a file of an older version by the version that
/// is written, each by its words alone, and a line without words as it stands; or the line that says why the bytes are no such
/// file.
pub(crate) fn upgrade<R: Threads + Sync, K: Sink, E: Evaluator + Sync, G: Gate + Sync>(
    tools: &Tools<'_, R, E, G>,
    sink: &mut K,
    input: &[u8],
) -> Result<Checked, WriteStop>
    requires short { length input.now ≤ longest_file }
    ensures performs { Performs K.written K.faults sink.old sink.new
        (spec.Becomes (K.written sink.old) (K.written sink.new) input.now)
        (spec.UpgradeCutShort (K.written sink.old) (K.written sink.new) input.now) result }
{
    match read_older(tools.alloc, input) {
        Ok(file) => {
            let is_whole = renew(tools, sink, file.lines.entries())?;
            Ok(Checked::of(is_whole))
        }
        Err(fail) => write_fail(sink, fail),
    }
}
