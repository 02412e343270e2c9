//! Verdicts of a file by rounds of lines, whose verdicts the threads of a run find.
ghost use Rattle.std.specs.Prelude.{◌≡◌, ◌≤◌, ◌<◌, ◌+◌, ◌^◌, length, IfOk, IsErrOf};
ghost use Rattle.std.specs.List.{list_all};
ghost use Rattle.byte_streams.specs.Stream.{Rose};
ghost use Rattle.cert_check.specs.Verdicts.{AreRightAnswers, IsCheckable, line_at, verdict_of};
ghost use Rattle.conversion.specs.Writing.{WritesAll, WritesPrefix};
ghost use Rattle.run_core.specs.Checking as spec;

use crate::check::{Counts, put_counts, put_verdicts};
use byte_streams::{Gathered, Sink};
use cert_check::{Verdict, check_line};
use cert_parser::CertFile;
use conversion::WriteStop;
use jobs_core::{Gate, OpenGate, Tools, map_places};
use oracle_core::{Answers, Evaluator};
use std::alloc::AllocError;
use std::thread::Threads;

// A list of all verdicts would take up to four times as much as the file; these take 400 kB, and
// threads are started once for some ten milliseconds of work.
/// The verdicts of so many lines are found together.
const ROUND: usize = 4096;

/// The verdicts of so many lines of a file, from one on. The lines are dealt to threads as rows are. The error comes where memory
/// runs out.
fn verdicts_from<R: Threads + Sync, E: Evaluator + Sync, G: Gate + Sync>(
    tools: &Tools<'_, R, E, G>,
    file: &CertFile,
    answers: &Answers,
    first: usize,
    count: usize,
) -> Result<Vec<Verdict>, AllocError>
    requires checkable { IsCheckable file.now }
    requires right { AreRightAnswers file.now.facts answers.now }
    requires within { first + count ≤ length file.now.lines }
    requires few { first + count < 2 ^ 64 }
    ensures verdicts { IfOk result (λ all. spec.AreVerdictsFrom file.now answers.now first
        all.items) }
    ensures len { IfOk result (λ all. length all.items ≡ count) }
{
    let alloc = tools.alloc;
    map_places(
        tools.rt,
        alloc,
        count,
        tools.jobs,
        &OpenGate,
        &|place: usize| -> Result<Verdict, AllocError>
            requires { (first + place < length file.now.lines) × (first + place < 2 ^ 64)
                × IsCheckable file.now × AreRightAnswers file.now.facts answers.now }
            ensures { IfOk result (λ v. v ≡ verdict_of file.entry.now.version
                file.entry.now.facts answers.entry.now (line_at file.entry.now (first + place))) }
        { check_line(alloc, file, answers, first + place) },
    )
}

/// Writes the verdicts of the lines of a file, as `write_verdicts` does, by rounds.
pub(crate) fn write_by_rounds<R: Threads + Sync, K: Sink, E: Evaluator + Sync, G: Gate + Sync>(
    tools: &Tools<'_, R, E, G>,
    sink: &mut K,
    file: &CertFile,
    answers: &Answers,
) -> Result<bool, WriteStop>
    requires checkable { IsCheckable file.now }
    requires right { AreRightAnswers file.now.facts answers.now }
    ensures ok { WritesAll K.written sink.old sink.new
        (spec.verdicts_text (spec.verdicts_of file.now answers.now)) result }
    ensures yes { IfOk result (λ all. all
        ≡ list_all spec.is_yes (spec.verdicts_of file.now answers.now)) }
    ensures err { WritesPrefix K.written sink.old sink.new
        (spec.verdicts_text (spec.verdicts_of file.now answers.now)) result }
    ensures fault { IsErrOf result WriteStop.Fault → Rose (K.faults sink.old) (K.faults sink.new) }
    ensures later { K.faults sink.old ≤ K.faults sink.new }
{
    let mut pending = Gathered::new(tools.alloc);
    let mut counts = Counts {
        yes: 0,
        no: 0,
        skip: 0,
    };
    let mut first = 0;
    while first < file.lines.len() {
        let count = (file.lines.len() - first).min(ROUND);
        let verdicts = verdicts_from(tools, file, answers, first, count)?;
        put_verdicts(sink, &mut pending, &mut counts, first, &verdicts)?;
        first += count;
    }
    put_counts(sink, &mut pending, counts)?;
    Ok(counts.are_all_yes())
}
