//! Checks a certificate: a verdict for each of its lines, and how many there are of each kind.
ghost use Rattle.std.specs.Prelude.{◌≡◌, ◌≤◌, ◌<◌, ◌==◌, ◌&&◌, ◌+◌, ◌-◌, ◌^◌, ◌++◌, length, map, filter, OnOk, IfOk, IsErrOf};
ghost use Rattle.std.specs.List.{list_all};
ghost use Rattle.cert_check.specs.Text.{counts_text};
ghost use Rattle.cert_check.specs.Verdicts.{AreRightAnswers, IsCheckable};
ghost use Rattle.cert_parser.specs.declared.read.TheConstants.{LONGEST_FILE as longest_file};
ghost use Rattle.byte_streams.specs.Stream.{Rose, Writes, Wrote};
ghost use Rattle.conversion.specs.Writing.{Performs, WritesAll, WritesPrefix};
ghost use Rattle.run_core.specs.Checking as spec;

use crate::rounds::write_by_rounds;
use book_model::Fact;
use byte_streams::{Failed, Gathered, Sink, write_two_counts};
use cert_check::{Verdict, check_line, write_counts, write_verdict};
use cert_parser::{CertFile, ReadFail, read_file};
use conversion::{MANY, WriteStop, count_of, number_after, write_if_many};
use jobs_core::{Gate, Tools, map_facts};
use oracle_core::{Answers, Evaluator};
use shelf_core::Shelf;
use std::alloc::{AllocError, Global};
use std::thread::Threads;

/// What comes of bytes that are to be a certificate: every verdict is yes, or every line a result; or one isn't; or the bytes
/// aren't such a file.
#[derive(Clone, Copy, Debug, PartialEq, Eq)]
pub(crate) enum Checked {
    AllYes,
    NotAll,
    BadText,
}

impl Checked {
    /// What comes of a certificate whose verdicts are all yes, or whose lines are all results, or not.
    pub(crate) fn of(all: bool) -> Checked
        ensures checked { result ≡ spec.checked all }
    {
        if all {
            Checked::AllYes
        } else {
            Checked::NotAll
        }
    }
}

/// How many verdicts are yes, a no and a skip.
#[derive(Clone, Copy, Debug, PartialEq, Eq)]
pub(crate) struct Counts {
    pub(crate) yes: usize,
    pub(crate) no: usize,
    pub(crate) skip: usize,
}

impl Counts {
    /// Counts a verdict.
    fn add(&mut self, verdict: &Verdict)
        requires few_yes { self.old.yes < 2 ^ 64 - 1 }
        requires few_no { self.old.no < 2 ^ 64 - 1 }
        requires few_skip { self.old.skip < 2 ^ 64 - 1 }
        ensures yes { self.new.yes ≡ spec.with_one (spec.is_yes verdict.now) self.old.yes }
        ensures no { self.new.no ≡ spec.with_one (spec.is_no verdict.now) self.old.no }
        ensures skip { self.new.skip ≡ spec.with_one (spec.is_skip verdict.now) self.old.skip }
    {
        match verdict {
            Verdict::Yes => self.yes += 1,
            Verdict::No(_) => self.no += 1,
            Verdict::Skip => self.skip += 1,
        }
    }

    /// Whether no verdict but yes was counted.
    pub(crate) fn are_all_yes(&self) -> bool
        ensures only { result ≡ ((self.now.no == 0) && (self.now.skip == 0)) }
    {
        self.no == 0 && self.skip == 0
    }
}

/// The facts of pairs, in order. The error comes where memory runs out.
fn facts_among(alloc: Global, pairs: &[(Fact, i64)]) -> Result<Vec<Fact>, AllocError>
    ensures facts { IfOk result (λ facts. facts.items ≡ map (λ pair. pair.0) pairs.now) }
{
    let mut facts = Vec::with_capacity(alloc, pairs.len())?;
    for pair in pairs {
        facts.push(pair.0)?;
    }
    Ok(facts)
}

/// An answer for each fact of a file, in order. The error comes where memory runs out.
fn answers_of<R: Threads + Sync, E: Evaluator + Sync, G: Gate + Sync>(
    tools: &Tools<'_, R, E, G>,
    file: &CertFile,
    shelf: &Shelf,
) -> Result<Answers, AllocError>
    ensures right { IfOk result (λ answers. AreRightAnswers file.now.facts answers) }
{
    let facts = facts_among(tools.alloc, file.facts.entries())?;
    map_facts(
        tools.rt,
        tools.alloc,
        &facts,
        shelf,
        tools.evaluator,
        tools.jobs,
        tools.gate,
    )
}

/// Puts the verdict of a line behind the bytes that wait, and writes them all once they are many.
#[tactic(auto, using(byte_streams::proofs::Flow::writing))]
fn put_verdict<K: Sink>(
    sink: &mut K,
    pending: &mut Gathered,
    count: usize,
    verdict: &Verdict,
) -> Result<(), WriteStop>
    ensures ok { OnOk result (Wrote (K.written sink.old) (K.written sink.new)
        (pending.old.bytes.items ++ spec.verdict_text (count + 1) verdict.now)
        pending.new.bytes.items) }
    ensures err { WritesPrefix K.written sink.old sink.new
        (pending.old.bytes.items ++ spec.verdict_text (count + 1) verdict.now) result }
    ensures fault { IsErrOf result WriteStop.Fault → Rose (K.faults sink.old) (K.faults sink.new) }
    ensures later { K.faults sink.old ≤ K.faults sink.new }
{
    let number = number_after(count)?;
    match write_verdict(pending, number, verdict) {
        Ok(()) => {
            write_if_many(sink, pending, MANY)?;
            Ok(())
        }
        Err(Failed) => Err(WriteStop::Memory),
    }
}

/// Writes the bytes that wait, and how many verdicts there are of each kind.
#[tactic(auto, using(byte_streams::proofs::Flow::writing))]
pub(crate) fn put_counts<K: Sink>(
    sink: &mut K,
    pending: &mut Gathered,
    counts: Counts,
) -> Result<(), WriteStop>
    ensures ok { WritesAll K.written sink.old sink.new (pending.old.bytes.items
        ++ counts_text counts.yes counts.no counts.skip) result }
    ensures err { WritesPrefix K.written sink.old sink.new
        (pending.old.bytes.items ++ counts_text counts.yes counts.no counts.skip) result }
    ensures fault { IsErrOf result WriteStop.Fault → Rose (K.faults sink.old) (K.faults sink.new) }
    ensures later { K.faults sink.old ≤ K.faults sink.new }
{
    let yes = count_of(counts.yes)?;
    let no = count_of(counts.no)?;
    let skip = count_of(counts.skip)?;
    match write_counts(pending, yes, no, skip) {
        Ok(()) => {
            write_if_many(sink, pending, 0)?;
            Ok(())
        }
        Err(Failed) => Err(WriteStop::Memory),
    }
}

/// Puts the verdicts of neighbouring lines, of which the first has the number after a count, behind the bytes that wait, writes these
/// where they are many, and counts them.
#[tactic(auto, using(byte_streams::proofs::Flow::writing))]
pub(crate) fn put_verdicts<K: Sink>(
    sink: &mut K,
    pending: &mut Gathered,
    counts: &mut Counts,
    count: usize,
    verdicts: &[Verdict],
) -> Result<(), WriteStop>
    requires few { count + length verdicts.now < 2 ^ 64 }
    requires few_yes { counts.old.yes ≤ count }
    requires few_no { counts.old.no ≤ count }
    requires few_skip { counts.old.skip ≤ count }
    ensures ok { OnOk result (Wrote (K.written sink.old) (K.written sink.new)
        (pending.old.bytes.items ++ spec.verdicts_after count verdicts.now)
        pending.new.bytes.items) }
    ensures yes { OnOk result (counts.new.yes
        ≡ counts.old.yes + length (filter spec.is_yes verdicts.now)) }
    ensures no { OnOk result (counts.new.no
        ≡ counts.old.no + length (filter spec.is_no verdicts.now)) }
    ensures skip { OnOk result (counts.new.skip
        ≡ counts.old.skip + length (filter spec.is_skip verdicts.now)) }
    ensures few_yes { OnOk result (counts.new.yes ≤ count + length verdicts.now) }
    ensures few_no { OnOk result (counts.new.no ≤ count + length verdicts.now) }
    ensures few_skip { OnOk result (counts.new.skip ≤ count + length verdicts.now) }
    ensures err { WritesPrefix K.written sink.old sink.new
        (pending.old.bytes.items ++ spec.verdicts_after count verdicts.now) result }
    ensures fault { IsErrOf result WriteStop.Fault → Rose (K.faults sink.old) (K.faults sink.new) }
    ensures later { K.faults sink.old ≤ K.faults sink.new }
{
    for index in 0..verdicts.len() {
        put_verdict(sink, pending, count + index, &verdicts[index])?;
        counts.add(&verdicts[index]);
    }
    Ok(())
}

// Each verdict is written as it is found, and none is kept: a list of them would take up to four
// times as much as the file.
/// Writes the verdicts of the lines of a file, numbered from 1, and how many there are of each kind, and says whether all are
/// yes, on the thread that calls. At an error a prefix of the text was written.
pub(crate) fn write_verdicts<K: Sink>(
    alloc: Global,
    sink: &mut K,
    file: &CertFile,
    answers: &Answers,
) -> Result<bool, WriteStop>
    requires checkable { IsCheckable file.now }
    requires right { AreRightAnswers file.now.facts answers.now }
    ensures ok { WritesAll K.written sink.old sink.new
        (spec.verdicts_text (spec.verdicts_of file.now answers.now)) result }
    ensures yes { IfOk result (λ all. all
        ≡ list_all spec.is_yes (spec.verdicts_of file.now answers.now)) }
    ensures err { WritesPrefix K.written sink.old sink.new
        (spec.verdicts_text (spec.verdicts_of file.now answers.now)) result }
    ensures fault { IsErrOf result WriteStop.Fault → Rose (K.faults sink.old) (K.faults sink.new) }
    ensures later { K.faults sink.old ≤ K.faults sink.new }
{
    let mut pending = Gathered::new(alloc);
    let mut counts = Counts {
        yes: 0,
        no: 0,
        skip: 0,
    };
    for index in 0..file.lines.len() {
        let verdict = check_line(alloc, file, answers, index)?;
        put_verdict(sink, &mut pending, index, &verdict)?;
        counts.add(&verdict);
    }
    put_counts(sink, &mut pending, counts)?;
    Ok(counts.are_all_yes())
}

/// Writes the line that names the first bad line of bytes, and the rule that it breaks.
#[tactic(auto, unfolding(crate::specs::Checking::bad_text))]
fn write_bad<K: Sink>(sink: &mut K, line: u32, rule: u8) -> Result<(), Failed>
    ensures { Writes K.written K.faults sink.old sink.new (spec.bad_text line rule) result }
{
    write_two_counts(sink, b"bad ", line, b" ", u32::from(rule))
}

/// Writes the line that says why bytes weren't read as such a file as a command takes.
pub(crate) fn write_fail<K: Sink>(sink: &mut K, fail: ReadFail) -> Result<Checked, WriteStop>
    ensures performs { Performs K.written K.faults sink.old sink.new
        (spec.TellsFail fail (K.written sink.old) (K.written sink.new))
        (spec.CutsFail fail (K.written sink.old) (K.written sink.new)) result }
{
    match fail {
        ReadFail::Bad { line, rule } => {
            write_bad(sink, line, rule)?;
            Ok(Checked::BadText)
        }
        ReadFail::Memory => Err(WriteStop::Memory),
    }
}

/// Writes the verdicts of the lines of a file, and says whether all are yes.
fn check_file<R: Threads + Sync, K: Sink, E: Evaluator + Sync, G: Gate + Sync>(
    tools: &Tools<'_, R, E, G>,
    sink: &mut K,
    file: &CertFile,
) -> Result<bool, WriteStop>
    requires checkable { IsCheckable file.now }
    ensures performs { Performs K.written K.faults sink.old sink.new
        (spec.ChecksFile (K.written sink.old) (K.written sink.new) file.now)
        (spec.CutsFile (K.written sink.old) (K.written sink.new) file.now) result }
{
    let shelf = Shelf::open(tools.alloc)?;
    let answers = answers_of(tools, file, &shelf)?;
    let is_right = write_by_rounds(tools, sink, file, &answers)?;
    Ok(is_right)
}

/// Checks bytes, whoever made them: writes the verdicts of the lines of a certificate, or the line that says why they
/// are none.
pub(crate) fn check<R: Threads + Sync, K: Sink, E: Evaluator + Sync, G: Gate + Sync>(
    tools: &Tools<'_, R, E, G>,
    sink: &mut K,
    input: &[u8],
) -> Result<Checked, WriteStop>
    requires short { length input.now ≤ longest_file }
    ensures performs { Performs K.written K.faults sink.old sink.new
        (spec.Comes (K.written sink.old) (K.written sink.new) input.now)
        (spec.CheckCutShort (K.written sink.old) (K.written sink.new) input.now) result }
{
    match read_file(tools.alloc, input) {
        Ok(file) => {
            let is_right = check_file(tools, sink, &file)?;
            Ok(Checked::of(is_right))
        }
        Err(fail) => write_fail(sink, fail),
    }
}
