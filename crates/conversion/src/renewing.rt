//! What an upgrade makes of the lines of a certificate.
ghost use Rattle.std.specs.Prelude.{◌≡◌, ◌≤◌, ◌<◌, length, map, All, IfOk, slice_index_or};
ghost use Rattle.std.specs.List.{AllZip};
ghost use Rattle.book_model.specs.declared.version.TheConstants.{WRITTEN};
ghost use Rattle.book_model.specs.lines.Outcomes.{IsRightFor};
ghost use Rattle.book_model.specs.lines.Requests.{request_of};
ghost use Rattle.cert_parser.specs.Reading.{HasRule};
ghost use Rattle.jobs_core.specs.Outcomes.{CanResolve, line_outcome};
ghost use Rattle.conversion.specs.Echoes.{echo_line};
ghost use Rattle.conversion.specs.Renewing as spec;
ghost use Rattle.conversion.specs.Writing.{Performs};

use crate::echoes::{Echoes, words_of_echo};
use crate::outcome::all_found;
use crate::text::{WriteStop, write_text};
use book_model::{Rule, WRITTEN};
use byte_streams::Sink;
use cert_text::{CertLine, Echo};
use jobs_core::{Gate, Halt, Outcome, Outcomes, Row, Tools, map_places, outcome_of};
use line_core::read_words;
use oracle_core::Evaluator;
use shelf_core::{Shelf, Shelved};
use std::alloc::{AllocError, Global};
use std::thread::Threads;

/// What the words of an echo ask, or the first rule that they break.
fn row_of_echo(echo: &Echo) -> Row
    ensures row { result ≡ request_of WRITTEN (echo_line echo.now) }
    ensures resolvable { CanResolve result }
{
    read_words(words_of_echo(echo), WRITTEN)
}

/// What comes of the words of an echo. The error comes where memory runs out.
fn outcome_of_echo<E: Evaluator>(
    alloc: Global,
    evaluator: &E,
    echo: &Echo,
) -> Result<Outcome, AllocError>
    ensures right { IfOk result (λ outcome. IsRightFor WRITTEN (echo_line echo.now)
        (line_outcome outcome)) }
{
    let row = row_of_echo(echo);
    outcome_of(alloc, evaluator, &row)
}

/// The rule of a number, from 1 to 4.
fn rule_numbered(number: u8) -> Rule
    requires from { 1 ≤ number }
    requires to { number ≤ 4 }
    ensures rule { result ≡ spec.rule_numbered number }
{
    match number {
        1 => Rule::Syntax,
        2 => Rule::Calendar,
        3 => Rule::Field,
        _ => Rule::Range,
    }
}

// The file may be anyone's: neither its facts nor its results are used. A line without words has
// nothing to be computed from, and that it says what is so is claimed nowhere.
/// What an upgrade makes of a line of a file: what comes of its words, whatever the line says; a line without words stays
/// as it is. The error comes where memory runs out.
fn renewed<E: Evaluator>(
    alloc: Global,
    evaluator: &E,
    line: &CertLine,
) -> Result<Outcome, AllocError>
    requires rule { HasRule line.now }
    ensures renews { IfOk result (λ outcome. spec.Renews line.now (line_outcome outcome)) }
{
    match line {
        CertLine::Shown { echo, .. } => outcome_of_echo(alloc, evaluator, echo),
        CertLine::TooFar { echo, .. } => outcome_of_echo(alloc, evaluator, echo),
        CertLine::NoDate { echo, .. } => outcome_of_echo(alloc, evaluator, echo),
        CertLine::Refused(number) => Ok(Outcome::Refused(rule_numbered(*number))),
        CertLine::Undecided { fact, at } => {
            Ok(Outcome::Halted(Box::new(alloc, Halt::Undecided(*fact, *at))?))
        }
        CertLine::Void { fact, site } => {
            Ok(Outcome::Halted(Box::new(alloc, Halt::Void(*fact, *site))?))
        }
    }
}

/// What an upgrade makes of each line of a file, in order. Lines are dealt to threads as rows are, and each fact is evaluated
/// once, or a few times where threads ask it at the same time. The error comes where memory runs out.
fn renewed_lines<R: Threads + Sync, E: Evaluator + Sync, G: Gate + Sync>(
    tools: &Tools<'_, R, E, G>,
    lines: &[CertLine],
) -> Result<Outcomes, AllocError>
    requires rules { All HasRule lines.now }
    ensures renews { IfOk result (λ outcomes. AllZip spec.Renews lines.now
        (map line_outcome outcomes.items)) }
{
    let alloc = tools.alloc;
    let evaluator = tools.evaluator;
    let shelf = Shelf::open(alloc)?;
    map_places(
        tools.rt,
        alloc,
        lines.len(),
        tools.jobs,
        tools.gate,
        &|place: usize| -> Result<Outcome, AllocError>
            requires { (place < length lines.now) × All HasRule lines.now }
            ensures { IfOk result (λ outcome. (d : _)
                → spec.Renews (slice_index_or lines.entry.now place d) (line_outcome outcome)) }
        {
            renewed(
                alloc,
                &Shelved::new(alloc, &shelf, evaluator),
                &lines[place],
            )
        },
    )
}

/// Writes the text of what an upgrade makes of the lines of a file, and says whether all have results.
pub fn renew<R: Threads + Sync, K: Sink, E: Evaluator + Sync, G: Gate + Sync>(
    tools: &Tools<'_, R, E, G>,
    sink: &mut K,
    lines: &[CertLine],
) -> Result<bool, WriteStop>
    requires rules { All HasRule lines.now }
    ensures performs { Performs K.written K.faults sink.old sink.new
        (spec.Renewed (K.written sink.old) (K.written sink.new) lines.now)
        (spec.RenewedCutShort (K.written sink.old) (K.written sink.new) lines.now) result }
{
    let outcomes = renewed_lines(tools, lines)?;
    write_text(tools.alloc, sink, &Echoes::Printed(lines), &outcomes)?;
    Ok(all_found(&outcomes))
}
