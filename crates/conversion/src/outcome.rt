//! What comes of each row.
ghost use Rattle.std.specs.Prelude.{◌≡◌, map, IfOk};
ghost use Rattle.std.specs.List.{list_all};
ghost use Rattle.book_model.specs.declared.version.TheConstants.{WRITTEN};
ghost use Rattle.book_model.specs.lines.Outcomes.{AreRight, is_result, is_shown as shown_in};
ghost use Rattle.jobs_core.specs.Outcomes.{line_outcome};
ghost use Rattle.conversion.specs.Rows.{AreSpelledRows, lines_in};

use crate::rows::Rows;
use book_model::Resolved;
use jobs_core::{Gate, Outcome, Outcomes, Tools, map_lines};
use oracle_core::Evaluator;
use shelf_core::Shelf;
use std::alloc::AllocError;
use std::thread::Threads;

// What a line asks takes 36 bytes. A fault of the sink is met only once all is computed. The shelf
// is opened where facts are asked, so that no clause of `run` speaks of it.
/// What comes of each row, in order. Each fact is evaluated once, or a few times where threads ask it at the same time. What
/// the rows ask is dropped at the end, before anything is written. The error comes where memory runs out.
pub(crate) fn outcomes_of<R: Threads + Sync, E: Evaluator + Sync, G: Gate + Sync>(
    tools: &Tools<'_, R, E, G>,
    rows: &Rows<'_>,
) -> Result<Outcomes, AllocError>
    requires spelled { AreSpelledRows rows.now }
    ensures right { IfOk result (λ outcomes. AreRight WRITTEN (lines_in rows.now)
        (map line_outcome outcomes.items)) }
{
    let shelf = Shelf::open(tools.alloc)?;
    let asked = rows.asked(tools.rt, tools.alloc, tools.jobs)?;
    map_lines(
        tools.rt,
        tools.alloc,
        &asked,
        &shelf,
        tools.evaluator,
        tools.jobs,
        tools.gate,
    )
}

/// Whether a line gets what it asks for, and isn't refused by computing.
pub(crate) fn is_shown(resolved: &Resolved) -> bool
    ensures shown { result ≡ shown_in resolved.now }
{
    matches!(resolved, Resolved::Shown(_, _))
}

/// Whether an outcome is a result.
pub(crate) fn is_found(outcome: &Outcome) -> bool
    ensures { result ≡ is_result (line_outcome outcome.now) }
{
    match outcome {
        Outcome::Found(finding) => is_shown(&finding.resolved),
        Outcome::Shown(shown) => is_shown(&shown.resolved()),
        Outcome::Refused(_) | Outcome::Halted(_) => false,
    }
}

/// Whether all outcomes are results.
pub(crate) fn all_found(outcomes: &[Outcome]) -> bool
    ensures { result ≡ list_all (λ outcome. is_result (line_outcome outcome)) outcomes.now }
{
    outcomes.iter().all(is_found)
}
