//! An outcome for each row, and an answer for each fact.
ghost use Rattle.std.specs.Prelude.{◌≡◌, ◌≤◌, ◌<◌, ℕ, length, All, IfOk, slice_index_or};
ghost use Rattle.std.specs.List.{AllZip};
ghost use Rattle.oracle_core.specs.Answers.{IsRightAnswer};
ghost use Rattle.book_model.specs.declared.version.TheConstants.{WRITTEN};
ghost use Rattle.book_model.specs.lines.Outcomes.{IsRightForRow};
ghost use Rattle.jobs_core.specs.Outcomes.{line_outcome, CanResolve, AreRightForRows};

use crate::outcome::{Outcome, Outcomes, outcome_of};
use crate::{Gate, Row, map_places};
use book_model::Fact;
use oracle_core::{Answer, Answers, Evaluator};
use shelf_core::{Shelf, Shelved};
use std::alloc::{AllocError, Global};
use std::thread::Threads;

/// An outcome for each row, in the order of the rows, each right for its row, by the answers that are on the shelf and those of
/// the evaluator. The rows are dealt in turn to as many chunks as there are threads, whose sizes differ by at most one; each is
/// worked in a thread of its own where one can be had, and the gate is told once, as the chunk begins, also of an empty one. The
/// contract holds for every number of threads, every gate and every order in which threads run. The error comes where memory
/// runs out.
pub fn map_lines<R: Threads + Sync, E: Evaluator + Sync, G: Gate + Sync>(
    rt: &R,
    alloc: Global,
    rows: &[Row],
    shelf: &Shelf,
    evaluator: &E,
    jobs: usize,
    gate: &G,
) -> Result<Outcomes, AllocError>
    requires some { 1 ≤ jobs }
    requires few { jobs ≤ 64 }
    requires resolvable { All CanResolve rows.now }
    ensures right { IfOk result (λ outcomes. AreRightForRows rows.now outcomes.items) }
{
    map_places(
        rt,
        alloc,
        rows.len(),
        jobs,
        gate,
        &|place: usize| -> Result<Outcome, AllocError>
            requires { (place < length rows.now) × All CanResolve rows.now }
            ensures { IfOk result (λ outcome. (d : _)
                → IsRightForRow WRITTEN (slice_index_or rows.entry.now place d)
                (line_outcome outcome)) }
        { outcome_of(alloc, &Shelved::new(alloc, shelf, evaluator), &rows[place]) },
    )
}

/// Answers as a list. The error comes where memory runs out.
fn listed(alloc: Global, all: &[Answer]) -> Result<Answers, AllocError>
    ensures answers { IfOk result (λ answers. answers ≡ all.now) }
{
    let mut answers = Answers::new(alloc);
    for answer in all {
        answers.push(*answer)?;
    }
    Ok(answers)
}

/// An answer for each fact, in the order of the facts, each right for its fact: the answer that is on the shelf, or the
/// evaluator's. The facts are dealt to chunks as `map_lines` deals rows, and the gate is told in the same way. The error comes
/// where memory runs out.
pub fn map_facts<R: Threads + Sync, E: Evaluator + Sync, G: Gate + Sync>(
    rt: &R,
    alloc: Global,
    facts: &[Fact],
    shelf: &Shelf,
    evaluator: &E,
    jobs: usize,
    gate: &G,
) -> Result<Answers, AllocError>
    requires some { 1 ≤ jobs }
    requires few { jobs ≤ 64 }
    ensures right { IfOk result (λ answers. AllZip IsRightAnswer facts.now answers) }
{
    let answers = map_places(
        rt,
        alloc,
        facts.len(),
        jobs,
        gate,
        &|place: usize| -> Result<Answer, AllocError>
            requires { place < length facts.now }
            ensures { IfOk result (λ answer. (d : _)
                → IsRightAnswer (slice_index_or facts.entry.now place d) answer) }
        { Ok(shelf.answer(alloc, evaluator, facts[place])) },
    )?;
    listed(alloc, &answers)
}
