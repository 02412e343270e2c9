//! What comes of a row.
ghost use Rattle.std.specs.Prelude.{◌≡◌, IsTrue, IfOk, OnErr, Ok};
ghost use Rattle.book_model.specs.lines.Outcomes.{IsRightForRow};
ghost use Rattle.book_model.specs.lines.Requests.{is_possible, is_in_reach};
ghost use Rattle.book_model.specs.lines.Outcomes.{resolved as resolved_by};
ghost use Rattle.jobs_core.specs.Outcomes.{line_outcome, halt_outcome, CanResolve, ComesOfStop, HasNoOutcome};

use crate::Row;
use crate::line_facts::LineFacts;
use crate::shown::ShownValue;
use book_model::{Fact, Request, Resolved, Rule, Site, Undecided, WRITTEN};
use line_core::resolve;
use oracle_core::{Asking, Evaluator, FactValues, Kept, Stop};
use std::alloc::{AllocError, Global};

// With a single fact in itself, as `FactValues` has it, a result would take 16 bytes more.
/// The result of a line, and the facts with their values on which it rests, in order of first use.
#[derive(Drop)]
pub struct Finding {
    pub resolved: Resolved,
    pub facts: LineFacts,
}

// An early return of an oracle at a missing fact or out of memory is no outcome.
/// Why a line that breaks no rule has no result: a fact that it asks is undecided or void.
#[derive(Clone, Copy)]
pub enum Halt {
    Undecided(Fact, Undecided),
    Void(Fact, Site),
}

// So a line that breaks a rule takes 16 bytes in place of 80.
/// What comes of a line: it breaks a rule; it shows the value of one fact; it has any other result; or it has none. What is longer
/// than two words stands in a box, so that an outcome has two words.
#[derive(Drop)]
pub enum Outcome {
    Refused(Rule),
    Shown(ShownValue),
    Found(Box<Finding>),
    Halted(Box<Halt>),
}

// A plain `Vec`, since the lists of chunks are joined by moving them.
/// Outcomes, in the order of the rows.
pub type Outcomes = Vec<Outcome>;

/// Why a line has no result whose facts are asked up to this early return of an oracle over an evaluator. The error comes where
/// memory ran out, and at a missing fact, of which such an oracle has none.
fn halt_at(stop: Stop) -> Result<Halt, AllocError>
    ensures stopped { IfOk result (λ halt. ComesOfStop stop (halt_outcome halt)) }
    ensures error { OnErr result (HasNoOutcome stop) }
{
    match stop {
        Stop::Undecided(fact, at) => Ok(Halt::Undecided(fact, at)),
        Stop::Void(fact, site) => Ok(Halt::Void(fact, site)),
        Stop::Missing(_) | Stop::Memory => Err(AllocError),
    }
}

/// A result with the facts on which it rests. The error comes where memory runs out.
fn found(alloc: Global, resolved: Resolved, facts: Vec<(Fact, i64)>) -> Result<Outcome, AllocError>
    ensures found { IfOk result (λ outcome. line_outcome outcome ≡ resolved_by resolved facts.items) }
{
    let facts = LineFacts::of(alloc, facts)?;
    Ok(Outcome::Found(Box::new(alloc, Finding { resolved, facts })?))
}

/// A result that rests on one fact with its value. The error comes where memory runs out.
fn found_by_one(
    alloc: Global,
    resolved: Resolved,
    entry: [(Fact, i64); 1],
) -> Result<Outcome, AllocError>
    ensures found { IfOk result (λ outcome. line_outcome outcome ≡ resolved_by resolved entry) }
{
    if let Some(shown) = ShownValue::of(&resolved, entry[0]) {
        return Ok(Outcome::Shown(shown));
    }
    let mut facts = Vec::with_capacity(alloc, 1)?;
    facts.push(entry[0])?;
    found(alloc, resolved, facts)
}

/// A result by facts with their values. The error comes where memory runs out.
fn found_by(alloc: Global, resolved: Resolved, facts: FactValues) -> Result<Outcome, AllocError>
    ensures found { IfOk result (λ outcome. line_outcome outcome ≡ resolved_by resolved facts) }
{
    match facts.into_kept() {
        Kept::Empty => found(alloc, resolved, Vec::new(alloc)),
        Kept::One(entry) => found_by_one(alloc, resolved, entry),
        Kept::Many(facts) => found(alloc, resolved, facts),
    }
}

/// What comes of a request that breaks no rule by itself. The error comes where memory runs out.
fn outcome_of_request<E: Evaluator>(
    alloc: Global,
    evaluator: &E,
    request: &Request,
) -> Result<Outcome, AllocError>
    requires possible { IsTrue (is_possible request.now) }
    requires in_reach { IsTrue (is_in_reach WRITTEN request.now) }
    ensures right { IfOk result (λ outcome. IsRightForRow WRITTEN (Ok request.now)
        (line_outcome outcome)) }
{
    let mut asking = Asking::new(alloc, evaluator);
    match resolve(&mut asking, request, WRITTEN) {
        Ok(resolved) => found_by(alloc, resolved, asking.finish()),
        Err(stop) => Ok(Outcome::Halted(Box::new(alloc, halt_at(stop)?)?)),
    }
}

// It asks that the row may be resolved. One relation, book_model's, says what is right for a row
// and for its request.
/// What comes of a row, by the answers of the evaluator for the facts that it asks. The error comes where memory runs
/// out.
pub fn outcome_of<E: Evaluator>(
    alloc: Global,
    evaluator: &E,
    row: &Row,
) -> Result<Outcome, AllocError>
    requires resolvable { CanResolve row.now }
    ensures right { IfOk result (λ outcome. IsRightForRow WRITTEN row.now (line_outcome outcome)) }
{
    match row {
        Ok(request) => outcome_of_request(alloc, evaluator, request),
        Err(rule) => Ok(Outcome::Refused(*rule)),
    }
}
