//! The facts that a line lists by their numbers.
ghost use Rattle.std.specs.Prelude.{◌≡◌, length, IfOk};
ghost use Rattle.oracle_core.specs.Pairs.{facts_of};
ghost use Rattle.cert_check.specs.Listed.{AreNumbers};
ghost use Rattle.cert_check.specs.Verdicts as spec;

use crate::verdict::Reason;
use book_model::Fact;
use oracle_core::{Answer, Answers, FactValues};
use smallvec::SmallVec;
use std::alloc::{AllocError, Global};

/// How many values stand in their list itself: most lines list no more facts.
const VALUES_ROOM: usize = 4;

/// The facts with these numbers, which count from 1.
pub(crate) fn listed_facts(
    alloc: Global,
    facts: &FactValues,
    numbers: &[u32],
) -> Result<Vec<Fact>, AllocError>
    requires numbers { AreNumbers (length facts.now) numbers.now }
    ensures facts { IfOk result (λ v. v.items ≡ facts_of (spec.numbered facts.now numbers.now)) }
{
    let mut listed = Vec::with_capacity(alloc, numbers.len())?;
    for number in numbers {
        let (fact, _) = facts.item(*number as usize - 1);
        listed.push(*fact)?;
    }
    Ok(listed)
}

/// The values of the facts with these numbers, which count from 1. A few take no memory of their own.
pub(crate) fn listed_values(
    alloc: Global,
    facts: &FactValues,
    numbers: &[u32],
) -> Result<SmallVec<i64, VALUES_ROOM>, AllocError>
    requires numbers { AreNumbers (length facts.now) numbers.now }
    ensures values { IfOk result (λ v. v.items ≡ spec.values_of
        (spec.numbered facts.now numbers.now)) }
{
    let mut listed = SmallVec::with_capacity(alloc, numbers.len())?;
    for number in numbers {
        let (_, value) = facts.item(*number as usize - 1);
        listed.push(*value)?;
    }
    Ok(listed)
}

/// Why the answer for a listed fact speaks against the line, if it does: it is another value than the listed one, or
/// none.
fn reason_against(number: u32, entry: &(Fact, i64), answer: &Answer) -> Option<Reason>
    ensures reason { result ≡ spec.reason_of number entry.now answer.now }
{
    match *answer {
        Answer::Value(found) => {
            if entry.1 == found {
                None
            } else {
                Some(Reason::Value {
                    fact: number,
                    listed: entry.1,
                    found,
                })
            }
        }
        Answer::Undecided(at) => Some(Reason::Undecided(entry.0, at)),
        Answer::Void(site) => Some(Reason::Void(entry.0, site)),
    }
}

/// Why the answer for the first of the facts with these numbers that wasn't answered by its listed value speaks
/// against the line; `None` where each was.
pub(crate) fn first_reason(facts: &FactValues, answers: &Answers, numbers: &[u32]) -> Option<Reason>
    requires numbers { AreNumbers (length facts.now) numbers.now }
    requires answered { length answers.now ≡ length facts.now }
    ensures reason { result ≡ spec.first_unanswered facts.now answers.now numbers.now }
{
    for number in numbers {
        let index = *number as usize - 1;
        if let Some(reason) = reason_against(*number, facts.item(index), answers.item(index)) {
            return Some(reason);
        }
    }
    None
}
