//! The answers for the facts of a file.
ghost use Rattle.std.specs.Prelude.{IfOk};
ghost use Rattle.cert_check.specs.Verdicts.{AreRightAnswers};

use book_model::Fact;
use cert_parser::CertFile;
use oracle_core::{Answers, Evaluator};
use std::alloc::{AllocError, Global};

/// The evaluator's answer for each of the facts, in order.
fn answers_for<E: Evaluator>(
    alloc: Global,
    facts: &[(Fact, i64)],
    evaluator: &E,
) -> Result<Answers, AllocError>
    ensures right { IfOk result (λ answers. AreRightAnswers facts.now answers) }
{
    let mut answers = Answers::new(alloc);
    for (fact, _) in facts {
        answers.push(evaluator.eval(*fact))?;
    }
    Ok(answers)
}

/// The evaluator's answer for each fact of the file, in order. The error comes where memory runs out.
pub fn check_facts<E: Evaluator>(
    alloc: Global,
    file: &CertFile,
    evaluator: &E,
) -> Result<Answers, AllocError>
    ensures right { IfOk result (λ answers. AreRightAnswers file.now.facts answers) }
{
    answers_for(alloc, file.facts.entries(), evaluator)
}
