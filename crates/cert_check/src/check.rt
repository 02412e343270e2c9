//! The verdict of a line.
ghost use Rattle.std.specs.Prelude.{◌≡◌, ◌≢◌, ◌<◌, ◌^◌, length, IsTrue, IfOk, OnErr, [], Ok};
ghost use Rattle.book_model.specs.declared.fact.Fact.{Fact};
ghost use Rattle.book_model.specs.lines.LineRules.{rule_of};
ghost use Rattle.oracle_core.specs.Pairs.{are_distinct, facts_of, AreFactValues};
ghost use Rattle.oracle_core.specs.declared.oracle.Stop.TheVariants.{Missing as missing_stop};
ghost use Rattle.cert_parser.specs.Reading.{are_of_facts, listed as numbers_of};
ghost use Rattle.cert_check.specs.Listed.{NamesMissing};
ghost use Rattle.cert_check.specs.Verdicts as spec;

use crate::compare::verdict_by_list;
use crate::listed::{first_reason, listed_facts, listed_values};
use crate::verdict::{Reason, Verdict};
use book_model::Fact;
use cert_parser::CertFile;
use cert_text::{CertLine, Echo, no_date_word, too_far_word};
use line_core::{Checked, ThreeWords, check_words, resolve_checked};
use oracle_core::{Answers, Listed, Stop};
use std::alloc::{AllocError, Global};

/// The verdict of a line whose rule returns early at a fact that it doesn't list. The error is that memory ran out; it
/// comes at no missing fact.
fn verdict_at(stop: Stop) -> Result<Verdict, AllocError>
    ensures missing { IfOk result (λ v. NamesMissing stop v) }
    ensures memory { OnErr result ((fact : Fact) → stop ≢ missing_stop fact) }
{
    match stop {
        Stop::Missing(fact) => Ok(Verdict::No(Reason::Missing(fact))),
        _ => Err(AllocError),
    }
}

/// The verdict of a line that lists these facts with their values, and shows this text, by what comes of its request over them.
fn verdict_over(
    alloc: Global,
    facts: &[Fact],
    values: &[i64],
    checked: &Checked,
    text: &[u8],
) -> Result<Verdict, AllocError>
    requires same { length facts.now ≡ length values.now }
    requires distinct { IsTrue (are_distinct facts.now) }
    requires known { AreFactValues values.now }
    requires few { length facts.now < 2 ^ 32 }
    ensures verdict { IfOk result (λ v. v ≡ spec.verdict_on_trace facts.now
        (spec.trace_after facts.now values.now [] (rule_of checked.now.version
        checked.now.request)) text.now) }
{
    let mut oracle = Listed::new(alloc, facts, values);
    match resolve_checked(&mut oracle, checked) {
        Ok(found) => verdict_by_list(alloc, oracle.asked(), facts, found, text),
        Err(stop) => verdict_at(stop),
    }
}

/// The verdict of a line with this request, which lists the facts with these numbers and shows this text.
fn verdict_for(
    alloc: Global,
    file: &CertFile,
    answers: &Answers,
    checked: &Checked,
    text: &[u8],
    numbers: &[u32],
) -> Result<Verdict, AllocError>
    requires distinct { IsTrue (are_distinct (facts_of file.now.facts)) }
    requires known { AreFactValues (spec.values_of file.now.facts) }
    requires numbers { IsTrue (are_of_facts (length file.now.facts) [] numbers.now) }
    requires answered { length answers.now ≡ length file.now.facts }
    requires version { checked.now.version ≡ file.now.version }
    ensures verdict { IfOk result (λ v. v ≡ spec.verdict_on_request file.now.version
        (Ok checked.now.request)
        (spec.first_unanswered file.now.facts answers.now numbers.now)
        (spec.numbered file.now.facts numbers.now) text.now) }
{
    match first_reason(&file.facts, answers, numbers) {
        Some(reason) => Ok(Verdict::No(reason)),
        None => {
            let facts = listed_facts(alloc, &file.facts, numbers)?;
            let values = listed_values(alloc, &file.facts, numbers)?;
            verdict_over(alloc, &facts, &values, checked, text)
        }
    }
}

/// The verdict of a line with these words, which lists the facts with these numbers and shows this text.
fn verdict_of_words(
    alloc: Global,
    file: &CertFile,
    answers: &Answers,
    echo: &Echo,
    text: &[u8],
    numbers: &[u32],
) -> Result<Verdict, AllocError>
    requires distinct { IsTrue (are_distinct (facts_of file.now.facts)) }
    requires known { AreFactValues (spec.values_of file.now.facts) }
    requires numbers { IsTrue (are_of_facts (length file.now.facts) [] numbers.now) }
    requires answered { length answers.now ≡ length file.now.facts }
    ensures verdict { IfOk result (λ v. v ≡ spec.verdict_on file.now.version file.now.facts
        answers.now (spec.words_of_echo echo.now) text.now numbers.now) }
{
    let words = ThreeWords {
        from: echo.from(),
        date: echo.date(),
        to: echo.to(),
    };
    match check_words(words, file.version) {
        Ok(checked) => verdict_for(alloc, file, answers, &checked, text, numbers),
        Err(rule) => Ok(Verdict::No(Reason::Form(rule.number()))),
    }
}

/// The verdict of a line.
pub(crate) fn verdict_of_line(
    alloc: Global,
    file: &CertFile,
    answers: &Answers,
    line: &CertLine,
) -> Result<Verdict, AllocError>
    requires distinct { IsTrue (are_distinct (facts_of file.now.facts)) }
    requires known { AreFactValues (spec.values_of file.now.facts) }
    requires numbers { IsTrue (are_of_facts (length file.now.facts) [] (numbers_of line.now)) }
    requires answered { length answers.now ≡ length file.now.facts }
    ensures verdict { IfOk result (λ v. v ≡ spec.verdict_of file.now.version file.now.facts
        answers.now line.now) }
{
    match line {
        CertLine::Shown {
            echo,
            result: text,
            facts,
        } => verdict_of_words(alloc, file, answers, echo, text.bytes(), facts.numbers()),
        CertLine::TooFar { echo, day, facts } => {
            let text = too_far_word(alloc, *day)?;
            verdict_of_words(alloc, file, answers, echo, text.bytes(), facts.numbers())
        }
        CertLine::NoDate { echo, back, facts } => {
            let text = no_date_word(alloc, back.bytes())?;
            verdict_of_words(alloc, file, answers, echo, text.bytes(), facts.numbers())
        }
        CertLine::Refused(_) | CertLine::Undecided { .. } | CertLine::Void { .. } => {
            Ok(Verdict::Skip)
        }
    }
}

/// The verdict of a line of the file, by the rules of its version and an answer for each of its facts. A line that is
/// undecided, void or refused without its words gets `Skip`. Any other gets the first reason that holds: `Form`; `Value`,
/// `Undecided` or `Void` for the first listed fact that wasn't answered by its listed value; `Missing`; `List`; `Date`.
/// It gets `Yes` where none does. A file of the grammar meets what is asked of its facts and of the numbers of its lines.
/// The error comes where memory runs out.
///
/// ```
/// let file = read_file(rt.alloc(), bytes)?;
/// let answers = check_facts(rt.alloc(), &file, &Staged::new())?;
/// if file.lines.len() > 0 {
///     let verdict = check_line(rt.alloc(), &file, &answers, 0)?; // Yes, where the first line is right
/// }
/// ```
pub fn check_line(
    alloc: Global,
    file: &CertFile,
    answers: &Answers,
    index: usize,
) -> Result<Verdict, AllocError>
    requires distinct { IsTrue (are_distinct (facts_of file.now.facts)) }
    requires known { AreFactValues (spec.values_of file.now.facts) }
    requires within { index < length file.now.lines }
    requires numbers { IsTrue (are_of_facts (length file.now.facts) []
        (numbers_of (spec.line_at file.now index))) }
    requires right { spec.AreRightAnswers file.now.facts answers.now }
    ensures verdict { IfOk result (λ v. v ≡ spec.verdict_of file.now.version file.now.facts
        answers.now (spec.line_at file.now index)) }
    ensures yes { IfOk result (λ v. v ≡ Verdict.Yes → spec.IsCertifiedLine file.now.version
        file.now.facts (spec.line_at file.now index)) }
{
    verdict_of_line(alloc, file, answers, file.lines.item(index))
}
