//! The text of rows while it is put together.
ghost use Rattle.std.specs.Prelude.{◌≡◌, ◌<◌, ◌+◌, ◌++◌, ◌∷◌, [], ℕ, List, if◌then◌else◌, length, IfOk, OnOk, IsOk, IsTrue};
ghost use Rattle.std.specs.List.{list_any, position_or_len};
ghost use Rattle.book_model.specs.calendars.Inquiries.{fact_eq};
ghost use Rattle.book_model.specs.declared.fact.Fact.{Fact as FactOf};
ghost use Rattle.book_model.specs.lines.Lines.{words_of};
ghost use Rattle.book_model.specs.lines.Text as model;
ghost use Rattle.cert_text.specs.Text as cert;
ghost use Rattle.jobs_core.specs.LineFacts.{pairs_in};
ghost use Rattle.jobs_core.specs.Outcomes.{halt_outcome, line_outcome};
ghost use Rattle.jobs_core.specs.Shown.{shown_outcome};
ghost use Rattle.conversion.specs.Echoes.{CanEcho, MayStand, echoed_at, echoed_lines};

use crate::echoes::Echoes;
use crate::listed::ListedFacts;
use crate::numbering::{NumberedFacts, number_after, number_fact};
use book_model::{Fact, Resolved};
use byte_streams::{Failed, Gathered};
use cert_text::{CertLine, Numbers, write_fact, write_line, write_list, write_result};
use jobs_core::{Finding, Halt, LineFacts, Outcome, ShownValue};
use std::alloc::{AllocError, Global};

/// The bytes that wait to be written, the facts that stand in the text, numbered in order of first use, and the numbers of the
/// facts that a line rests on, a list that is cleared and used again.
#[derive(Drop)]
pub(crate) struct Page {
    pub(crate) pending: Gathered,
    pub(crate) seen: NumberedFacts,
    numbers: Numbers,
}

/// What is gathered in memory can't be gathered only where memory runs out.
fn gathered(written: Result<(), Failed>) -> Result<(), AllocError>
    ensures ok { OnOk result (IsOk written) }
{
    match written {
        Ok(()) => Ok(()),
        Err(Failed) => Err(AllocError),
    }
}

/// The line of a row without a result.
fn halted_line(halt: &Halt) -> CertLine
    ensures text { (number : ℕ) (seen : List FactOf) (line : List ℕ) → cert.line_text number result
        ≡ model.block_text seen number line (halt_outcome halt.now) }
{
    match *halt {
        Halt::Undecided(fact, at) => CertLine::Undecided { fact, at },
        Halt::Void(fact, site) => CertLine::Void { fact, site },
    }
}

impl Page {
    /// An empty page, with room for the facts that are listed. The error comes where memory runs out.
    pub(crate) fn new(alloc: Global, listed: ListedFacts) -> Result<Page, AllocError>
        ensures pending { IfOk result (λ page. page.pending.bytes.items ≡ []) }
        ensures seen { IfOk result (λ page. page.seen ≡ []) }
    {
        Ok(Page {
            pending: Gathered::new(alloc),
            seen: NumberedFacts::new(alloc, listed)?,
            numbers: Numbers::new(alloc),
        })
    }

    /// Puts a fact with its value, where it is new, and adds its number to those of the line.
    fn put_fact(&mut self, entry: &(Fact, i64)) -> Result<(), AllocError>
        ensures seen { OnOk result (self.new.seen ≡ model.with_fact self.old.seen
            entry.now.0) }
        ensures numbers { OnOk result (self.new.numbers ≡ self.old.numbers
            ++ (position_or_len (fact_eq entry.now.0) self.old.seen + 1) ∷ []) }
        ensures text { OnOk result (self.new.pending.bytes.items ≡ self.old.pending.bytes.items
            ++ (if list_any (fact_eq entry.now.0) self.old.seen then []
            else model.fact_text (length self.old.seen + 1) entry.now.0 entry.now.1)) }
    {
        let numbered = number_fact(&mut self.seen, entry.0)?;
        self.numbers.push(numbered.number)?;
        if numbered.is_new {
            gathered(write_fact(&mut self.pending, numbered.number, entry))
        } else {
            Ok(())
        }
    }

    /// Puts the facts that are new, with their values; the numbers of the line are those of all.
    fn put_facts(&mut self, facts: &LineFacts) -> Result<(), AllocError>
        ensures seen { OnOk result (self.new.seen ≡ model.with_facts self.old.seen
            (pairs_in facts.now)) }
        ensures numbers { OnOk result (self.new.numbers ≡ model.numbers_of self.old.seen
            (pairs_in facts.now)) }
        ensures text { OnOk result (self.new.pending.bytes.items ≡ self.old.pending.bytes.items
            ++ model.new_facts_text self.old.seen (pairs_in facts.now)) }
    {
        self.numbers.clear();
        for index in 0..facts.len() {
            self.put_fact(&facts.pair(index))?;
        }
        Ok(())
    }

    /// Puts a fact with its value, where it is new; the only number of the line is its own.
    fn put_only(&mut self, pair: &(Fact, i64)) -> Result<(), AllocError>
        ensures seen { OnOk result (self.new.seen ≡ model.with_facts self.old.seen
            (pair.now ∷ [])) }
        ensures numbers { OnOk result (self.new.numbers ≡ model.numbers_of self.old.seen
            (pair.now ∷ [])) }
        ensures text { OnOk result (self.new.pending.bytes.items ≡ self.old.pending.bytes.items
            ++ model.new_facts_text self.old.seen (pair.now ∷ [])) }
    {
        self.numbers.clear();
        self.put_fact(pair)
    }

    /// Puts the line of a row with a result, which is written from the row's own words and the numbers.
    fn put_line(
        &mut self,
        echoes: &Echoes<'_>,
        index: usize,
        resolved: Resolved,
    ) -> Result<(), AllocError>
        requires can { CanEcho echoes.now }
        requires within { index < length (echoed_lines echoes.now) }
        requires three { length (words_of (echoed_at echoes.now index)) ≡ 3 }
        ensures seen { self.new.seen ≡ self.old.seen }
        ensures text { OnOk result (self.new.pending.bytes.items ≡ self.old.pending.bytes.items
            ++ model.listed_text (index + 1) (words_of (echoed_at echoes.now index))
            (model.result_text resolved) self.old.numbers) }
    {
        let number = number_after(index)?;
        gathered(echoes.write_echo(&mut self.pending, number, index))?;
        gathered(write_result(&mut self.pending, resolved))?;
        let numbers = self.numbers.numbers();
        gathered(write_list(&mut self.pending, numbers))
    }

    /// Puts the new facts of a row with a result, and its line.
    fn put_found(
        &mut self,
        echoes: &Echoes<'_>,
        index: usize,
        finding: &Finding,
    ) -> Result<(), AllocError>
        requires can { CanEcho echoes.now }
        requires within { index < length (echoed_lines echoes.now) }
        requires three { length (words_of (echoed_at echoes.now index)) ≡ 3 }
        ensures seen { OnOk result (self.new.seen ≡ model.with_facts self.old.seen
            (pairs_in finding.now.facts)) }
        ensures text { OnOk result (self.new.pending.bytes.items ≡ self.old.pending.bytes.items
            ++ (model.new_facts_text self.old.seen (pairs_in finding.now.facts)
            ++ model.listed_text (index + 1)
            (words_of (echoed_at echoes.now index)) (model.result_text finding.now.resolved)
            (model.numbers_of self.old.seen (pairs_in finding.now.facts)))) }
    {
        self.put_facts(&finding.facts)?;
        self.put_line(echoes, index, finding.resolved)
    }

    /// Puts the fact of a row that shows its value, where it is new, and the row's line.
    fn put_shown(
        &mut self,
        echoes: &Echoes<'_>,
        index: usize,
        shown: &ShownValue,
    ) -> Result<(), AllocError>
        requires can { CanEcho echoes.now }
        requires within { index < length (echoed_lines echoes.now) }
        requires three { length (words_of (echoed_at echoes.now index)) ≡ 3 }
        ensures seen { OnOk result (self.new.seen ≡ model.seen_after self.old.seen
            (shown_outcome shown.now)) }
        ensures text { OnOk result (self.new.pending.bytes.items ≡ self.old.pending.bytes.items
            ++ model.block_text self.old.seen (index + 1) (echoed_at echoes.now index)
            (shown_outcome shown.now)) }
    {
        self.put_only(&shown.entry())?;
        self.put_line(echoes, index, shown.resolved())
    }

    /// Puts a line that prints no facts.
    fn put_bare(&mut self, index: usize, line: &CertLine) -> Result<(), AllocError>
        ensures seen { self.new.seen ≡ self.old.seen }
        ensures text { OnOk result (self.new.pending.bytes.items ≡ self.old.pending.bytes.items
            ++ cert.line_text (index + 1) line.now) }
    {
        let number = number_after(index)?;
        gathered(write_line(&mut self.pending, number, line))
    }

    /// Puts what stands for a row: its new facts, and then its line. The error comes where memory runs out, or where a number
    /// has more than 32 bits.
    pub(crate) fn put_row(
        &mut self,
        echoes: &Echoes<'_>,
        index: usize,
        outcome: &Outcome,
    ) -> Result<(), AllocError>
        requires can { CanEcho echoes.now }
        requires within { index < length (echoed_lines echoes.now) }
        requires stands { MayStand (echoed_at echoes.now index) (line_outcome outcome.now) }
        ensures seen { OnOk result (self.new.seen ≡ model.seen_after self.old.seen
            (line_outcome outcome.now)) }
        ensures text { OnOk result (self.new.pending.bytes.items ≡ self.old.pending.bytes.items
            ++ model.block_text self.old.seen (index + 1) (echoed_at echoes.now index)
            (line_outcome outcome.now)) }
    {
        match outcome {
            Outcome::Refused(rule) => self.put_bare(index, &CertLine::Refused(rule.number())),
            Outcome::Found(finding) => self.put_found(echoes, index, finding),
            Outcome::Shown(shown) => self.put_shown(echoes, index, shown),
            Outcome::Halted(halt) => self.put_bare(index, &halted_line(halt)),
        }
    }
}
