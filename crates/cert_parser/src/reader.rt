//! The reading of a file, line by line.
ghost use Rattle.std.specs.Prelude.{true, false, ◌≡◌, ◌+◌, ◌==◌, [], IfOk, IfErr, OnOk};
ghost use Rattle.cert_parser.specs.Agreeing.{Agrees};
ghost use Rattle.cert_parser.specs.Grammar.{form_of as form_of_line};
ghost use Rattle.cert_parser.specs.Reading as spec;
ghost use Rattle.cert_parser.specs.Steps.{Breaks, Passes, Fails};
ghost use Rattle.cert_parser.specs.declared.reader.LineFault.TheVariants.{Memory as memory_fault};

use crate::form::{Form, form_of};
use crate::lines::{CertFile, Lines};
use crate::listings::are_of_facts;
use crate::seen::SeenFacts;
use crate::words::NoForm;
use book_model::{Fact, Site, Undecided, Version};
use cert_text::CertLine;
use oracle_core::FactValues;
use std::alloc::{AllocError, AllocFailed, Global};

/// Why a line wasn't taken: it breaks a rule, or memory ran out.
#[derive(Clone, Copy, Debug, PartialEq, Eq)]
pub(crate) enum LineFault {
    Rule(u8),
    Memory,
}

impl From<AllocError> for LineFault {
    ghost from_gives = { λ _ e. e ≡ memory_fault };

    fn from(_: AllocError) -> Self {
        LineFault::Memory
    }
}

impl<T: Drop> From<AllocFailed<T>> for LineFault {
    ghost from_gives = { λ _ e. e ≡ memory_fault };

    fn from(_: AllocFailed<T>) -> Self {
        LineFault::Memory
    }
}

/// The facts and lines so far, the same facts as a set, for each of them the number of the line that listed it last, or 0, and
/// whether the end line has come.
#[derive(Drop)]
pub(crate) struct Reader {
    pub(crate) file: CertFile,
    pub(crate) seen: SeenFacts,
    pub(crate) marks: Vec<u32>,
    pub(crate) ended: bool,
}

/// Whether a number is one more than the count.
fn is_next(number: u32, count: usize) -> bool
    ensures { result ≡ (number == count + 1) }
{
    number > 0 && number as usize - 1 == count
}

/// The numbers of facts that a line lists.
fn listed(line: &CertLine) -> &[u32]
    ensures listed { result.now ≡ spec.listed line.now }
{
    match line {
        CertLine::Shown { facts, .. } => facts.numbers(),
        CertLine::TooFar { facts, .. } => facts.numbers(),
        CertLine::NoDate { facts, .. } => facts.numbers(),
        _ => &[],
    }
}

impl Reader {
    /// A reading of a file of a version, before the first line below the header. The error comes where memory runs out.
    pub(crate) fn new(alloc: Global, version: Version) -> Result<Reader, AllocError>
        ensures file { IfOk result (λ reader. reader.file ≡ spec.nothing_of version) }
        ensures agrees { IfOk result (λ reader. Agrees reader.file reader.seen reader.marks.items) }
        ensures ended { IfOk result (λ reader. reader.ended ≡ false) }
    {
        Ok(Reader {
            file: CertFile {
                version,
                facts: FactValues::new(alloc),
                lines: Lines::new(alloc),
            },
            seen: SeenFacts::new(alloc)?,
            marks: Vec::new(alloc),
            ended: false,
        })
    }

    /// Takes a fact with its number and its value.
    #[tactic(auto, unfolding(crate::specs::Reading::broken_by, crate::specs::Reading::with_form))]
    fn take_fact(&mut self, number: u32, fact: Option<Fact>, value: i64) -> Result<(), LineFault>
        requires agrees { Agrees self.old.file self.old.seen self.old.marks.items }
        ensures rule { Breaks result (spec.broken_by self.old.file self.old.ended
            (Form.Fact number fact value)) }
        ensures file { OnOk result (self.new.file ≡ spec.with_form self.old.file
            (Form.Fact number fact value)) }
        ensures ended { OnOk result (self.new.ended ≡ false) }
        ensures agrees { OnOk result (Agrees self.new.file self.new.seen self.new.marks.items) }
    {
        if !is_next(number, self.file.facts.len()) {
            return Err(LineFault::Rule(3));
        }
        let Some(fact) = fact else {
            return Err(LineFault::Rule(7));
        };
        if !self.seen.insert(fact)? {
            return Err(LineFault::Rule(4));
        }
        if self.ended {
            return Err(LineFault::Rule(6));
        }
        self.file.facts.push((fact, value))?;
        self.marks.push(0)?;
        Ok(())
    }

    /// Takes a line with its number.
    #[tactic(auto, unfolding(crate::specs::Reading::broken_by, crate::specs::Reading::with_form))]
    fn take_line(&mut self, number: u32, line: CertLine) -> Result<(), LineFault>
        requires agrees { Agrees self.old.file self.old.seen self.old.marks.items }
        ensures rule { Breaks result (spec.broken_by self.old.file self.old.ended
            (Form.Line number line)) }
        ensures file { OnOk result (self.new.file ≡ spec.with_form self.old.file
            (Form.Line number line)) }
        ensures ended { OnOk result (self.new.ended ≡ false) }
        ensures agrees { OnOk result (Agrees self.new.file self.new.seen self.new.marks.items) }
    {
        if !is_next(number, self.file.lines.len()) {
            return Err(LineFault::Rule(3));
        }
        if !are_of_facts(&mut self.marks, number, listed(&line)) {
            return Err(LineFault::Rule(5));
        }
        if self.ended {
            return Err(LineFault::Rule(6));
        }
        self.file.lines.push(line)?;
        Ok(())
    }

    /// Takes a line whose fact is undecided.
    #[tactic(auto, unfolding(crate::specs::Reading::broken_by, crate::specs::Reading::with_form))]
    fn take_undecided(
        &mut self,
        number: u32,
        fact: Option<Fact>,
        at: Undecided,
    ) -> Result<(), LineFault>
        requires agrees { Agrees self.old.file self.old.seen self.old.marks.items }
        ensures rule { Breaks result (spec.broken_by self.old.file self.old.ended
            (Form.Undecided number fact at)) }
        ensures file { OnOk result (self.new.file ≡ spec.with_form self.old.file
            (Form.Undecided number fact at)) }
        ensures ended { OnOk result (self.new.ended ≡ false) }
        ensures agrees { OnOk result (Agrees self.new.file self.new.seen self.new.marks.items) }
    {
        if !is_next(number, self.file.lines.len()) {
            return Err(LineFault::Rule(3));
        }
        let Some(fact) = fact else {
            return Err(LineFault::Rule(7));
        };
        if self.ended {
            return Err(LineFault::Rule(6));
        }
        self.file.lines.push(CertLine::Undecided { fact, at })?;
        Ok(())
    }

    /// Takes a line whose fact is void.
    #[tactic(auto, unfolding(crate::specs::Reading::broken_by, crate::specs::Reading::with_form))]
    fn take_void(&mut self, number: u32, fact: Option<Fact>, site: Site) -> Result<(), LineFault>
        requires agrees { Agrees self.old.file self.old.seen self.old.marks.items }
        ensures rule { Breaks result (spec.broken_by self.old.file self.old.ended
            (Form.Void number fact site)) }
        ensures file { OnOk result (self.new.file ≡ spec.with_form self.old.file
            (Form.Void number fact site)) }
        ensures ended { OnOk result (self.new.ended ≡ false) }
        ensures agrees { OnOk result (Agrees self.new.file self.new.seen self.new.marks.items) }
    {
        if !is_next(number, self.file.lines.len()) {
            return Err(LineFault::Rule(3));
        }
        let Some(fact) = fact else {
            return Err(LineFault::Rule(7));
        };
        if self.ended {
            return Err(LineFault::Rule(6));
        }
        self.file.lines.push(CertLine::Void { fact, site })?;
        Ok(())
    }

    /// Takes the end line with its counts.
    #[tactic(auto, unfolding(crate::specs::Reading::broken_by, crate::specs::Reading::with_form))]
    fn take_end(&mut self, lines: u32, facts: u32) -> Result<(), LineFault>
        requires agrees { Agrees self.old.file self.old.seen self.old.marks.items }
        ensures rule { Breaks result (spec.broken_by self.old.file self.old.ended
            (Form.End lines facts)) }
        ensures file { OnOk result (self.new.file ≡ spec.with_form self.old.file
            (Form.End lines facts)) }
        ensures ended { OnOk result (self.new.ended ≡ true) }
        ensures agrees { OnOk result (Agrees self.new.file self.new.seen self.new.marks.items) }
    {
        if self.ended
            || lines as usize != self.file.lines.len()
            || facts as usize != self.file.facts.len()
        {
            return Err(LineFault::Rule(6));
        }
        self.ended = true;
        Ok(())
    }

    /// Takes a form.
    fn take_form(&mut self, form: Form) -> Result<(), LineFault>
        requires agrees { Agrees self.old.file self.old.seen self.old.marks.items }
        ensures rule { Breaks result (spec.broken_by self.old.file self.old.ended form) }
        ensures file { OnOk result (self.new.file ≡ spec.with_form self.old.file form) }
        ensures ended { OnOk result (self.new.ended ≡ spec.is_end form) }
        ensures agrees { OnOk result (Agrees self.new.file self.new.seen self.new.marks.items) }
    {
        match form {
            Form::Fact(number, fact, value) => self.take_fact(number, fact, value),
            Form::Line(number, line) => self.take_line(number, line),
            Form::Undecided(number, fact, at) => self.take_undecided(number, fact, at),
            Form::Void(number, fact, site) => self.take_void(number, fact, site),
            Form::End(lines, facts) => self.take_end(lines, facts),
        }
    }

    /// Takes the next line.
    pub(crate) fn take(&mut self, alloc: Global, line: &[u8]) -> Result<(), LineFault>
        requires agrees { Agrees self.old.file self.old.seen self.old.marks.items }
        ensures passes { OnOk result (Passes self.old.file self.old.ended
            (form_of_line self.old.file.version line.now) self.new.file self.new.ended) }
        ensures fails { IfErr result (λ e. Fails e self.old.file self.old.ended
            (form_of_line self.old.file.version line.now)) }
        ensures agrees { OnOk result (Agrees self.new.file self.new.seen self.new.marks.items) }
    {
        match form_of(alloc, self.file.version, line) {
            Ok(form) => self.take_form(form),
            Err(NoForm::Broken) => Err(LineFault::Rule(2)),
            Err(NoForm::Memory) => Err(LineFault::Memory),
        }
    }
}
