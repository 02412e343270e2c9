//! A certificate: its facts and its lines.
ghost use Rattle.std.specs.Prelude.{◌≡◌, ◌<◌, ◌++◌, ◌∷◌, [], List, Some, length, slice_get, OnOk, OnErr};
ghost use Rattle.cert_text.specs.declared.line.CertLine.{CertLine as LineView};

use book_model::Version;
use cert_text::CertLine;
use oracle_core::FactValues;
use std::alloc::{AllocError, Global};
use std::marker::Model;

/// A list of lines.
#[derive(Debug, Drop)]
pub struct Lines {
    items: Vec<CertLine>,
}

impl Model for Lines {
    ghost Value = { List LineView };

    ghost view = { λ l. l.items.items };
}

impl Lines {
    /// The list of no lines.
    pub fn new(alloc: Global) -> Self
        ensures empty { result ≡ [] }
    {
        Lines {
            items: Vec::new(alloc),
        }
    }

    /// How many lines there are.
    pub fn len(&self) -> usize
        ensures len { result ≡ length self.now }
    {
        self.items.len()
    }

    /// The line at an index, from 0.
    pub fn item(&self, index: usize) -> &CertLine
        requires within { index < length self.now }
        ensures item { Some result.now ≡ slice_get self.now index }
    {
        &self.items[index]
    }

    /// Adds a line at the end. The error comes where memory runs out, and leaves the list as it was.
    pub fn push(&mut self, line: CertLine) -> Result<(), AllocError>
        ensures ok { OnOk result (self.new ≡ self.old ++ line ∷ []) }
        ensures err { OnErr result (self.new ≡ self.old) }
    {
        self.items.push(line)?;
        Ok(())
    }

    /// The lines in order.
    pub fn entries(&self) -> &[CertLine]
        ensures entries { result.now ≡ self.now }
    {
        &self.items
    }
}

/// A certificate: its version, the facts with their values, and the lines, both in order.
#[derive(Debug, Drop)]
pub struct CertFile {
    pub version: Version,
    pub facts: FactValues,
    pub lines: Lines,
}
