//! A line that has begun.
ghost use Rattle.std.specs.Prelude.{◌≡◌, [], ℕ, List, OnOk, OnErr};
ghost use Rattle.answered_lines.specs.Lines as spec;

use std::alloc::{AllocError, Global};
use std::marker::Model;

/// How many bytes of a line are kept: a line that is read has 200 at most, and a carriage return may follow them; with one byte
/// more it is refused, whatever else it has.
pub const PREFIX: usize = 202;

/// The prefix that is kept of a line that has begun, as far as it can tell what the line asks. Contracts see its bytes.
#[derive(Drop)]
pub struct BegunLine {
    bytes: Vec<u8>,
}

impl Model for BegunLine {
    ghost Value = { List ℕ };

    ghost view = { λ b. b.bytes.items };
}

impl BegunLine {
    /// No line has begun.
    pub fn new(alloc: Global) -> Self
        ensures none { result ≡ [] }
    {
        BegunLine {
            bytes: Vec::new(alloc),
        }
    }

    /// Whether it has no byte.
    pub fn is_empty(&self) -> bool
        ensures empty { result ≡ spec.is_none self.now }
    {
        self.bytes.is_empty()
    }

    /// Adds a byte, where it may still tell what the line asks. The error comes where memory runs out, and leaves the line as it
    /// was.
    pub(crate) fn put(&mut self, byte: u8) -> Result<(), AllocError>
        ensures ok { OnOk result (self.new ≡ spec.with_byte self.old byte) }
        ensures err { OnErr result (self.new ≡ self.old) }
    {
        if self.bytes.len() < PREFIX {
            self.bytes.push(byte)?;
        }
        Ok(())
    }

    /// Forgets the line.
    pub(crate) fn clear(&mut self)
        ensures none { self.new ≡ [] }
    {
        self.bytes.clear();
    }

    // `line_core` drops it where it splits an input, which isn't done here.
    /// The line, without one carriage return at its end.
    pub(crate) fn line(&self) -> &[u8]
        ensures line { result.now ≡ spec.without_return self.now }
    {
        let bytes = self.bytes.as_slice();
        if !bytes.is_empty() && bytes[bytes.len() - 1] == b'\r' {
            &bytes[..bytes.len() - 1]
        } else {
            bytes
        }
    }
}
