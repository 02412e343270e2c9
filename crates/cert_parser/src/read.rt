//! Reads a certificate.
ghost use Rattle.std.specs.Prelude.{false, ◌≡◌, ◌<◌, ◌≤◌, ◌^◌, [], length};
ghost use Rattle.book_model.specs.lines.Lines.{lines_of};
ghost use Rattle.cert_parser.specs.Reading.{Answers, grammar_of, nothing_of, reading_from};
ghost use Rattle.cert_parser.specs.declared.read.TheConstants.{LONGEST_FILE as longest_file};

use crate::lines::CertFile;
use crate::reader::{LineFault, Reader};
use book_model::Version;
use line_core::cut_line;
use std::alloc::Global;
use thiserror::Error;

/// How many bytes a file may have.
pub const LONGEST_FILE: usize = 268_435_456;

/// Why bytes weren't read as a file: a line breaks a rule of the grammar, or memory ran out.
#[derive(Clone, Copy, Debug, PartialEq, Eq, Error)]
pub enum ReadFail {
    /// The first line that breaks a rule, from 1, and the first rule that it breaks.
    #[error("line {line} breaks rule {rule}")]
    Bad { line: u32, rule: u8 },
    #[error("memory ran out")]
    Memory,
}

/// Reads the lines below the header of a file of a version, each as it is cut off, so that they take no memory of their own.
fn read_lines(alloc: Global, version: Version, bytes: &[u8]) -> Result<CertFile, ReadFail>
    requires { length (lines_of bytes.now) < 2 ^ 31 }
    ensures { Answers result (reading_from 2 (nothing_of version) false (lines_of bytes.now)) }
{
    let Ok(mut reader) = Reader::new(alloc, version) else {
        return Err(ReadFail::Memory);
    };
    let mut number = 2;
    let mut rest = bytes;
    while let Some((line, more)) = cut_line(rest) {
        match reader.take(alloc, line) {
            Ok(()) => {}
            Err(LineFault::Rule(rule)) => return Err(ReadFail::Bad { line: number, rule }),
            Err(LineFault::Memory) => return Err(ReadFail::Memory),
        }
        number += 1;
        rest = more;
    }
    if reader.ended {
        Ok(reader.file)
    } else {
        Err(ReadFail::Bad {
            line: number,
            rule: 6,
        })
    }
}

// A file is judged by the rules of its version: what version 1 refused is refused in a file of it
// still, and a line that was right then is right now.
/// The file that the bytes are by the grammar; its version is the one whose header is their first line. `Bad` comes exactly
/// where they are none, with the first line that breaks a rule and the first rule that it breaks, and `Memory` where memory
/// runs out.
///
/// ```
/// let none = read_file(rt.alloc(), b"calendrica 2 depth 40\n"); // Err(Bad { line: 2, rule: 6 }): the end line isn't there
/// let text = b"calendrica 2 depth 40\nfact 1 nowruz - 739145 738965\nend lines 0 facts 1\n";
/// let file = read_file(rt.alloc(), text)?; // of version 2, with one fact and no line
/// ```
#[tactic(auto, unfolding(crate::specs::Reading::grammar_of))]
pub fn read_file(alloc: Global, bytes: &[u8]) -> Result<CertFile, ReadFail>
    requires { length bytes.now ≤ longest_file }
    ensures { Answers result (grammar_of bytes.now) }
{
    let Some((first, rest)) = cut_line(bytes) else {
        return Err(ReadFail::Bad { line: 1, rule: 1 });
    };
    match Version::named(first) {
        Some(version) => read_lines(alloc, version, rest),
        None => Err(ReadFail::Bad { line: 1, rule: 1 }),
    }
}
