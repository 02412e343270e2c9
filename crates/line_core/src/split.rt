//! The lines of an input.
ghost use Rattle.std.specs.Prelude.{◌≡◌, ◌<◌, ◌≤◌, ◌+◌, [], ◌∷◌, List, ℕ, ◌==◌, length, map, position, IfOk, MatchOption};
ghost use Rattle.book_model.specs.lines.Lines as spec;

use memchr::memchr;
use std::alloc::{AllocError, Global};

/// Where the first line feed stands.
fn first_end(bytes: &[u8]) -> Option<usize>
    ensures { result ≡ position (λ b. b == 10) bytes.now }
{
    memchr(b'\n', bytes)
}

/// The first line without its line feed, and what follows it.
fn cut(bytes: &[u8]) -> (&[u8], &[u8])
    requires { 0 < length bytes.now }
    ensures cut { spec.raw_lines bytes.now ≡ result.0.now ∷ spec.raw_lines result.1.now }
    ensures shorter { length result.1.now < length bytes.now }
{
    match first_end(bytes) {
        Some(end) => (&bytes[..end], &bytes[end + 1..]),
        None => (bytes, &bytes[bytes.len()..]),
    }
}

/// The line without the one carriage return at its end.
fn without_return(line: &[u8]) -> &[u8]
    ensures { result.now ≡ spec.without_return line.now }
{
    if !line.is_empty() && line[line.len() - 1] == b'\r' {
        &line[..line.len() - 1]
    } else {
        line
    }
}

/// The first line of bytes, without its line feed and without one carriage return at its end, and what follows it; `None`
/// where there are no bytes.
pub fn cut_line(bytes: &[u8]) -> Option<(&[u8], &[u8])>
    ensures cut { MatchOption result (spec.lines_of bytes.now ≡ [])
        (λ p. spec.lines_of bytes.now ≡ p.0.now ∷ spec.lines_of p.1.now) }
{
    if bytes.is_empty() {
        return None;
    }
    let (line, rest) = cut(bytes);
    Some((without_return(line), rest))
}

/// The lines of an input, without their line feeds and without one carriage return at the end of each. A last
/// line needs no line feed. The error comes where memory runs out.
pub fn split_lines(alloc: Global, bytes: &[u8]) -> Result<Vec<&[u8]>, AllocError>
    ensures { IfOk result (λ lines. map (λ line. line.now) lines.items ≡ spec.lines_of bytes.now) }
{
    let mut lines = Vec::new(alloc);
    let mut rest = bytes;
    while !rest.is_empty() {
        let (line, more) = cut(rest);
        lines.push(without_return(line))?;
        rest = more;
    }
    Ok(lines)
}
