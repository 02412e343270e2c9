//! What a line asks, or the first rule that it breaks.
ghost use Rattle.std.specs.Prelude.{◌≡◌, ◌≤◌, ◌↔◌, ◌&&◌, ◌++◌, ◌∷◌, [], nat_le, not, length, position, IsTrue, IsSome, IfSome, IfOk, MatchOption};
ghost use Rattle.std.specs.List.{list_all, position_or_len};
ghost use Rattle.book_model.specs.lines.Lines as spec;
ghost use Rattle.book_model.specs.lines.Requests.{request_of, with_words, is_possible, is_in_reach};
ghost use Rattle.book_model.specs.lines.Text.{three_words_text};
ghost use Rattle.book_model.specs.lines.Words.{from_word_in, to_word_in};
ghost use Rattle.book_model.specs.declared.version.Version.{Version as VersionOf};
ghost use Rattle.line_core.specs.Checking.{request_in as found_in};

use crate::checked::Checked;
use crate::dates::ranged_date;
use crate::reach::reach_of;
use book_model::{FromWord, Request, Rule, ToWord, Version};

/// The longest line, in bytes.
const LONGEST_LINE: usize = 200;

/// The three words of a line: the calendar of its date, the date, and what it asks.
#[derive(Clone, Copy, Debug)]
pub struct ThreeWords<'a> {
    pub from: &'a [u8],
    pub date: &'a [u8],
    pub to: &'a [u8],
}

/// Whether a byte is a space or a tab.
fn is_blank(byte: u8) -> bool
    ensures blank { result ≡ spec.is_blank byte }
{
    // The first comparison settles it for nearly every byte.
    byte <= b' ' && (byte == b' ' || byte == b'\t')
}

/// Whether a line may hold the byte: a tab, or a byte from 0x20 to 0x7E.
fn is_plain(byte: u8) -> bool
    ensures plain { result ≡ spec.is_plain byte }
{
    byte == b'\t' || (0x20 <= byte && byte < 0x7F)
}

/// Whether a word may hold the byte: one from 0x21 to 0x7E.
fn is_printable(byte: u8) -> bool
    ensures printable { result ≡ spec.is_printable byte }
{
    b' ' < byte && byte < 0x7F
}

/// Whether a line may hold each of the bytes.
fn are_plain(line: &[u8]) -> bool
    ensures plain { result ≡ list_all spec.is_plain line.now }
{
    line.iter().all(|b| is_plain(*b))
}

/// Whether a line is short and plain enough to be read.
fn is_readable(line: &[u8]) -> bool
    ensures readable { result ≡ (nat_le (length line.now) 200 && list_all spec.is_plain line.now) }
{
    line.len() <= LONGEST_LINE && are_plain(line)
}

/// Where the first word begins.
fn word_start(line: &[u8]) -> Option<usize>
    ensures place { result ≡ position (λ b. not (spec.is_blank b)) line.now }
{
    line.iter().position(|b| !is_blank(*b))
}

/// Where the first blank stands.
fn first_blank(line: &[u8]) -> Option<usize>
    ensures place { result ≡ position spec.is_blank line.now }
{
    line.iter().position(|b| is_blank(*b))
}

/// How many bytes stand before the first blank.
fn word_length(line: &[u8]) -> usize
    ensures length { result ≡ position_or_len spec.is_blank line.now }
    ensures within { result ≤ length line.now }
{
    match first_blank(line) {
        Some(length) => length,
        None => line.len(),
    }
}

/// Where the first byte stands that a word may not hold.
fn first_other(line: &[u8]) -> Option<usize>
    ensures place { result ≡ position (λ b. not (spec.is_printable b)) line.now }
{
    line.iter().position(|b| !is_printable(*b))
}

/// The first word of a line, which blanks end, and what follows it; `None` where the line has no word.
pub fn cut_word(line: &[u8]) -> Option<(&[u8], &[u8])>
    ensures cut { MatchOption result (spec.words_of line.now ≡ [])
        (λ p. spec.words_of line.now ≡ p.0.now ∷ spec.words_of p.1.now) }
{
    match word_start(line) {
        Some(start) => {
            let (_, rest) = line.split_at(start);
            Some(rest.split_at(word_length(rest)))
        }
        None => None,
    }
}

/// Bytes that are a word, and no more.
fn whole_word(bytes: &[u8]) -> Option<&[u8]>
    ensures same { IfSome result (λ w. w.now ≡ bytes.now) }
    ensures word { IfSome result (λ w. spec.IsWord w.now) }
{
    if bytes.is_empty() {
        return None;
    }
    match first_other(bytes) {
        Some(_) => None,
        None => Some(bytes),
    }
}

/// The word with which a line begins, where a space follows it, and what follows the space.
fn cut_spaced(line: &[u8]) -> Option<(&[u8], &[u8])>
    ensures cut { IfSome result (λ p. line.now ≡ p.0.now ++ 32 ∷ p.1.now) }
    ensures word { IfSome result (λ p. spec.IsWord p.0.now) }
{
    let end = first_other(line)?;
    if end == 0 {
        return None;
    }
    if line[end] != b' ' {
        return None;
    }
    Some((&line[..end], &line[end + 1..]))
}

// One pass over the bytes; `three_words` and the test of a line's bytes take one each.
/// The three words of a line that is nothing else but these with single spaces between them, as nearly each line is. `None`
/// says nothing.
pub fn spaced_words<'a>(line: &'a [u8]) -> Option<ThreeWords<'a>>
    ensures line { IfSome result (λ w. line.now ≡ three_words_text w.from.now w.date.now w.to.now) }
    ensures from { IfSome result (λ w. spec.IsWord w.from.now) }
    ensures date { IfSome result (λ w. spec.IsWord w.date.now) }
    ensures to { IfSome result (λ w. spec.IsWord w.to.now) }
{
    let (from, rest) = cut_spaced(line)?;
    let (date, last) = cut_spaced(rest)?;
    let to = whole_word(last)?;
    Some(ThreeWords { from, date, to })
}

/// The three words of a line, which blanks separate; `None` where it has fewer or more.
pub fn three_words<'a>(line: &'a [u8]) -> Option<ThreeWords<'a>>
    ensures words { IfSome result (λ w. spec.words_of line.now
        ≡ w.from.now ∷ w.date.now ∷ w.to.now ∷ []) }
    ensures three { IsSome result ↔ (length (spec.words_of line.now) ≡ 3) }
{
    let (from, rest) = cut_word(line)?;
    let (date, rest) = cut_word(rest)?;
    let (to, rest) = cut_word(rest)?;
    match cut_word(rest) {
        Some(_) => None,
        None => Some(ThreeWords { from, date, to }),
    }
}

/// What three words ask.
fn asked(words: ThreeWords<'_>, version: Version) -> Result<Checked, Rule>
    ensures asked { found_in result ≡ with_words version (from_word_in version words.entry.from.now)
        words.entry.date.now (to_word_in version words.entry.to.now) }
    ensures version { IfOk result (λ c. c.version ≡ version) }
{
    let from = FromWord::named_in(version, words.from).ok_or(Rule::Calendar)?;
    let to = ToWord::named_in(version, words.to).ok_or(Rule::Calendar)?;
    let reach = reach_of(version, from, to);
    let (date, day) = ranged_date(version, reach, from.calendar(), words.date)?;
    let request = Request { from, date, to };
    Ok(Checked {
        request,
        version,
        day,
        reach,
    })
}

/// Whether three words with single spaces between them are short enough to be read.
#[tactic(auto, unfolding(book_model::specs::lines::Text::three_words_text))]
fn are_short(words: &ThreeWords<'_>) -> bool
    ensures short { result ≡ nat_le (length (three_words_text words.now.from.now words.now.date.now
        words.now.to.now)) 200 }
{
    let length = words.from.len().saturating_add(words.date.len());
    length.saturating_add(words.to.len()) <= LONGEST_LINE - 2
}

/// The request of what was checked, without what was found beside it.
fn request_in(checked: Result<Checked, Rule>) -> Result<Request, Rule>
    ensures request { result ≡ found_in checked }
    ensures possible { IfOk result (λ r. IsTrue (is_possible r)) }
    ensures in_reach { (v : VersionOf) → IfOk checked (λ c. c.version ≡ v)
        → IfOk result (λ r. IsTrue (is_in_reach v r)) }
{
    match checked {
        Ok(checked) => Ok(checked.request),
        Err(rule) => Err(rule),
    }
}

// What the line with single spaces asks, so that `check` puts no line together again. That the
// words are of printable bytes `Echo` says by its type.
/// What three words ask, each of one byte or more from 0x21 to 0x7E, with what their check finds, or the first rule of a version
/// that their line breaks, as `read_words` gives it.
pub fn check_words(words: ThreeWords<'_>, version: Version) -> Result<Checked, Rule>
    requires from { spec.IsWord words.from.now }
    requires date { spec.IsWord words.date.now }
    requires to { spec.IsWord words.to.now }
    ensures request { found_in result ≡ request_of version (three_words_text words.entry.from.now
        words.entry.date.now words.entry.to.now) }
    ensures version { IfOk result (λ c. c.version ≡ version) }
{
    if are_short(&words) {
        asked(words, version)
    } else {
        Err(Rule::Syntax)
    }
}

/// What three words ask, each of one byte or more from 0x21 to 0x7E, or the first rule of a version that their line
/// breaks, in which single spaces stand between them: `Syntax` where it has more than 200 bytes; `Calendar` for a word that
/// the version hasn't; `Field` where the calendar can have no such date; `Range` for a date that the version doesn't answer, as
/// far as that can be told without any fact.
pub fn read_words(words: ThreeWords<'_>, version: Version) -> Result<Request, Rule>
    requires from { spec.IsWord words.from.now }
    requires date { spec.IsWord words.date.now }
    requires to { spec.IsWord words.to.now }
    ensures request { result ≡ request_of version (three_words_text words.entry.from.now
        words.entry.date.now words.entry.to.now) }
    ensures possible { IfOk result (λ r. IsTrue (is_possible r)) }
    ensures in_reach { IfOk result (λ r. IsTrue (is_in_reach version r)) }
{
    request_in(check_words(words, version))
}

/// What any line asks, or the first rule of a version that it breaks.
fn check_any_line(bytes: &[u8], version: Version) -> Result<Checked, Rule>
    ensures request { found_in result ≡ request_of version bytes.now }
    ensures version { IfOk result (λ c. c.version ≡ version) }
{
    if !is_readable(bytes) {
        return Err(Rule::Syntax);
    }
    match three_words(bytes) {
        Some(words) => asked(words, version),
        None => Err(Rule::Syntax),
    }
}

/// What a line asks, with what its check finds, or the first rule of a version that it breaks, as `read_line` gives it.
fn check_line(bytes: &[u8], version: Version) -> Result<Checked, Rule>
    ensures request { found_in result ≡ request_of version bytes.now }
    ensures version { IfOk result (λ c. c.version ≡ version) }
{
    match spaced_words(bytes) {
        Some(words) => check_words(words, version),
        None => check_any_line(bytes, version),
    }
}

/// What a line asks, or the first rule of a version that it breaks: `Syntax` where it isn't three words of printable
/// bytes with blanks between them, in 200 bytes at most; `Calendar` for a word that the version hasn't; `Field` where the
/// calendar can have no such date; `Range` for a date that the version doesn't answer, as far as that can be told
/// without any fact.
pub fn read_line(bytes: &[u8], version: Version) -> Result<Request, Rule>
    ensures request { result ≡ request_of version bytes.now }
    ensures possible { IfOk result (λ r. IsTrue (is_possible r)) }
    ensures in_reach { IfOk result (λ r. IsTrue (is_in_reach version r)) }
{
    request_in(check_line(bytes, version))
}
