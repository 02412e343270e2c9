//! Files of the grammar and files outside it, with what an independent program answers for them; the forms of lines,
//! read and written again.
use cert_parser::{LONGEST_FILE, ReadFail, is_spaced, read_file};
use std::alloc::{AllocError, Global};
use std::process::Abort;
use std::test::Fail;

mod again;
mod forms;
mod headers;
mod numbers;
mod order;
mod prefixes;
mod rules;

/// The line and the rule that bytes break, or nothing for a file of the grammar.
fn broken(alloc: Global, bytes: &[u8]) -> Result<Option<(usize, u8)>, AllocError> {
    if bytes.len() > LONGEST_FILE {
        return Err(AllocError);
    }
    match read_file(alloc, bytes) {
        Ok(_) => Ok(None),
        Err(ReadFail::Bad { line, rule }) => Ok(Some((line as usize, rule))),
        Err(ReadFail::Memory) => Err(AllocError),
    }
}

/// A file breaks this rule of this line, or none.
fn assert_breaks(
    rt: &impl Abort,
    alloc: Global,
    file: &[u8],
    want: Option<(usize, u8)>,
    what: &str,
) -> Result<(), Fail> {
    assert!(rt;
        broken(alloc, file)? == want,
        "{what}: {} bytes",
        file.len()
    );
    Ok(())
}

/// Texts below a header, with the rule that the last line of each breaks while no line before it breaks one, or none for files
/// of the grammar.
static TEXTS: [(Option<u8>, &[&str]); 19] = [
    (None, forms::FILES),
    (Some(2), forms::WORDS),
    (Some(2), forms::BYTES),
    (None, numbers::FITTING),
    (Some(2), numbers::COUNTERS),
    (Some(3), numbers::LARGE_COUNTERS),
    (Some(2), numbers::DAYS_AND_VALUES),
    (Some(2), numbers::BOUNDS),
    (Some(2), order::FORM_FIRST),
    (Some(3), order::NUMBER_FIRST),
    (Some(7), order::PLACE_FIRST),
    (Some(4), order::FACT_FIRST),
    (Some(5), order::LIST_FIRST),
    (None, rules::FILES),
    (Some(3), rules::NUMBERS),
    (Some(7), rules::PLACES),
    (Some(4), rules::FACTS),
    (Some(5), rules::LISTS),
    (Some(6), rules::ENDPOINTS),
];

/// The last line of a text below a header breaks the rule, or no line breaks one.
fn assert_last_breaks(
    rt: &impl Abort,
    alloc: Global,
    rule: Option<u8>,
    text: &str,
) -> Result<(), Fail> {
    let file = format!(in alloc; "calendrica 1 depth 40\n{text}\n")?;
    let bytes = file.as_bytes();
    let last = bytes.iter().filter(|byte| **byte == b'\n').count();
    let want = match rule {
        Some(rule) => Some((last, rule)),
        None => None,
    };
    assert_breaks(rt, alloc, bytes, want, text)
}

#[test]
fn texts_break_the_rules_of_their_lists(rt: HostRuntime) -> Result<(), Fail> {
    for (rule, texts) in &TEXTS {
        for text in *texts {
            assert_last_breaks(&rt, rt.alloc(), *rule, text)?;
        }
    }
    Ok(())
}

#[test]
fn words_are_told_that_have_single_spaces_between_them(rt: HostRuntime) {
    for (words, told) in [
        (b"gregorian 2024-02-10 dt".as_slice(), true),
        (b"gregorian  2024-02-10 dt", false),
        (b"gregorian\t2024-02-10 dt", false),
    ] {
        assert!(rt; is_spaced(words) == told);
    }
}
