//! The header, which tells the version and so the kinds, places and sites, and the ends of lines.
use super::assert_breaks;
use crate::tests::verdicts::file_of;
use book_model::Version;
use std::test::Fail;

/// Texts, and the line and the rule that they break.
static TEXTS: [(&str, Option<(usize, u8)>); 37] = [
    ("", Some((1, 1))),
    ("c", Some((1, 1))),
    ("\n", Some((1, 1))),
    ("\r", Some((1, 1))),
    ("end lines 0 facts 0\n", Some((1, 1))),
    ("Calendrica 1 depth 40\n", Some((1, 1))),
    ("Calendrica 2 depth 40\n", Some((1, 1))),
    ("calendrica 0 depth 40\n", Some((1, 1))),
    ("calendrica 3 depth 40\n", Some((1, 1))),
    ("calendrica 02 depth 40\n", Some((1, 1))),
    ("calendrica 12 depth 40\n", Some((1, 1))),
    ("calendrica depth 40\n", Some((1, 1))),
    ("calendrica 2 depth 41\n", Some((1, 1))),
    ("calendrica 1 depth 41\n", Some((1, 1))),
    (" calendrica 1 depth 40\n", Some((1, 1))),
    ("calendrica 1 depth 40 \n", Some((1, 1))),
    ("calendrica 1 depth 40\r\r\n", Some((1, 1))),
    ("calendrica 1 depth 40\rend lines 0 facts 0\n", Some((1, 1))),
    ("calendrica 1 depth 40", Some((2, 6))),
    ("calendrica 1 depth 40\n", Some((2, 6))),
    ("calendrica 2 depth 40", Some((2, 6))),
    ("calendrica 1 depth 40\nend lines 0 facts 0\n", None),
    ("calendrica 2 depth 40\nend lines 0 facts 0\n", None),
    ("calendrica 1 depth 40\nend lines 0 facts 0", None),
    ("calendrica 1 depth 40\nend lines 0 facts 0\r", None),
    ("calendrica 1 depth 40\r\nend lines 0 facts 0\r\n", None),
    ("calendrica 1 depth 40\r\nend lines 0 facts 0", None),
    (
        "calendrica 1 depth 40\nend lines 0 facts 0\r\r\n",
        Some((2, 2)),
    ),
    (
        "calendrica 1 depth 40\nend lines\r 0 facts 0\n",
        Some((2, 2)),
    ),
    (
        "calendrica 1 depth 40\nend lines 0 facts 0 \r\n",
        Some((2, 2)),
    ),
    (
        "calendrica 1 depth 40\n\r\nend lines 0 facts 0\n",
        Some((2, 2)),
    ),
    (
        "calendrica 1 depth 40\n\nend lines 0 facts 0\n",
        Some((2, 2)),
    ),
    (
        "calendrica 1 depth 40\nend lines 0 facts 0\n\n",
        Some((3, 2)),
    ),
    (
        "calendrica 1 depth 40\ncalendrica 1 depth 40\n",
        Some((2, 2)),
    ),
    (
        "calendrica 1 depth 40\ncalendrica 2 depth 40\nend lines 0 facts 0\n",
        Some((2, 2)),
    ),
    (
        "calendrica 2 depth 40\ncalendrica 1 depth 40\nend lines 0 facts 0\n",
        Some((2, 2)),
    ),
    // The end line is missing.
    (
        "calendrica 1 depth 40\nfact 1 dt - 1 1\nline 1 refused 1\n",
        Some((4, 6)),
    ),
];

/// Lines below a header, with the line and the rule that they break in a file of version 1 and in one of version 2. What a
/// version doesn't have is as unknown to it as what none has, before any other rule is tried.
static NAMES: [(&str, Option<(usize, u8)>, Option<(usize, u8)>); 19] = [
    (
        "fact 1 solstice beijing 724662 724631\nend lines 0 facts 1",
        None,
        None,
    ),
    (
        "fact 1 solstice hanoi 724662 724631\nend lines 0 facts 1",
        Some((2, 2)),
        None,
    ),
    (
        "fact 1 solstice saigon 724662 724631\nend lines 0 facts 1",
        Some((2, 2)),
        Some((2, 2)),
    ),
    ("fact 2 solstice hanoi 1 1", Some((2, 2)), Some((2, 3))),
    ("fact 1 dt hanoi 1 1", Some((2, 2)), Some((2, 7))),
    ("fact 1 major-term hanoi 1 1", Some((2, 2)), Some((2, 7))),
    (
        "end lines 0 facts 0\nfact 1 solstice hanoi 1 1",
        Some((3, 2)),
        Some((3, 6)),
    ),
    (
        "line 1 void year fact solstice seoul 1\nend lines 1 facts 0",
        Some((2, 2)),
        None,
    ),
    (
        "line 1 undecided round 1 0 0 fact major tokyo 1\nend lines 1 facts 0",
        Some((2, 2)),
        None,
    ),
    (
        "line 1 undecided round 1 0 0 fact sunset tokyo 1\nend lines 1 facts 0",
        Some((2, 2)),
        Some((2, 7)),
    ),
    (
        "line 1 gregorian 1985-01-21 vietnamese 78-2-1-0-1 facts\nend lines 1 facts 0",
        None,
        None,
    ),
    (
        "fact 1 distance - 727300 368409\nend lines 0 facts 1",
        Some((2, 2)),
        None,
    ),
    (
        "fact 1 moonrise cairo 739006 -1\nend lines 0 facts 1",
        Some((2, 2)),
        None,
    ),
    (
        "fact 1 moonset haifa 727300 115",
        Some((2, 2)),
        Some((2, 7)),
    ),
    (
        "line 1 undecided rise 1 0 0 fact moonset ujjain 1\nend lines 1 facts 0",
        Some((2, 2)),
        None,
    ),
    (
        "fact 1 french-year - 739151 739151\nend lines 0 facts 1",
        Some((2, 2)),
        None,
    ),
    (
        "fact 1 phasis haifa 738957 738957\nend lines 0 facts 1",
        Some((2, 2)),
        None,
    ),
    (
        "fact 1 nisan haifa 738886 738957\nend lines 0 facts 1",
        Some((2, 2)),
        None,
    ),
    (
        "fact 1 nisan cairo 738886 738957",
        Some((2, 2)),
        Some((2, 7)),
    ),
];

/// Files with the version of their header.
const FILES: [(&str, Version); 4] = [
    ("calendrica 1 depth 40\nend lines 0 facts 0\n", Version::One),
    ("calendrica 1 depth 40\r\nend lines 0 facts 0", Version::One),
    ("calendrica 2 depth 40\nend lines 0 facts 0\n", Version::Two),
    ("calendrica 2 depth 40\r\nend lines 0 facts 0", Version::Two),
];

#[test]
fn a_header_comes_first_and_lines_end_with_line_feeds(rt: HostRuntime) -> Result<(), Fail> {
    for (text, want) in &TEXTS {
        assert_breaks(&rt, rt.alloc(), text.as_bytes(), *want, text)?;
    }
    Ok(())
}

#[test]
fn a_file_has_the_version_of_its_header(rt: HostRuntime) -> Result<(), Fail> {
    for (text, version) in FILES {
        assert!(rt; file_of(rt.alloc(), text)?.version == version, "{text}");
    }
    Ok(())
}

#[test]
fn a_file_has_the_names_of_its_version(rt: HostRuntime) -> Result<(), Fail> {
    for (lines, by_one, by_two) in &NAMES {
        for (number, want) in [(1, *by_one), (2, *by_two)] {
            let file = format!(in rt.alloc(); "calendrica {number} depth 40\n{lines}\n")?;
            assert_breaks(&rt, rt.alloc(), file.as_bytes(), want, lines)?;
        }
    }
    Ok(())
}
