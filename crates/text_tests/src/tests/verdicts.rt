//! Verdicts of small files, and the text of each.
ghost use Rattle.std.specs.Prelude.{IfOk};
ghost use Rattle.cert_check.specs.Verdicts.{IsCheckable};

use super::known::{Known, correction_on};
use book_model::{Fields, Resolved, Site, ToWord, Undecided};
use byte_streams::Gathered;
use cert_check::{
    Reason, Verdict, check_facts, check_line, checkable, completeness, write_counts, write_verdict,
};
use cert_parser::{CertFile, LONGEST_FILE, read_file};
use std::alloc::Global;
use std::process::Abort;
use std::test::Fail;

/// The file that a text is.
pub fn file_of(alloc: Global, text: &str) -> Result<CertFile, Fail>
    ensures checkable { IfOk result IsCheckable }
{
    if text.len() > LONGEST_FILE {
        return Err("too long")?;
    }
    checkable();
    let Ok(file) = read_file(alloc, text.as_bytes()) else {
        return Err("no file of the grammar")?;
    };
    Ok(file)
}

/// The verdicts of a file's lines are told by this text.
fn assert_told(
    rt: &impl Abort,
    alloc: Global,
    what: &str,
    text: &str,
    want: &str,
) -> Result<(), Fail> {
    let file = file_of(alloc, text)?;
    let answers = check_facts(alloc, &file, &Known::new(rt))?;
    let mut told = Gathered::new(alloc);
    let mut number = 0u32;
    for index in 0..file.lines.len() {
        number = number.saturating_add(1);
        let verdict = check_line(alloc, &file, &answers, index)?;
        write_verdict(&mut told, number, &verdict)?;
    }
    assert!(rt; told.bytes() == want.as_bytes(), "{what}: {text}");
    Ok(())
}

/// Files, and what is told of their lines.
static FILES: [(&str, &str, &str); 19] = [
    // Changes of a file.
    (
        "no change",
        "calendrica 1 depth 40\nfact 1 dt - 738926 73871\nline 1 gregorian 2024-02-10 dt 73871 facts 1\nend lines 1 facts 1\n",
        "yes 1\n",
    ),
    (
        "another value",
        "calendrica 1 depth 40\nfact 1 dt - 738926 73872\nline 1 gregorian 2024-02-10 dt 73871 facts 1\nend lines 1 facts 1\n",
        "no 1 value 1 73872 73871\n",
    ),
    (
        "an empty list",
        "calendrica 1 depth 40\nfact 1 dt - 738926 73871\nline 1 gregorian 2024-02-10 dt 73871 facts\nend lines 1 facts 1\n",
        "no 1 missing dt - 738926\n",
    ),
    (
        "another result",
        "calendrica 1 depth 40\nfact 1 dt - 738926 73871\nline 1 gregorian 2024-02-10 dt 73870 facts 1\nend lines 1 facts 1\n",
        "no 1 date 73871\n",
    ),
    (
        "a fact that isn't asked",
        "calendrica 1 depth 40\nfact 1 dt - 738926 73871\nline 1 gregorian 2024-02-10 fixed 738926 facts 1\nend lines 1 facts 1\n",
        "no 1 list 1\n",
    ),
    (
        "an unknown calendar",
        "calendrica 1 depth 40\nfact 1 dt - 738926 73871\nline 1 mayan 2024-02-10 dt 73871 facts 1\nend lines 1 facts 1\n",
        "no 1 form 2\n",
    ),
    // Lines without a list.
    (
        "a refused line",
        "calendrica 1 depth 40\nfact 1 dt - 738926 73871\nline 1 refused 2\nend lines 1 facts 1\n",
        "skip 1\n",
    ),
    (
        "an undecided line",
        "calendrica 1 depth 40\nfact 1 dt - 738926 73871\nline 1 undecided round 2 -5 7 fact dt - 738926\nend lines 1 facts 1\n",
        "skip 1\n",
    ),
    (
        "a void line",
        "calendrica 1 depth 40\nfact 1 dt - 738926 73871\nline 1 void year fact dt - 1\nend lines 1 facts 1\n",
        "skip 1\n",
    ),
    // Results that are found.
    (
        "a day out of range",
        "calendrica 1 depth 40\nfact 1 dt - 738926 73871\nline 1 gregorian 2024-02-10 gregorian refused 4 748018 facts\nend lines 1 facts 1\n",
        "no 1 date 2024-02-10\n",
    ),
    (
        "another date of the day",
        "calendrica 1 depth 40\nfact 1 dt - 738926 73871\nline 1 fixed 738926 gregorian refused 5 2024-02-10 facts\nend lines 1 facts 1\n",
        "no 1 date 2024-02-10\n",
    ),
    (
        "a spelling of the line's own",
        "calendrica 1 depth 40\nfact 1 dt - 738926 73871\nline 1 gregorian 2024-2-010 fixed 738926 facts\nend lines 1 facts 1\n",
        "yes 1\n",
    ),
    (
        "a result with a leading zero",
        "calendrica 1 depth 40\nfact 1 dt - 738926 73871\nline 1 gregorian 2024-02-10 fixed 0738926 facts\nend lines 1 facts 1\n",
        "no 1 date 738926\n",
    ),
    // The first of several reasons.
    (
        "a void before another value",
        "calendrica 1 depth 40\nfact 1 dt - 738926 1\nfact 2 dt - 620728 5\nline 1 gregorian 2024-02-10 dt 1 facts 2 1\nend lines 1 facts 2\n",
        "no 1 void year fact dt - 620728\n",
    ),
    (
        "another value before a void",
        "calendrica 1 depth 40\nfact 1 dt - 620728 5\nfact 2 dt - 738926 1\nline 1 gregorian 2024-02-10 dt 1 facts 2 1\nend lines 1 facts 2\n",
        "no 1 value 2 1 73871\n",
    ),
    (
        "another value of the second",
        "calendrica 1 depth 40\nfact 1 dt - 738926 -1\nfact 2 dt - 738927 73871\nline 1 gregorian 2024-02-10 dt 1 facts 2 1\nend lines 1 facts 2\n",
        "no 1 value 1 -1 73871\n",
    ),
    (
        "a fact more in front",
        "calendrica 1 depth 40\nfact 1 dt - 738926 73871\nfact 2 dt - 738927 73871\nline 1 gregorian 2024-02-10 dt 1 facts 2 1\nend lines 1 facts 2\n",
        "no 1 list 1\n",
    ),
    (
        "a fact more at the end",
        "calendrica 1 depth 40\nfact 1 dt - 738926 73871\nfact 2 dt - 738927 73871\nline 1 gregorian 2024-02-10 dt 73871 facts 1 2\nend lines 1 facts 2\n",
        "no 1 list 2\n",
    ),
    // Several lines, of which the last lists a fact of an early day.
    (
        "lines of each verdict",
        "calendrica 1 depth 40\nfact 1 dt - 620728 5\nline 1 refused 2\nline 2 gregorian 2024-02-10 fixed 738926 facts\nline 3 gregorian 2024-02-10 fixed 738926 facts 1\nend lines 3 facts 1\n",
        "skip 1\nyes 2\nno 3 void year fact dt - 620728\n",
    ),
];

/// Lines, with what is told of each in a file of version 1 and in one of version 2. A word that a version doesn't have is one
/// that it doesn't know.
static LINES: [(&str, &str, &str); 31] = [
    (
        "gregorian 2048-12-31 fixed 748017 facts",
        "yes 1\n",
        "yes 1\n",
    ),
    (
        "gregorian 2049-01-01 fixed 748018 facts",
        "no 1 form 4\n",
        "yes 1\n",
    ),
    (
        "fixed 748018 gregorian 2049-01-01 facts",
        "no 1 form 4\n",
        "yes 1\n",
    ),
    (
        "gregorian 1802-01-01 fixed 657802 facts",
        "yes 1\n",
        "yes 1\n",
    ),
    (
        "gregorian 1801-12-31 fixed 657801 facts",
        "no 1 form 4\n",
        "yes 1\n",
    ),
    (
        "fixed 657801 gregorian 1801-12-31 facts",
        "no 1 form 4\n",
        "yes 1\n",
    ),
    (
        "gregorian 1702-01-01 fixed 621278 facts",
        "no 1 form 4\n",
        "yes 1\n",
    ),
    (
        "gregorian 1701-12-31 fixed 621277 facts",
        "no 1 form 4\n",
        "no 1 form 4\n",
    ),
    (
        "fixed 784541 gregorian 2148-12-31 facts",
        "no 1 form 4\n",
        "yes 1\n",
    ),
    (
        "fixed 784542 gregorian 2149-01-01 facts",
        "no 1 form 4\n",
        "no 1 form 4\n",
    ),
    (
        "persian 1428-1-1 gregorian 2049-03-20 facts",
        "no 1 form 4\n",
        "no 1 missing nowruz - 748276\n",
    ),
    (
        "bahai 0-17-14-1-1 gregorian 1801-03-21 facts",
        "no 1 form 4\n",
        "no 1 missing bahai-year - 657333\n",
    ),
    (
        "gregorian 1985-01-21 vietnamese 78-2-1-0-1 facts",
        "no 1 form 2\n",
        "no 1 missing solstice hanoi 724662\n",
    ),
    (
        "vietnamese 78-2-1-0-1 gregorian 1985-01-21 facts",
        "no 1 form 2\n",
        "no 1 missing solstice hanoi 724867\n",
    ),
    (
        "gregorian 1985-01-21 korean 78-1-12-0-1 facts",
        "no 1 form 2\n",
        "no 1 missing solstice seoul 724662\n",
    ),
    (
        "japanese 78-1-12-0-1 gregorian 1985-01-21 facts",
        "no 1 form 2\n",
        "no 1 missing solstice tokyo 724502\n",
    ),
    (
        "vietnamese 78-61-1-0-1 gregorian 1985-01-21 facts",
        "no 1 form 2\n",
        "no 1 form 3\n",
    ),
    (
        "gregorian 1992-04-12 distance 368409 facts",
        "no 1 form 2\n",
        "no 1 missing distance - 727300\n",
    ),
    (
        "gregorian 1992-04-12 moonset-ujjain 115 facts",
        "no 1 form 2\n",
        "no 1 missing moonset ujjain 727300\n",
    ),
    (
        "distance 1992-04-12 gregorian 1992-04-12 facts",
        "no 1 form 2\n",
        "no 1 form 2\n",
    ),
    (
        "gregorian 1795-09-22 french 3-13-6 facts",
        "no 1 form 2\n",
        "no 1 missing french-year - 655510\n",
    ),
    (
        "french 4-13-6 gregorian 1796-09-22 facts",
        "no 1 form 2\n",
        "no 1 missing french-year - 655690\n",
    ),
    (
        "french 4-14-1 gregorian 1796-09-22 facts",
        "no 1 form 2\n",
        "no 1 form 3\n",
    ),
    (
        "french 358-1-1 fixed 784842 facts",
        "no 1 form 2\n",
        "no 1 form 4\n",
    ),
    (
        "gregorian 1792-09-22 french 1-1-1 facts",
        "no 1 form 2\n",
        "no 1 missing french-year - 654415\n",
    ),
    (
        "gregorian 1792-09-21 french 1-1-1 facts",
        "no 1 form 2\n",
        "no 1 form 4\n",
    ),
    (
        "fixed 654414 french 1-1-1 facts",
        "no 1 form 2\n",
        "no 1 form 4\n",
    ),
    (
        "hebrew-observed 5784-1-1 gregorian 2024-03-12 facts",
        "no 1 form 2\n",
        "no 1 missing nisan haifa 738886\n",
    ),
    (
        "gregorian 2024-03-12 hebrew-observed 5784-1-1 facts",
        "no 1 form 2\n",
        "no 1 missing phasis haifa 738957\n",
    ),
    (
        "hebrew-observed 5910-1-1 fixed 784540 facts",
        "no 1 form 2\n",
        "no 1 form 4\n",
    ),
    (
        "gregorian 1985-01-21 saigon 78-2-1-0-1 facts",
        "no 1 form 2\n",
        "no 1 form 2\n",
    ),
];

#[test]
fn verdicts_of_files_are_told(rt: HostRuntime) -> Result<(), Fail> {
    for (what, text, want) in &FILES {
        assert_told(&rt, rt.alloc(), what, text, want)?;
    }
    Ok(())
}

#[test]
fn a_line_is_checked_by_the_version_of_its_file(rt: HostRuntime) -> Result<(), Fail> {
    for (line, by_one, by_two) in &LINES {
        for (number, want) in [(1, *by_one), (2, *by_two)] {
            let text = format!(in rt.alloc();
                "calendrica {number} depth 40\nline 1 {line}\nend lines 1 facts 0\n"
            )?;
            assert_told(&rt, rt.alloc(), "a line", &text, want)?;
        }
    }
    Ok(())
}

/// Verdicts that no file above has, and counts.
const TOLD: &[u8] = b"no 4294967295 date 1802-01-01\n\
    no 1 undecided round 2 -5 7 fact dt - 738927\n\
    end yes 1 no 20 skip 300\n";

#[test]
fn results_undecided_tests_and_counts_are_told(rt: HostRuntime) -> Result<(), Fail> {
    let mut told = Gathered::new(rt.alloc());
    let fields = Fields {
        count: 3,
        values: [1802, 1, 1, 0, 0],
    };
    let found = Resolved::Shown(ToWord::Gregorian, fields);
    write_verdict(&mut told, u32::MAX, &Verdict::No(Reason::Date { found }))?;
    let at = Undecided {
        turn: 2,
        site: Site::Round,
        lo: -5,
        hi: 7,
    };
    let undecided = Reason::Undecided(correction_on(738_927)?, at);
    write_verdict(&mut told, 1, &Verdict::No(undecided))?;
    write_counts(&mut told, 1, 20, 300)?;
    assert!(rt; told.bytes() == TOLD);
    completeness();
    Ok(())
}
