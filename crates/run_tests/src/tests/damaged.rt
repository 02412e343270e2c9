//! Damaged files and prefixes of a file, by one thread and by eight.
use super::jobs::PERSIAN_TEXT;
use super::{Streams, assert_run, run_in_memory};
use fact_eval::Staged;
use run_core::{OpenGate, Status};
use std::test::Fail;

/// The arguments for one thread and for eight.
const CHECKS: [&[&str]; 2] = [&["check", "--jobs", "1"], &["check", "--jobs", "8"]];

/// These bytes, all of which can be read, and room for a short text.
fn whole(input: &[u8]) -> Streams<'_> {
    Streams {
        input,
        read: 0,
        write: 0,
        room: 100,
    }
}

/// Files of version 1, but where one of version 2 is damaged.
const HEADER: &str = "calendrica 1 depth 40\n";

const WRITTEN_HEADER: &str = "calendrica 2 depth 40\n";

const FIRST: &str = "fact 1 nowruz - 738965 738965\n";

const SECOND: &str = "fact 2 nowruz - 739145 738965\n";

const LINE: &str = "line 1 gregorian 2024-03-20 persian 1403-1-1 facts 1 2\n";

const END: &str = "end lines 1 facts 2\n";

const YES: &str = "yes 1\nend yes 1 no 0 skip 0\n";

/// Files in parts, each with one damage, and what `check` writes for it.
#[rattlefmt::skip]
static DAMAGED: [([&str; 5], &str, Status); 18] = [
    (["", "", "", "", ""], "bad 1 1\n", Status::BadText),
    (["calendrica 1 depth 41\n", FIRST, SECOND, LINE, END], "bad 1 1\n", Status::BadText),
    (["calendrica 3 depth 40\n", FIRST, SECOND, LINE, END], "bad 1 1\n", Status::BadText),
    ([HEADER, WRITTEN_HEADER, FIRST, LINE, END], "bad 2 2\n", Status::BadText),
    ([WRITTEN_HEADER, HEADER, FIRST, LINE, END], "bad 2 2\n", Status::BadText),
    ([WRITTEN_HEADER, FIRST, SECOND, LINE, END], YES, Status::Done),
    ([HEADER, FIRST, "fact 3 nowruz - 739145 738965\n", LINE, END], "bad 3 3\n", Status::BadText),
    ([HEADER, FIRST, "fact 2 nowruz - 738965 738965\n", LINE, END], "bad 3 4\n", Status::BadText),
    ([HEADER, FIRST, "fact 2 nowruz beijing 739145 738965\n", LINE, END], "bad 3 7\n", Status::BadText),
    ([HEADER, FIRST, "fact 2 nowruz - 739145 0738965\n", LINE, END], "bad 3 2\n", Status::BadText),
    ([HEADER, FIRST, SECOND, "line 1 gregorian 2024-03-20 persian 1403-1-1 facts 1 1\n", END], "bad 4 5\n", Status::BadText),
    ([HEADER, FIRST, SECOND, LINE, "end lines 1 facts 3\n"], "bad 5 6\n", Status::BadText),
    ([HEADER, FIRST, SECOND, LINE, "end lines 1 facts 2\nend lines 1 facts 2\n"], "bad 6 6\n", Status::BadText),
    ([HEADER, FIRST, SECOND, LINE, "end lines 1 facts 2\nx\n"], "bad 6 2\n", Status::BadText),
    ([HEADER, FIRST, "fact 2 nowruz - 739145 7389", "", ""], "bad 4 6\n", Status::BadText),
    ([HEADER, FIRST, SECOND, LINE, "end lines 1 facts 2"], YES, Status::Done),
    ([HEADER, FIRST, SECOND, "fact 3 nowruz - 738600 1\nline 1 gregorian 2024-03-20 persian 1403-1-1 facts 1 2\n",
        "end lines 1 facts 3\n"], YES, Status::Done),
    ([HEADER, FIRST, SECOND, "line 1 gregorian 2024-03-20 mayan 1403-1-1 facts 1 2\n", END],
        "no 1 form 2\nend yes 0 no 1 skip 0\n", Status::Mixed),
];

#[test]
fn damages_are_told(rt: HostRuntime) -> Result<(), Fail> {
    let alloc = rt.alloc();
    for (parts, text, status) in &DAMAGED {
        let mut file = Vec::new(alloc);
        for part in parts {
            file.extend_from_slice(part.as_bytes())?;
        }
        for words in CHECKS {
            assert_run(&rt, alloc, words, whole(&file), *status, text)?;
        }
    }
    Ok(())
}

#[test]
fn a_prefix_of_a_file_is_no_file(rt: HostRuntime) -> Result<(), Fail> {
    let file = PERSIAN_TEXT.as_bytes();
    for (end, _) in file.iter().enumerate() {
        // The last byte is a line feed, without which it is a file still.
        let is_file = end.saturating_add(1) == file.len();
        for words in CHECKS {
            let prefix = whole(&file[..end]);
            let run = run_in_memory(&rt, rt.alloc(), words, prefix, &Staged::new(), &OpenGate)?;
            let (got, sink) = run;
            let told = (got != Status::BadText, !sink.written().starts_with(b"bad "));
            assert!(rt; told == (is_file, is_file), "{words:?}: {end}");
        }
    }
    Ok(())
}
