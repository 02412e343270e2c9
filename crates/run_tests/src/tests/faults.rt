//! Streams that fail at each of their calls, by one thread and by eight.
use super::jobs::{PERSIAN_TEXT, TWO_LINES};
use super::upgrades::OLDER_TEXT;
use super::{Streams, run_in_memory};
use fact_eval::Staged;
use run_core::{MemorySink, OpenGate, Status};
use std::alloc::Global;
use std::test::Fail;
use std::thread::Threads;

/// Commands with their input, and how many calls of the source they make.
#[rattlefmt::skip]
const COMMANDS: [(&[&str], &str, u32); 12] = [
    (&["convert", "--jobs", "1"], TWO_LINES, 2),
    (&["convert", "--jobs", "8"], TWO_LINES, 2),
    (&["check", "--jobs", "1"], PERSIAN_TEXT, 2),
    (&["check", "--jobs", "8"], PERSIAN_TEXT, 2),
    (&["almanac", "2024", "--jobs", "1"], "", 0),
    (&["almanac", "2024", "--jobs", "8"], "", 0),
    (&["east", "2007", "--jobs", "1"], "", 0),
    (&["east", "2007", "--jobs", "8"], "", 0),
    (&["sample", "14", "1", "--jobs", "1"], "", 0),
    (&["sample", "14", "1", "--jobs", "8"], "", 0),
    (&["upgrade", "--jobs", "1"], OLDER_TEXT, 2),
    (&["upgrade", "--jobs", "8"], OLDER_TEXT, 2),
];

/// Runs a command whose source fails at one call and whose sink fails at another. Calls count from 1: at 0 none fails.
fn run_failing<R: Threads + Sync>(
    rt: &R,
    alloc: Global,
    words: &[&str],
    input: &str,
    read: u32,
    write: u32,
) -> Result<(Status, MemorySink), Fail> {
    let streams = Streams {
        input: input.as_bytes(),
        read,
        write,
        room: 20_000,
    };
    run_in_memory(rt, alloc, words, streams, &Staged::new(), &OpenGate)
}

#[test]
fn a_read_that_fails_leaves_nothing_written(rt: HostRuntime) -> Result<(), Fail> {
    for (words, input, reads) in COMMANDS {
        for call in 1..reads.saturating_add(2) {
            let (status, sink) = run_failing(&rt, rt.alloc(), words, input, call, 0)?;
            let failed = (status == Status::ReadFault, sink.written().is_empty());
            assert!(rt;
                failed == (call <= reads, call <= reads),
                "{words:?}: {call}"
            );
        }
    }
    Ok(())
}

/// How many writes a command makes. A write that fails leaves a prefix of the text, and the text isn't whole; where none
/// fails the run ends as it would.
fn writes_of<R: Threads + Sync>(
    rt: &R,
    alloc: Global,
    words: &[&str],
    input: &str,
) -> Result<u32, Fail> {
    let (status, whole) = run_failing(rt, alloc, words, input, 0, 0)?;
    let text = whole.written();
    for writes in 0..99u32 {
        let (got, sink) = run_failing(rt, alloc, words, input, 0, writes + 1)?;
        let prefix = sink.written();
        if got == status && prefix == text {
            return Ok(writes);
        }
        if got != Status::WriteFault || prefix.len() >= text.len() || !text.starts_with(prefix) {
            return Err("no prefix of the text")?;
        }
    }
    Err("too many writes")?
}

#[test]
fn a_write_that_fails_leaves_a_prefix_of_the_text(rt: HostRuntime) -> Result<(), Fail> {
    for (words, input, _) in COMMANDS {
        assert!(rt; writes_of(&rt, rt.alloc(), words, input)? > 0, "{words:?}");
    }
    Ok(())
}
