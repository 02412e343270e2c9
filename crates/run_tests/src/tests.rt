//! The top call over streams that fail, end early or give and take little at a time, over evaluators that leave facts undecided or
//! count them, and by several threads. What the text is where nothing fails, the rows under `tests/rows` show on the built program.
mod damaged;
mod evaluators;
mod faults;
mod jobs;
mod limits;
mod little;
mod new_year;
mod upgrades;

use fact_eval::Staged;
use oracle_core::Evaluator;
use run_core::{Gate, MemorySink, MemorySource, OpenGate, Sink, Source, Status, USAGE, run};
use std::alloc::Global;
use std::process::Abort;
use std::test::Fail;
use std::thread::Threads;
use upgrades::{NEWER_TEXT, OLDER_TEXT};

pub const ROW: &str = "gregorian 2024-02-10 dt\n";

pub const ROW_TEXT: &str = "calendrica 2 depth 40\n\
    fact 1 dt - 738926 73871\n\
    line 1 gregorian 2024-02-10 dt 73871 facts 1\n\
    end lines 1 facts 1\n";

/// What `check` writes for `ROW_TEXT`.
const COUNTS: &str = "yes 1\nend yes 1 no 0 skip 0\n";

/// What `sample 1 0` writes.
const SAMPLE: &str = "sample 1 0 decided 1 undecided 0 void 0 refused 0 facts 1\n";

/// Owned arguments.
fn words_of(alloc: Global, words: &[&str]) -> Result<Vec<String>, Fail> {
    let mut owned = Vec::new(alloc);
    for word in words {
        owned.push(String::from_str(alloc, *word)?)?;
    }
    Ok(owned)
}

/// The status of the top call over these streams.
fn run_over<R: Threads + Sync, S: Source, K: Sink, E: Evaluator + Sync, G: Gate + Sync>(
    rt: &R,
    alloc: Global,
    words: &[&str],
    source: &mut S,
    sink: &mut K,
    evaluator: &E,
    gate: &G,
) -> Result<Status, Fail> {
    let words = words_of(alloc, words)?;
    Ok(run(rt, alloc, &words, source, sink, evaluator, gate))
}

/// Streams in memory: the input, which read and which write fail, counted from 1, and the room for the output. At 0 none fails.
#[derive(Drop)]
struct Streams<'a> {
    input: &'a [u8],
    read: u32,
    write: u32,
    room: usize,
}

/// The status of the top call over streams in memory, and what was written.
fn run_in_memory<R: Threads + Sync, E: Evaluator + Sync, G: Gate + Sync>(
    rt: &R,
    alloc: Global,
    words: &[&str],
    streams: Streams<'_>,
    evaluator: &E,
    gate: &G,
) -> Result<(Status, MemorySink), Fail> {
    let input = streams.input.to_vec(alloc)?;
    let mut source = MemorySource::new(input, vec![in alloc; streams.read]?);
    let mut sink = MemorySink::new(alloc, streams.room, vec![in alloc; streams.write]?)?;
    let status = run_over(rt, alloc, words, &mut source, &mut sink, evaluator, gate)?;
    Ok((status, sink))
}

/// A run of the program's own evaluator ends so, and writes as much of this text as there is room for.
fn assert_run<R: Threads + Abort + Sync>(
    rt: &R,
    alloc: Global,
    words: &[&str],
    streams: Streams<'_>,
    status: Status,
    text: &str,
) -> Result<(), Fail> {
    let bytes = text.as_bytes();
    let prefix = &bytes[..streams.room.min(bytes.len())];
    let (got, sink) = run_in_memory(rt, alloc, words, streams, &Staged::new(), &OpenGate)?;
    let holds = (got, sink.written()) == (status, prefix);
    assert!(rt; holds, "{words:?}: {text}");
    Ok(())
}

/// Arguments, the input, which read fails, the room for the output, how the run ends, and what it writes as far as there is room.
type Row = (
    &'static [&'static str],
    &'static str,
    u32,
    usize,
    Status,
    &'static str,
);

#[rattlefmt::skip]
static ROWS: [Row; 35] = [
    // A failing read leaves nothing written.
    (&["convert"], ROW, 1, 1000, Status::ReadFault, ""),
    (&["convert"], ROW, 2, 1000, Status::ReadFault, ""),
    (&["convert"], ROW, 3, 1000, Status::Done, ROW_TEXT),
    // A full sink keeps a prefix of the text.
    (&["convert"], ROW, 0, 0, Status::WriteFault, ROW_TEXT),
    (&["convert"], ROW, 0, 10, Status::WriteFault, ROW_TEXT),
    (&["convert"], ROW, 0, 111, Status::WriteFault, ROW_TEXT),
    (&["convert"], ROW, 0, 112, Status::Done, ROW_TEXT),
    (&["check"], ROW_TEXT, 0, 9, Status::WriteFault, COUNTS),
    (&["check"], ROW_TEXT, 0, 27, Status::WriteFault, COUNTS),
    (&["check"], ROW_TEXT, 0, 28, Status::Done, COUNTS),
    (&["check"], ROW, 0, 7, Status::WriteFault, "bad 1 1\n"),
    (&["check"], ROW, 0, 8, Status::BadText, "bad 1 1\n"),
    (&["sample", "1", "0"], "", 0, 0, Status::WriteFault, SAMPLE),
    (&["sample", "1", "0"], "", 0, 57, Status::WriteFault, SAMPLE),
    (&["sample", "1", "0"], "", 0, 58, Status::Done, SAMPLE),
    (&["upgrade"], OLDER_TEXT, 0, 0, Status::WriteFault, NEWER_TEXT),
    (&["upgrade"], OLDER_TEXT, 0, 10, Status::WriteFault, NEWER_TEXT),
    (&["upgrade"], OLDER_TEXT, 0, 158, Status::WriteFault, NEWER_TEXT),
    (&["upgrade"], OLDER_TEXT, 0, 159, Status::Done, NEWER_TEXT),
    (&["upgrade"], NEWER_TEXT, 0, 7, Status::WriteFault, "bad 1 1\n"),
    (&["upgrade"], NEWER_TEXT, 0, 8, Status::BadText, "bad 1 1\n"),
    // Other arguments are answered by the usage line, and nothing is read: the first read would fail.
    (&[], "", 1, 1000, Status::Words, USAGE),
    (&[], "", 1, 5, Status::WriteFault, USAGE),
    (&[""], "", 1, 1000, Status::Words, USAGE),
    (&[""], "", 1, 5, Status::WriteFault, USAGE),
    (&["Convert"], "", 1, 1000, Status::Words, USAGE),
    (&["Convert"], "", 1, 5, Status::WriteFault, USAGE),
    (&["convert "], "", 1, 1000, Status::Words, USAGE),
    (&["convert "], "", 1, 5, Status::WriteFault, USAGE),
    (&["convert", "convert"], "", 1, 1000, Status::Words, USAGE),
    (&["convert", "convert"], "", 1, 5, Status::WriteFault, USAGE),
    (&["convert", "check"], "", 1, 1000, Status::Words, USAGE),
    (&["convert", "check"], "", 1, 5, Status::WriteFault, USAGE),
    (&["Check"], "", 1, 1000, Status::Words, USAGE),
    (&["Check"], "", 1, 5, Status::WriteFault, USAGE),
];

#[test]
fn runs_end_as_their_streams_and_words_say(rt: HostRuntime) -> Result<(), Fail> {
    for (words, input, read, room, status, text) in &ROWS {
        let streams = Streams {
            input: input.as_bytes(),
            read: *read,
            write: 0,
            room: *room,
        };
        assert_run(&rt, rt.alloc(), words, streams, *status, text)?;
    }
    Ok(())
}
