//! The limit of an input, the numbers of statuses, and writes of a long text.
use super::{ROW, Streams, run_in_memory};
use fact_eval::Staged;
use run_core::{Command, OpenGate, Status, input_limit};
use std::test::Fail;

const NUMBERS: [(Status, u8); 8] = [
    (Status::Done, 0),
    (Status::Mixed, 1),
    (Status::Words, 2),
    (Status::ReadFault, 3),
    (Status::WriteFault, 4),
    (Status::Memory, 5),
    (Status::TooLarge, 6),
    (Status::BadText, 7),
];

// What comes of inputs at the limit of `convert` and past it, `tests/run-outside` shows on the built program.
#[test]
fn statuses_and_limits_are_numbers(rt: HostRuntime) {
    for (status, number) in NUMBERS {
        assert!(rt; status.number() == number);
    }
    assert!(rt; input_limit(Command::Convert) == 4_194_304);
    assert!(rt; input_limit(Command::Upgrade) == 268_435_456);
}

#[test]
fn a_long_text_takes_few_writes(rt: HostRuntime) -> Result<(), Fail> {
    let alloc = rt.alloc();
    let mut input = Vec::new(alloc);
    for _ in 0..3000u32 {
        input.extend_from_slice(ROW.as_bytes())?;
    }
    // About 148,000 bytes are written in three writes: the fourth would fail.
    let streams = Streams {
        input: &input,
        read: 0,
        write: 4,
        room: 200_000,
    };
    let (staged, words) = (Staged::new(), ["convert"]);
    let (got, sink) = run_in_memory(&rt, alloc, &words, streams, &staged, &OpenGate)?;
    assert!(rt; got == Status::Done);
    assert!(rt; sink.written().ends_with(b"end lines 3000 facts 1\n"));
    Ok(())
}
