//! Lines over streams in memory that end early, give little or fail, and over a client that asks on only once it is answered. What
//! the answers are where nothing fails, tests/check-library shows on the built program.
ghost use Rattle.std.specs.Prelude.{None};

use answered_lines::{
    Answerer, BegunLine, Failed, MemorySink, MemorySource, Sink, Source, Status, answer_last,
    answer_lines, answer_piece,
};
use fact_eval::Staged;
use std::alloc::Global;
use std::cell::Cell;
use std::test::Fail;

const DT: &str = "fact 1 dt - 738926 73871\nline 1 fixed 738926 dt 73871 facts 1\n";

const LONG: &str = "line 1 refused 1\n";

/// The input, which read fails, counted from 1, the room for the answers, how it ends, and the answers as far as there is room.
type Row = (&'static str, u32, usize, Status, &'static [&'static str]);

#[rattlefmt::skip]
static ROWS: [Row; 14] = [
    ("", 0, 99, Status::Done, &[]),
    ("\n", 0, 99, Status::Done, &[LONG]),
    ("fixed 738926 dt", 0, 99, Status::Done, &[DT]),
    ("fixed 738926 dt\n", 0, 99, Status::Done, &[DT]),
    ("fixed 738926 dt\r\nfixed 738926 dt\r", 0, 999, Status::Done, &[DT, DT]),
    ("fixed 738926 dt\nx\n\nfixed 738926 dt", 0, 999, Status::Done, &[DT, LONG, LONG, DT]),
    // The first read gives all, and the second fails: what has ended is answered.
    ("fixed 738926 dt\nfixed 738926 dt", 1, 999, Status::ReadFault, &[]),
    ("fixed 738926 dt\nfixed 738926 dt", 2, 999, Status::ReadFault, &[DT]),
    ("fixed 738926 dt\nfixed 738926 dt\n", 2, 999, Status::ReadFault, &[DT, DT]),
    ("fixed 738926 dt\nfixed 738926 dt\n", 3, 999, Status::Done, &[DT, DT]),
    // A prefix of the answers.
    ("fixed 738926 dt\nx\n", 0, 0, Status::WriteFault, &[DT, LONG]),
    ("fixed 738926 dt\nx\n", 0, 61, Status::WriteFault, &[DT, LONG]),
    ("fixed 738926 dt\nx\n", 0, 62, Status::WriteFault, &[DT, LONG]),
    ("fixed 738926 dt\nx", 0, 79, Status::Done, &[DT, LONG]),
];

/// Texts one behind another.
fn joined(alloc: Global, texts: &[&str]) -> Result<Vec<u8>, Fail> {
    let mut all = Vec::new(alloc);
    for text in texts {
        all.extend_from_slice(text.as_bytes())?;
    }
    Ok(all)
}

#[test]
fn answering_ends_as_its_streams_say(rt: HostRuntime) -> Result<(), Fail> {
    let alloc = rt.alloc();
    let mut answerer = Answerer::open(alloc, Staged::new())?;
    for (input, read, room, status, texts) in &ROWS {
        let mut source = MemorySource::new(input.as_bytes().to_vec(alloc)?, vec![in alloc; *read]?);
        let mut sink = MemorySink::new(alloc, *room, vec![in alloc]?)?;
        let got = answer_lines(alloc, &mut answerer, &mut source, &mut sink);
        let wanted = joined(alloc, texts)?;
        let prefix = &wanted[..wanted.len().min(*room)];
        assert!(rt;
            (got, sink.written()) == (*status, prefix),
            "{input:?}: {room}"
        );
    }
    Ok(())
}

/// Lines of so many bytes, spaces and then this, with this behind them, and whether they are refused.
const LENGTHS: [(usize, &str, bool); 8] = [
    (199, "\n", false),
    (200, "\n", false),
    (200, "\r\n", false),
    (200, "", false),
    (201, "\n", true),
    (201, "\r\n", true),
    (202, "\n", true),
    (9999, "\r\n", true),
];

#[test]
fn lines_of_more_than_200_bytes_are_refused(rt: HostRuntime) -> Result<(), Fail> {
    let alloc = rt.alloc();
    let mut answerer = Answerer::open(alloc, Staged::new())?;
    let words = "fixed 738926 dt";
    for (length, end, is_refused) in LENGTHS {
        let mut input = Vec::new(alloc);
        input.resize(length.saturating_sub(words.len()), b' ')?;
        input.extend_from_slice(words.as_bytes())?;
        input.extend_from_slice(end.as_bytes())?;
        // In pieces of 7 bytes, and of 201.
        for size in [7usize, 201] {
            let mut sink = MemorySink::new(alloc, 99, vec![in alloc]?)?;
            let mut begun = BegunLine::new(alloc);
            for piece in input.chunks(size) {
                let answered = answer_piece(&mut answerer, &mut sink, &mut begun, piece);
                assert!(rt; answered.is_ok(), "{length}");
            }
            assert!(rt; answer_last(&mut answerer, &mut sink, &mut begun).is_ok());
            let wanted = if is_refused { LONG } else { DT };
            assert!(rt; sink.written() == wanted.as_bytes(), "{length}: {size}");
        }
    }
    Ok(())
}

/// Gives a line at each call, and fails where the line before isn't answered.
#[derive(Drop)]
struct Client<'a> {
    lines: &'a [&'a str],
    given: usize,
    answers: &'a Cell<usize>,
    faults: u64,
}

impl Source for Client<'_> {
    ghost left = { λ s. None };

    ghost faults = { λ s. s.faults };

    fn read(&mut self, into: &mut [u8]) -> Result<usize, Failed> {
        if self.answers.get() != self.given {
            self.faults = self.faults.saturating_add(1);
            return Err(Failed);
        }
        let Some(line) = self.lines.get(self.given) else {
            return Ok(0);
        };
        self.given = self.given.saturating_add(1);
        let bytes = line.as_bytes();
        let count = bytes.len().min(into.len());
        into[..count].copy_from_slice(&bytes[..count]);
        Ok(count)
    }
}

/// Counts what is written to it, each write as an answer.
#[derive(Drop)]
struct Answers<'a> {
    answers: &'a Cell<usize>,
    faults: u64,
}

impl Sink for Answers<'_> {
    ghost written = { λ s. None };

    ghost faults = { λ s. s.faults };

    fn write(&mut self, from: &[u8]) -> Result<usize, Failed> {
        self.answers.set(self.answers.get().saturating_add(1));
        Ok(from.len())
    }
}

#[test]
fn each_line_is_answered_by_one_write_before_more_is_read(rt: HostRuntime) -> Result<(), Fail> {
    let alloc = rt.alloc();
    let mut answerer = Answerer::open(alloc, Staged::new())?;
    let answers = Cell::new(0);
    let lines = ["fixed 738926 dt\n", "x\n", "fixed 738926 chinese\n", "\r\n"];
    let mut source = Client {
        lines: &lines,
        given: 0,
        answers: &answers,
        faults: 0,
    };
    let mut sink = Answers {
        answers: &answers,
        faults: 0,
    };
    let status = answer_lines(alloc, &mut answerer, &mut source, &mut sink);
    assert!(rt; (status, answers.get()) == (Status::Done, 4));
    Ok(())
}
