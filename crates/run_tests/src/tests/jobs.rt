//! Several threads: that their chunks are worked at the same time, which no clause says, and what they write.
use super::upgrades::{EACH_FORM, EACH_RENEWED};
use super::{Streams, run_in_memory};
use book_model::{Fact, Kind, Place};
use fact_eval::Staged;
use jobs_core::{Gate, map_facts, map_lines, rows_of};
use shelf_core::Shelf;
use std::alloc::Global;
use std::sync::atomic::AtomicBool;
use std::sync::atomic::Ordering::SeqCst;
use std::test::Fail;
use std::thread;
use std::thread::Threads;

/// How often a chunk looks for the other's flag.
const LOOKS: u32 = 200_000_000;

/// What `convert` writes for `gregorian 2024-03-20 persian`.
pub const PERSIAN_TEXT: &str = "calendrica 2 depth 40\n\
    fact 1 nowruz - 738965 738965\n\
    fact 2 nowruz - 739145 738965\n\
    line 1 gregorian 2024-03-20 persian 1403-1-1 facts 1 2\n\
    end lines 1 facts 2\n";

pub const TWO_LINES: &str = "gregorian 2024-02-10 dt\ngregorian 2024-02-10 mayan\n";

const TWO_LINES_TEXT: &str = "calendrica 2 depth 40\n\
    fact 1 dt - 738926 73871\n\
    line 1 gregorian 2024-02-10 dt 73871 facts 1\n\
    line 2 refused 2\n\
    end lines 2 facts 1\n";

/// Two chunks meet here: each raises its own flag, and looks for the other's.
#[derive(Drop)]
struct Meeting {
    flags: [AtomicBool; 2],
    gave_up: AtomicBool,
}

impl Meeting {
    fn new() -> Meeting {
        Meeting {
            flags: [AtomicBool::new(false), AtomicBool::new(false)],
            gave_up: AtomicBool::new(false),
        }
    }

    /// Whether both came, and neither gave up.
    fn was_held(&self) -> bool {
        self.flags[0].load(SeqCst) && self.flags[1].load(SeqCst) && !self.gave_up.load(SeqCst)
    }
}

impl Gate for Meeting {
    fn at(&self, piece: usize) {
        let own = piece % 2;
        self.flags[own].store(true, SeqCst);
        for look in 0..LOOKS {
            if self.flags[1 - own].load(SeqCst) {
                return;
            }
            if look % 4096 == 4095 {
                thread::yield_now();
            }
        }
        self.gave_up.store(true, SeqCst);
    }
}

/// Whether two rows are worked at the same time.
fn rows_meet<R: Threads + Sync>(rt: &R, alloc: Global) -> Result<bool, Fail> {
    let lines: [&[u8]; 2] = [b"gregorian 2024-02-10 dt", b"gregorian 2024-02-10 mayan"];
    let rows = rows_of(rt, alloc, &lines, 1)?;
    let shelf = Shelf::open(alloc)?;
    let gate = Meeting::new();
    let outcomes = map_lines(rt, alloc, &rows, &shelf, &Staged::new(), 2, &gate)?;
    Ok(gate.was_held() && outcomes.len() == 2)
}

/// Whether two facts are worked at the same time.
fn facts_meet<R: Threads + Sync>(rt: &R, alloc: Global) -> Result<bool, Fail> {
    let first = Fact::new(Kind::Nowruz, Place::None, 738_965).ok_or("no fact")?;
    let second = Fact::new(Kind::Nowruz, Place::None, 739_145).ok_or("no fact")?;
    let shelf = Shelf::open(alloc)?;
    let gate = Meeting::new();
    let answers = map_facts(
        rt,
        alloc,
        &[first, second],
        &shelf,
        &Staged::new(),
        2,
        &gate,
    )?;
    Ok(gate.was_held() && answers.len() == 2)
}

/// Arguments for two threads, an input, and what is written.
const MEETINGS: [(&[&str], &str, &str); 3] = [
    (&["convert", "--jobs", "2"], TWO_LINES, TWO_LINES_TEXT),
    (
        &["check", "--jobs", "2"],
        PERSIAN_TEXT,
        "yes 1\nend yes 1 no 0 skip 0\n",
    ),
    (&["upgrade", "--jobs", "2"], EACH_FORM, EACH_RENEWED),
];

#[test]
fn two_chunks_are_worked_at_the_same_time(rt: HostRuntime) -> Result<(), Fail> {
    let alloc = rt.alloc();
    assert!(rt; rows_meet(&rt, alloc)?, "map_lines");
    assert!(rt; facts_meet(&rt, alloc)?, "map_facts");
    for (words, input, text) in MEETINGS {
        let streams = Streams {
            input: input.as_bytes(),
            read: 0,
            write: 0,
            room: 1000,
        };
        let gate = Meeting::new();
        let (_, sink) = run_in_memory(&rt, alloc, words, streams, &Staged::new(), &gate)?;
        let met = (gate.was_held(), sink.written());
        assert!(rt; met == (true, text.as_bytes()), "{words:?}");
    }
    Ok(())
}
