//! Evaluators that leave more facts undecided than the program's own, and that count what they are asked.
use super::{ROW_TEXT, Streams, run_in_memory};
use book_model::Fact;
use encl_core::Coarse;
use fact_eval::{Staged, answer_over, is_close};
use fix_fine::Fine;
use oracle_core::{Answer, Evaluator};
use run_core::{OpenGate, Status};
use std::sync::atomic::AtomicUsize;
use std::sync::atomic::Ordering::SeqCst;
use std::test::Fail;

/// The evaluator by coarse enclosures, and by fine ones where these leave a test undecided whose bounds aren't close. Its
/// undecided answers are right, and there are more of them than the program's own evaluator gives.
struct CoarseWhereClose;

impl Evaluator for CoarseWhereClose {
    fn eval(&self, fact: Fact) -> Answer {
        let coarse = answer_over::<Coarse>(fact);
        if is_close(&coarse) {
            return coarse;
        }
        answer_over::<Fine>(fact)
    }
}

/// What `convert` writes for a line whose fact coarse enclosures leave undecided, by bounds that are near: the months since a new
/// moon lie from two parts of 2⁻³⁶ below a whole number of months to that number.
const UNDECIDED_TEXT: &str = "calendrica 2 depth 40\n\
    line 1 undecided phase-wrap 242 -2097152 0 fact phasis cairo 695106\n\
    end lines 1 facts 0\n";

/// The same line as it is where the fact is decided.
const DECIDED_TEXT: &str = "calendrica 2 depth 40\n\
    fact 1 phasis cairo 695106 695104\n\
    line 1 fixed 695106 islamic 1321-12-3 facts 1\n\
    end lines 1 facts 1\n";

/// What `check` writes for it over coarse enclosures.
const UNDECIDED_VERDICT: &str =
    "no 1 undecided phase-wrap 242 -2097152 0 fact phasis cairo 695106\n\
    end yes 0 no 1 skip 0\n";

/// A line that is decided, and one that isn't.
const DECIDED_AND_UNDECIDED: &str = "calendrica 1 depth 40\n\
    fact 1 phasis cairo 695106 695104\n\
    line 1 fixed 695106 islamic 1321-12-3 facts 1\n\
    line 2 undecided phase-wrap 7 -3 2 fact phasis cairo 695136\n\
    end lines 2 facts 1\n";

/// What `upgrade` makes of it where the fact of the first is left undecided: that line is computed, the other copied.
const BOTH_UNDECIDED: &str = "calendrica 2 depth 40\n\
    line 1 undecided phase-wrap 242 -2097152 0 fact phasis cairo 695106\n\
    line 2 undecided phase-wrap 7 -3 2 fact phasis cairo 695136\n\
    end lines 2 facts 0\n";

/// Coarse enclosures leave one of its facts undecided, ΔT, by bounds that are far apart.
const SAMPLE: &str = "sample 700 1 decided 700 undecided 0 void 0 refused 0 facts 2563\n";

/// Arguments, an input, how the run over coarse enclosures ends, and what it writes.
const UNDECIDED: [(&[&str], &str, Status, &str); 5] = [
    (
        &["convert"],
        "fixed 695106 islamic\n",
        Status::Mixed,
        UNDECIDED_TEXT,
    ),
    (&["check"], DECIDED_TEXT, Status::Mixed, UNDECIDED_VERDICT),
    (
        &["check"],
        UNDECIDED_TEXT,
        Status::Mixed,
        "skip 1\nend yes 0 no 0 skip 1\n",
    ),
    (
        &["upgrade"],
        DECIDED_AND_UNDECIDED,
        Status::Mixed,
        BOTH_UNDECIDED,
    ),
    (&["sample", "700", "1"], "", Status::Done, SAMPLE),
];

#[test]
fn an_undecided_fact_leaves_its_line_undecided(rt: HostRuntime) -> Result<(), Fail> {
    for (words, input, status, text) in UNDECIDED {
        let streams = Streams {
            input: input.as_bytes(),
            read: 0,
            write: 0,
            room: 300,
        };
        let run = run_in_memory(
            &rt,
            rt.alloc(),
            words,
            streams,
            &CoarseWhereClose,
            &OpenGate,
        )?;
        let (got, sink) = run;
        let holds = (got, sink.written()) == (status, text.as_bytes());
        assert!(rt; holds, "{words:?}");
    }
    Ok(())
}

/// The evaluator of the program, which counts the facts that it is asked.
#[derive(Drop)]
struct Counting {
    staged: Staged,
    asked: AtomicUsize,
}

impl Evaluator for Counting {
    fn eval(&self, fact: Fact) -> Answer {
        self.asked.fetch_add(1, SeqCst);
        self.staged.eval(fact)
    }
}

/// Lines with two days and a date that each asks several facts.
const TWICE: &str = "gregorian 2024-02-10 chinese\n\
    gregorian 2024-02-10 chinese\n\
    chinese 78-41-1-0-1 gregorian\n";

/// What `convert` prints: each fact once, before the first line that rests on it; the words of a line with single spaces.
const LINES: &str = " gregorian\t2024-02-10  dt \n\
    gregorian 1990-05-05 dt\n\
    gregorian 1701-12-31 dt\n\
    gregorian 2024-02-10 dt\n\
    gregorian 2024-02-11 dt\n\
    gregorian 1990-05-05 dt\n";

/// What `convert` writes for them, from the first byte on.
const LINES_TEXT: &str = "calendrica 2 depth 40\n\
    fact 1 dt - 738926 73871\n\
    line 1 gregorian 2024-02-10 dt 73871 facts 1\n\
    fact 2 dt - 726592 56895\n\
    line 2 gregorian 1990-05-05 dt 56895 facts 2\n\
    line 3 refused 4\n\
    line 4 gregorian 2024-02-10 dt 73871 facts 1\n\
    fact 3 dt - 738927 73871\n\
    line 5 gregorian 2024-02-11 dt 73871 facts 3\n\
    line 6 gregorian 1990-05-05 dt 56895 facts 2\n\
    end lines 6 facts 3\n";

/// A file of version 1. What its lines and facts say is wrong, and two of its lines have no words.
const OLDER: &str = "calendrica 1 depth 40\n\
    fact 1 dt - 726592 1\n\
    fact 2 dt - 738926 2\n\
    line 1 gregorian 2024-02-10 dt 3 facts 1\n\
    line 2 gregorian 1990-05-05 dt refused 4 5 facts 2 1\n\
    line 3 refused 3\n\
    line 4 undecided year 2 -1 1 fact dt - 726592\n\
    line 5 gregorian 2024-02-10 dt refused 5 1-1-1 facts\n\
    line 6 gregorian 1990-05-05 mayan 6 facts 2\n\
    end lines 6 facts 2\n";

/// What `upgrade` makes of it, by the words of its lines alone.
const NEWER: &str = "calendrica 2 depth 40\n\
    fact 1 dt - 738926 73871\n\
    line 1 gregorian 2024-02-10 dt 73871 facts 1\n\
    fact 2 dt - 726592 56895\n\
    line 2 gregorian 1990-05-05 dt 56895 facts 2\n\
    line 3 refused 3\n\
    line 4 undecided year 2 -1 1 fact dt - 726592\n\
    line 5 gregorian 2024-02-10 dt 73871 facts 1\n\
    line 6 refused 2\n\
    end lines 6 facts 2\n";

/// Arguments, an input, which read fails, how the run ends, the end of what it writes, and how many facts were evaluated.
const COUNTED: [(&[&str], &str, u32, Status, &str, usize); 7] = [
    // Nothing is read under these: the first read would fail.
    (
        &["almanac", "2024"],
        "",
        1,
        Status::Done,
        "end lines 104 facts 152\n",
        152,
    ),
    (
        &["east", "2007"],
        "",
        1,
        Status::Done,
        "end lines 52 facts 124\n",
        124,
    ),
    (
        &["sample", "40", "1"],
        "",
        1,
        Status::Done,
        " refused 0 facts 137\n",
        137,
    ),
    (
        &["convert"],
        TWICE,
        0,
        Status::Done,
        "end lines 3 facts 8\n",
        8,
    ),
    (
        &["check"],
        ROW_TEXT,
        0,
        Status::Done,
        "end yes 1 no 0 skip 0\n",
        1,
    ),
    (&["convert"], LINES, 0, Status::Mixed, LINES_TEXT, 3),
    (&["upgrade"], OLDER, 0, Status::Mixed, NEWER, 2),
];

#[test]
fn a_run_evaluates_each_fact_once(rt: HostRuntime) -> Result<(), Fail> {
    for (words, input, read, status, end, asked) in COUNTED {
        let evaluator = Counting {
            staged: Staged::new(),
            asked: AtomicUsize::new(0),
        };
        let streams = Streams {
            input: input.as_bytes(),
            read,
            write: 0,
            room: 20_000,
        };
        let run = run_in_memory(&rt, rt.alloc(), words, streams, &evaluator, &OpenGate)?;
        let (got, sink) = run;
        let found = (
            got,
            sink.written().ends_with(end.as_bytes()),
            evaluator.asked.load(SeqCst),
        );
        assert!(rt; found == (status, true, asked), "{words:?}");
    }
    Ok(())
}
