//! Lines that are answered one by one, for programs that ask again and again. An `Answerer` computes a line and writes what stands
//! for it by itself (`answer`), or its result alone (`answer_briefly`), and checks a certificate that stands in memory
//! (`check`); it keeps the facts that it has evaluated from call to call, so many and no more. `answer_lines` reads lines from a
//! source and writes the answer to each before it reads on; `answer_piece` answers the lines that end in bytes as they come, and
//! keeps a prefix of a line that has begun (`BegunLine`).
//!
//! It stands beside `run`, which reads its whole input before it writes, and on the same calls: the text of an answer is what `run`
//! writes for an input of this line alone, between its header and its end line. No thread is started.
#![tactic(auto)]

mod answerer;
mod begun;
mod counted;
mod lines;

pub use answerer::{Answerer, MOST_FACTS};
pub use begun::BegunLine;
pub use byte_streams::Gathered;
pub use lines::{answer_last, answer_lines, answer_piece};
pub use run_core::{
    Failed, MemorySink, MemorySource, Sink, Source, Status, StdSink, StdSource, WriteStop,
};
