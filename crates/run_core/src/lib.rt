//! The outside of the program. `convert` reads lines, computes an outcome for each, and writes them with the facts that
//! they rest on; `check` reads such a text and writes a verdict for each of its lines; `almanac` and `east` write what `convert`
//! would write for lines of a year, and `sample` how many of many lines have each outcome; `upgrade` makes of a text of an older
//! version one of the version that is written. Bytes come from a `Source` and go to a `Sink`, which count their faults; `run`
//! does all the work, by as many threads as its arguments say, and says how it ended by a `Status`.
#![tactic(auto)]

mod check;
mod in_memory;
pub mod laws;
mod limits;
mod program;
mod rounds;
mod status;
mod upgrade;
mod work;

pub use byte_streams::{Failed, MemorySink, MemorySource, Sink, Source, StdSink, StdSource};
pub use command_line::Command;
pub use conversion::{WriteStop, answer_briefly, answer_line, write_text};
pub use in_memory::check_bytes;
pub use jobs_core::{Gate, OpenGate, Outcome};
pub use limits::input_limit;
pub use program::{USAGE, run};
pub use status::Status;
