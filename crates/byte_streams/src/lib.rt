//! Bytes in and out. A `Source` gives bytes and a `Sink` takes them, and both count their faults. They stand over
//! readers and writers of the standard library (`standard`), in memory (`memory`), or gather what is written
//! (`gathered`). `read_all` reads an input to its end, `write_all` and `write_parts` write texts whole, or a prefix
//! of them where a write fails.
//!
//! The streams stand below both writing and reading: writing stands on no stream's implementation, and reading stands
//! above writing.
#![tactic(auto)]

mod gathered;
mod memory;
mod parts;
mod standard;
mod stream;

pub use gathered::Gathered;
pub use memory::{MemorySink, MemorySource};
pub use parts::{decimal, write_parts, write_two_counts};
pub use standard::{StdSink, StdSource};
pub use stream::{Failed, ReadStop, Sink, Source, read_all, write_all};
