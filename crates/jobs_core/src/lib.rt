//! The work of a run, by several workers at the same time. `map_lines` computes an outcome for each row, which is what a
//! line asks or the rule that it breaks, and `map_facts` an answer for each fact. Both deal their work to chunks by
//! `map_places`, work each chunk in a thread of its own, and give what comes of it in the order of the input, each
//! right, whatever the number of chunks and however the threads run. Threads share the answers by a shelf.
//!
//! A gate is told as each chunk begins: by it a test shows that chunks are worked at the same time, which no clause says.
#![tactic(auto)]

mod deal;
mod gate;
mod join;
pub mod laws;
mod line_facts;
mod maps;
mod near;
mod outcome;
mod pieces;
mod row;
mod shown;
mod tools;

pub use gate::{Gate, OpenGate};
pub use line_facts::LineFacts;
pub use maps::{map_facts, map_lines};
pub use outcome::{Finding, Halt, Outcome, Outcomes, outcome_of};
pub use pieces::map_places;
pub use row::{Row, rows_of};
pub use shown::ShownValue;
pub use tools::Tools;
