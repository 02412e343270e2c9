//! Reads certificates. `read_file` answers the file that bytes are by the grammar, or the first line that breaks a
//! rule of it. A line is read word by word (`words`, `digits`, `names`) to its form (`form`, `found`), and the forms one
//! after another to the file (`reader`, which knows what it has seen by `seen` and `listings`). What `cert_text` writes is read again
//! (`laws`).
//!
//! The grammar is defined in this crate and not in book_model, since it speaks of these types.
#![tactic(auto)]

mod digits;
mod form;
mod found;
pub mod laws;
mod lines;
mod listings;
mod names;
mod read;
mod reader;
pub mod seen;
mod words;

pub use lines::{CertFile, Lines};
pub use read::{LONGEST_FILE, ReadFail, read_file};
pub use words::is_spaced;
