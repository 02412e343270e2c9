//! What a line asks, or the first rule that it breaks, and the result of its request by the answers of an oracle.
#![tactic(auto)]

mod checked;
mod dates;
mod fields;
mod gregorian;
pub mod laws;
mod line;
mod reach;
mod request;
mod result;
mod split;

pub use book_model::Version;
pub use checked::Checked;
pub use line::{
    ThreeWords, check_words, cut_word, read_line, read_words, spaced_words, three_words,
};
pub use request::checked_request;
pub use result::{resolve, resolve_checked};
pub use split::{cut_line, split_lines};
