//! The text of certificates, as it is written. A file is a header, the facts and the lines, each numbered from 1, and
//! an end line that counts them. `write_block` writes the facts and the line that stand for one line of input;
//! `write_result` writes the result of a line.
//!
//! It stands below the crate that reads such files, so that writing stands on no request of a line. There is one
//! writer: what is proved of a block's text and of its being read again holds of what the program prints.
#![tactic(auto)]

mod brief;
mod echo;
pub mod laws;
mod line;
mod lists;
mod result;
mod write;

pub use echo::Echo;
pub use line::{Block, CertLine};
pub use lists::{Numbers, Word};
pub use result::{date_word, no_date_word, result_word, too_far_word, write_date, write_result};
pub use write::{
    write_block, write_end, write_fact, write_header, write_line, write_list, write_undecided,
    write_void,
};
