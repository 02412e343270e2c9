//! Rows that are computed and printed. `Rows` are the lines of an input, or requests that the program makes itself, which
//! contracts see as their lines. `print` computes an outcome for each and writes their text, in which each fact stands once,
//! before the first line that rests on it; `count` computes them too, and writes in one line how many have each outcome. `renew`
//! computes the lines of a certificate anew, by their words alone, and writes their text. `answer_line` computes one line and
//! writes its facts and the line, as a text of it alone has them, and `answer_briefly` its result alone.
#![tactic(auto)]

mod answering;
mod counting;
mod echoes;
mod hashing;
mod listed;
mod numbering;
mod outcome;
mod page;
mod pending;
mod printing;
mod renewing;
mod rows;
mod text;

pub use answering::{answer_briefly, answer_line};
pub use counting::count;
pub use echoes::Echoes;
pub use numbering::{count_of, number_after};
pub use pending::{MANY, write_if_many};
pub use printing::print;
pub use renewing::renew;
pub use rows::Rows;
pub use text::{WriteStop, write_text};
