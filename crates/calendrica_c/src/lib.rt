//! The library for C, and for every language that calls C: an evaluator that the caller makes, keeps and gives up, and calls that
//! answer a line by its block of text (`calendrica_answer`), give its result alone (`calendrica_result`), and check a certificate in
//! memory (`calendrica_check`). `include/calendrica.h` declares them, and says what the caller owes.
//!
//! Each call is one of `answered_lines`, whose text is gathered and then handed over in room that the caller gives. No thread is
//! started.
#![tactic(auto)]

mod evaluator;
mod exports;
mod handed;
mod kept;
mod parts;

pub use evaluator::Evaluator;
pub use exports::{
    calendrica_answer, calendrica_check, calendrica_close, calendrica_open, calendrica_result,
};
