//! The program that answers each line of its standard input as soon as it has come, and writes the answer to standard output. It
//! ends with the number of the status. It takes no arguments, and looks at none.
#![tactic(auto)]

#[cfg(test)]
mod tests;

use answered_lines::{Answerer, Status, StdSink, StdSource, answer_lines};
use fact_eval::Staged;
use std::io;
use std::process::ExitCode;

fn main(rt: HostRuntime) -> ExitCode {
    let Ok(mut answerer) = Answerer::open(rt.alloc(), Staged::new()) else {
        return ExitCode::from(Status::Memory.number());
    };
    let mut source = StdSource::new(rt.reader());
    let mut sink = StdSink::new(io::writer(&rt));
    let status = answer_lines(rt.alloc(), &mut answerer, &mut source, &mut sink);
    ExitCode::from(status.number())
}
