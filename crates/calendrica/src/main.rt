//! The program: hands its arguments and its standard streams to `run_core::run`, and ends with the number of the status.
#![tactic(auto)]

use fact_eval::Staged;
use run_core::{OpenGate, StdSink, StdSource, run};
use std::alloc::{AllocError, Global};
use std::env::{self, Args};
use std::io::{self, ErrorKind};
use std::process::ExitCode;

/// What the program ends with where memory runs out while the arguments are collected.
const MEMORY: u8 = 5;

// No run ends so.
/// What the program ends with where the system doesn't hand over the arguments as text.
const NO_WORDS: u8 = 8;

/// The arguments after the program's name.
fn words(alloc: Global, args: Args) -> Result<Vec<String>, AllocError> {
    args.skip(1).collect(alloc)
}

fn main(rt: HostRuntime) -> ExitCode {
    let args = match env::args(&rt) {
        Ok(args) => args,
        Err(error) if error.kind() == ErrorKind::OutOfMemory => return ExitCode::from(MEMORY),
        Err(_) => return ExitCode::from(NO_WORDS),
    };
    let Ok(words) = words(rt.alloc(), args) else {
        return ExitCode::from(MEMORY);
    };
    let mut source = StdSource::new(rt.reader());
    let mut sink = StdSink::new(io::writer(&rt));
    let status = run(
        &rt,
        rt.alloc(),
        &words,
        &mut source,
        &mut sink,
        &Staged::new(),
        &OpenGate,
    );
    ExitCode::from(status.number())
}
