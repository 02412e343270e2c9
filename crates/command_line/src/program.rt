//! The command by which clap reads the arguments.
//!
//! The arguments that are accepted are exactly those in which clap's own reading finds no fault (`fault_of` at this
//! command), and not a retelling of its rules that could differ from it. This crate stands on clap alone, so that
//! reading the arguments doesn't wait for the formulas.
ghost use Rattle.std.specs.Prelude.{◌≡◌, IfOk, false};
ghost use Rattle.clap.specs.Words.{app_of, rule_of};
ghost use Rattle.command_line.specs.Words as spec;

use clap::{Arg, ArgAction, Command};
use std::alloc::{AllocError, Global};

/// A positional argument.
fn placed<'a>(alloc: Global, id: &'a str, required: bool) -> Arg<'a>
    ensures rule { rule_of result ≡ spec.placed id.entry.now required }
    ensures local { result.global ≡ false }
{
    Arg::new(alloc, id)
        .required(required)
        .action(ArgAction::Set)
}

/// The option `--jobs`.
fn jobs<'a>(alloc: Global) -> Arg<'a>
    ensures rule { rule_of result ≡ spec.jobs }
    ensures local { result.global ≡ false }
{
    Arg::new(alloc, "jobs")
        .long("jobs")
        .action(ArgAction::Set)
        // One processor, unless the run is told otherwise.
        .default_value("1")
}

/// The command with no argument yet.
fn bare<'a>(alloc: Global) -> Command<'a>
    ensures app { app_of result ≡ spec.bare }
{
    Command::new(alloc, "calendrica")
        .no_binary_name(true)
        // Arguments in no form are answered by the usage line, `help` and `--help` among them.
        .disable_help_flag(true)
}

/// The command by which clap reads the arguments.
pub(crate) fn program<'a>(alloc: Global) -> Result<Command<'a>, AllocError>
    ensures app { IfOk result (λ p. app_of p ≡ spec.program) }
{
    // Positional, as clap has it: `-- convert` is `convert`, and in `convert -- --jobs 1` the option
    // is a value of A, so that these arguments are no form.
    let command = placed(alloc, "command", true);
    let first = placed(alloc, "a", false);
    let second = placed(alloc, "b", false);
    bare(alloc)
        .arg(command)?
        .arg(first)?
        .arg(second)?
        .arg(jobs(alloc))
}
