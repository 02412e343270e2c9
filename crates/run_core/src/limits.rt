//! How many bytes an input may have.
ghost use Rattle.std.specs.Prelude.{◌≡◌};
ghost use Rattle.run_core.specs.Commands as spec;

use cert_parser::LONGEST_FILE;
use command_line::Command;

// The definitions have these numbers too, and the two are proved to be the same.
/// How many bytes an input of a command may have, where the command reads one.
pub(crate) fn limit_read(command: Command) -> Option<usize>
    ensures input { spec.input_of command ≡ spec.input_within result }
{
    match command {
        Command::Convert => Some(4_194_304),
        Command::Check | Command::Upgrade => Some(LONGEST_FILE),
        Command::Almanac { .. } | Command::Sample { .. } | Command::East { .. } => None,
    }
}

/// How many bytes an input of a command may have: none where the command reads nothing.
pub fn input_limit(command: Command) -> usize
    ensures limit { result ≡ spec.limit_of command }
{
    match limit_read(command) {
        Some(limit) => limit,
        None => 0,
    }
}
