//! What the commands do.
ghost use Rattle.std.specs.Prelude.{◌≡◌, IfOk};
ghost use Rattle.command_line.specs.Words.{IsInRange};
ghost use Rattle.run_core.specs.Commands as spec;
ghost use Rattle.run_core.specs.Works.{DoesWork};

use almanac_core::{almanac_requests, east_requests, sample_requests};
use command_line::Command;
use conversion::Rows;
use line_core::split_lines;
use std::alloc::{AllocError, Global};

/// What is done: the text of rows is printed, it is counted how many of a sample's rows have each outcome, a certificate is
/// judged, or one of an older version is renewed.
#[derive(Drop)]
pub(crate) enum Work<'a> {
    Print(Rows<'a>),
    Count {
        rows: Rows<'a>,
        count: u32,
        seed: u64,
    },
    Judge,
    Renew,
}

// Lines and requests go one path: so `almanac` and `east` write what `convert` would write by
// definition.
/// What a command does with an input. The error comes where memory runs out.
#[tactic(auto, using(almanac_core::proofs::SpelledRequests::sample_spelled))]
pub(crate) fn work_of<'a>(
    alloc: Global,
    command: Command,
    input: &'a [u8],
) -> Result<Work<'a>, AllocError>
    requires ranges { IsInRange command }
    ensures work { IfOk result (λ work. DoesWork (spec.work_of command) input.entry.now work) }
{
    match command {
        Command::Convert => Ok(Work::Print(Rows::Lines(split_lines(alloc, input)?))),
        Command::Check => Ok(Work::Judge),
        Command::Upgrade => Ok(Work::Renew),
        Command::Almanac { year } => Ok(Work::Print(Rows::Made(almanac_requests(alloc, year)?))),
        Command::Sample { count, seed } => {
            let rows = Rows::Made(sample_requests(alloc, count, seed)?);
            Ok(Work::Count { rows, count, seed })
        }
        Command::East { year } => Ok(Work::Print(Rows::Made(east_requests(alloc, year)?))),
    }
}
