//! The reading of the program's arguments.
ghost use Rattle.std.specs.Prelude.{◌≡◌, ◌≤◌, IfOk, IfSome, IsErrOf, map, option_map, string_bytes, None, Some, true, false};
ghost use Rattle.clap.specs.Words.{found_of, kind_of, matches_of, rows_of};
ghost use Rattle.command_line.specs.Words as spec;

use crate::command::{Command, NoCommand, Order};
use crate::number::number_between;
use crate::program::program;
use book_model::{FIRST_ALMANAC_YEAR, LAST_ALMANAC_YEAR};
use clap::error::ErrorKind;
use clap::{ArgMatches, Error};
use std::alloc::Global;

/// The command that an argument names, with nothing behind it.
fn lone_command(name: &str) -> Option<Command>
    ensures command { result ≡ spec.lone_command name.now }
{
    match name {
        "convert" => Some(Command::Convert),
        "check" => Some(Command::Check),
        "upgrade" => Some(Command::Upgrade),
        _ => None,
    }
}

/// A year of which there is an almanac, as an argument spells it.
fn almanac_year(word: &str) -> Option<u32>
    ensures year { result ≡ spec.almanac_year word.now }
{
    let year = number_between(
        word,
        u64::from(FIRST_ALMANAC_YEAR),
        u64::from(LAST_ALMANAC_YEAR),
    )?;
    Some(year as u32)
}

/// The command that an argument names with a year behind it.
fn year_command(name: &str, year: &str) -> Option<Command>
    ensures command { result ≡ spec.year_command name.now year.now }
{
    let year = almanac_year(year)?;
    match name {
        "almanac" => Some(Command::Almanac { year }),
        "east" => Some(Command::East { year }),
        _ => None,
    }
}

/// The command that an argument names with a count and a seed behind it.
fn sample_command(name: &str, count: &str, seed: &str) -> Option<Command>
    ensures command { result ≡ spec.sample_command name.now count.now seed.now }
{
    if name != "sample" {
        return None;
    }
    let count = number_between(count, 1, 100_000)?;
    let seed = number_between(seed, 0, u64::MAX)?;
    Some(Command::Sample {
        count: count as u32,
        seed,
    })
}

/// The command that an argument names with what stands behind it, by the table.
fn table(name: &str, first: Option<&str>, second: Option<&str>) -> Option<Command>
    ensures command { result ≡ spec.table name.now (option_map (λ s. s.now) first.entry)
        (option_map (λ s. s.now) second.entry) }
{
    match (first, second) {
        (None, None) => lone_command(name),
        (Some(year), None) => year_command(name, year),
        (Some(count), Some(seed)) => sample_command(name, count, seed),
        (None, Some(_)) => None,
    }
}

// More threads than processors are allowed: they even out chunks of unequal work.
/// How many threads an argument asks for, from 1 to 64.
fn jobs_in(word: &str) -> Option<usize>
    ensures jobs { result ≡ spec.jobs_in word.now }
    ensures range { IfSome result (λ n. (1 ≤ n) × (n ≤ 64)) }
{
    let jobs = number_between(word, 1, 64)?;
    Some(jobs as usize)
}

/// The order that the values of the arguments tell.
fn order_of_values(
    name: Option<&str>,
    jobs: Option<&str>,
    first: Option<&str>,
    second: Option<&str>,
) -> Option<Order>
    ensures command { option_map (λ t. t.command) result
        ≡ spec.told_by (option_map (λ s. s.now) name.entry)
        (option_map (λ s. s.now) jobs.entry) (option_map (λ s. s.now) first.entry)
        (option_map (λ s. s.now) second.entry) }
    ensures jobs { IfSome result (λ t. spec.jobs_told (option_map (λ s. s.now) jobs.entry)
        ≡ Some t.jobs) }
    ensures range { IfSome result (λ t. (1 ≤ t.jobs) × (t.jobs ≤ 64)) }
{
    let name = name?;
    let jobs = jobs_in(jobs?)?;
    let command = table(name, first, second)?;
    Some(Order { command, jobs })
}

/// The order that clap's reading of the arguments tells.
fn order_of_matches(matches: &ArgMatches) -> Option<Order>
    ensures command { option_map (λ t. t.command) result
        ≡ spec.told (rows_of (found_of matches.now)) }
    ensures jobs { IfSome result (λ t. spec.told_jobs (rows_of (found_of matches.now))
        ≡ Some t.jobs) }
    ensures range { IfSome result (λ t. (1 ≤ t.jobs) × (t.jobs ≤ 64)) }
{
    let name = matches.get_str("command");
    let jobs = matches.get_str("jobs");
    let first = matches.get_str("a");
    let second = matches.get_str("b");
    order_of_values(name, jobs, first, second)
}

/// Why clap read no arguments: memory ran out, or they aren't in the form.
fn reason(error: &Error) -> NoCommand
    ensures memory { result ≡ NoCommand.Form → kind_of error.now ≡ ErrorKind.OutOfMemory → ⊥ }
{
    match error.kind() {
        ErrorKind::OutOfMemory => NoCommand::Memory,
        _ => NoCommand::Form,
    }
}

/// What clap finds in the arguments. `Form` comes where it finds a fault, and `Memory` where memory runs out.
fn matches_in<'a>(alloc: Global, words: &'a [String]) -> Result<ArgMatches<'a>, NoCommand>
    ensures accepted { IfOk result (λ m. spec.is_accepted (map string_bytes words.entry.now)
        ≡ true) }
    ensures matches { IfOk result (λ m. rows_of (found_of m) ≡ matches_of spec.program
        (map string_bytes words.entry.now)) }
    ensures form { IsErrOf result NoCommand.Form → spec.is_accepted
        (map string_bytes words.entry.now) ≡ false }
{
    let Ok(command) = program(alloc) else {
        return Err(NoCommand::Memory);
    };
    match command.try_get_matches_from(words) {
        Ok(matches) => Ok(matches),
        Err(error) => Err(reason(&error)),
    }
}

/// The order that the arguments tell: the command that they name, `convert`, `check`, `almanac YEAR`, `sample COUNT SEED`,
/// `upgrade` or `east YEAR`, and the threads of `--jobs N`, 1 to 64, which are 1 where the option isn't given. The arguments
/// come without the program's own name.
///
/// `Form` comes where the arguments name no command, and `Memory` where memory ran out before they were read.
pub fn order_of(alloc: Global, words: &[String]) -> Result<Order, NoCommand>
    ensures command { IfOk result (λ t. spec.command_of (map string_bytes words.now)
        ≡ Some t.command) }
    ensures jobs { IfOk result (λ t. spec.jobs_of (map string_bytes words.now) ≡ Some t.jobs) }
    ensures form { IsErrOf result NoCommand.Form → spec.command_of
        (map string_bytes words.now) ≡ None }
    ensures ranges { IfOk result (λ t. spec.IsInRange t.command) }
    ensures some { IfOk result (λ t. 1 ≤ t.jobs) }
    ensures few { IfOk result (λ t. t.jobs ≤ 64) }
{
    let matches = matches_in(alloc, words)?;
    order_of_matches(&matches).ok_or(NoCommand::Form)
}
