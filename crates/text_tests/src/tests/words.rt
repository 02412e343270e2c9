//! Arguments at spaces, and what they tell.
use command_line::{Command, NoCommand, Order, order_of};
use std::alloc::Global;
use std::process::Abort;
use std::test::Fail;

/// The parts of a line, as they stand between single spaces, tell this.
fn assert_told(
    rt: &impl Abort,
    alloc: Global,
    line: &str,
    want: Result<Order, NoCommand>,
) -> Result<(), Fail> {
    let mut words = Vec::new(alloc);
    for part in line.split(' ') {
        words.push(String::from_str(alloc, part)?)?;
    }
    assert!(rt; order_of(alloc, words.as_slice()) == want, "{line}");
    Ok(())
}

/// Arguments that name a command, by one thread.
static COMMANDS: [(&str, Command); 21] = [
    ("convert", Command::Convert),
    ("check", Command::Check),
    ("upgrade", Command::Upgrade),
    ("upgrade --", Command::Upgrade),
    ("almanac 1703", Command::Almanac { year: 1703 }),
    ("almanac 02024", Command::Almanac { year: 2024 }),
    ("almanac 2147", Command::Almanac { year: 2147 }),
    (
        "almanac 00000000000000002024",
        Command::Almanac { year: 2024 },
    ),
    ("almanac --jobs 1 2024", Command::Almanac { year: 2024 }),
    ("east 1703", Command::East { year: 1703 }),
    ("east 2007", Command::East { year: 2007 }),
    ("east 2147 --jobs 1", Command::East { year: 2147 }),
    ("sample 0001 007", Command::Sample { count: 1, seed: 7 }),
    ("sample 5 0 --jobs=1", Command::Sample { count: 5, seed: 0 }),
    (
        "sample 100000 18446744073709551615",
        Command::Sample {
            count: 100_000,
            seed: 18_446_744_073_709_551_615,
        },
    ),
    ("convert --jobs 1", Command::Convert),
    ("convert --jobs=1", Command::Convert),
    ("convert --jobs 01", Command::Convert),
    ("--jobs 1 convert", Command::Convert),
    ("convert --", Command::Convert),
    ("-- convert", Command::Convert),
];

/// Arguments that tell how many threads convert.
const JOBS: [(&str, usize); 3] = [
    ("convert --jobs 2", 2),
    ("convert --jobs=64", 64),
    ("--jobs 008 convert", 8),
];

/// Arguments that name no command.
static NO_FORMS: [&str; 59] = [
    "",
    "almanac",
    "almanac 2024x",
    "almanac 2024 1",
    "almanac 1702",
    "almanac 2148",
    "almanac +2024",
    "almanac -2024",
    "almanac 000000000000000002024",
    "almanac ",
    "east",
    "east 1702",
    "east 2148",
    "east 2007 x",
    "east x",
    "east ",
    "East 2007",
    "sample",
    "sample 1",
    "sample 5",
    "sample 0 1",
    "sample 100001 1",
    "sample +1 1",
    "sample 1 +1",
    "sample 1 000000000000000000001",
    "sample 1 18446744073709551616",
    "sample 1 99999999999999999999",
    "sample 1 1 1",
    "convert extra",
    "upgrade 1",
    "upgrade 1 2",
    "Upgrade",
    "convert ",
    "convert --jobs",
    "convert --jobs 0",
    "convert --jobs 65",
    "convert --jobs 100",
    "convert --jobs +2",
    "convert --jobs 18446744073709551617",
    "convert --jobs x",
    "convert --jobs ",
    "convert --jobs=",
    "convert --jobs 1 --jobs 1",
    "convert --job 1",
    "convert -j 1",
    "convert -- --jobs 1",
    "--jobs 1",
    "--help",
    "--version",
    "-h",
    "-V",
    "help",
    "help convert",
    "--",
    "-- ",
    "-",
    "mayan",
    "Convert",
    " convert",
];

#[test]
fn words_in_the_form_tell_a_command(rt: HostRuntime) -> Result<(), Fail> {
    for (line, command) in &COMMANDS {
        let order = Order {
            command: *command,
            jobs: 1,
        };
        assert_told(&rt, rt.alloc(), line, Ok(order))?;
    }
    Ok(())
}

#[test]
fn arguments_in_the_form_tell_the_threads(rt: HostRuntime) -> Result<(), Fail> {
    let command = Command::Convert;
    for (line, jobs) in JOBS {
        assert_told(&rt, rt.alloc(), line, Ok(Order { command, jobs }))?;
    }
    Ok(())
}

#[test]
fn other_words_are_no_form(rt: HostRuntime) -> Result<(), Fail> {
    for line in &NO_FORMS {
        assert_told(&rt, rt.alloc(), line, Err(NoCommand::Form))?;
    }
    Ok(())
}

#[test]
fn no_words_are_no_form(rt: HostRuntime) {
    let words: &[String] = &[];
    assert!(rt; order_of(rt.alloc(), words) == Err(NoCommand::Form));
}
