//! What the program is told to do.

/// What the program is told to do: to write the outcomes of lines of dates, to check a certificate, to write the almanac of
/// a year, to count the outcomes of a sample's lines, to upgrade a certificate of an older version, or to write the months
/// of a year in the calendars of the east.
#[derive(Clone, Copy, Debug, PartialEq, Eq)]
pub enum Command {
    Convert,
    Check,
    Upgrade,
    /// The almanac of a year from 1703 to 2147.
    Almanac { year: u32 },
    /// This many lines, from 1 to 100,000, which the seed settles; the seed may be any number of 64 bits.
    Sample { count: u32, seed: u64 },
    /// The months of a year from 1703 to 2147 in the Chinese, Vietnamese, Korean and Japanese calendars.
    East { year: u32 },
}

/// What the program is told to do, and by how many threads, from 1 to 64.
#[derive(Clone, Copy, Debug, PartialEq, Eq)]
pub struct Order {
    pub command: Command,
    pub jobs: usize,
}

/// Why the arguments name no command: they aren't in the form, or memory ran out before they were read.
#[derive(Clone, Copy, Debug, PartialEq, Eq)]
pub enum NoCommand {
    Form,
    Memory,
}
