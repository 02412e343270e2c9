//! The versions of certificates: which days each of them knows, and the first line of its files. Each version stands here
//! once; the definitions read the tables too.
ghost use Rattle.std.specs.Prelude.{◌≡◌};

use crate::names::first_named;
use crate::{FIRST_DAY, LAST_DAY};

// Definitions and calls take a version where they read a range; none below the test of a range
// does, and each of these asks for what some version answers.
/// A version of certificates.
#[derive(Clone, Copy, Debug, PartialEq, Eq)]
pub enum Version {
    One,
    Two,
}

// What else differs between versions is a row or a column of its own: a calendar's years, and since
// when a kind, a place, a site, a word or a row of ΔT is there.
/// What differs from version to version.
#[derive(Clone, Copy)]
pub struct VersionRow {
    pub version: Version,
    /// The first and the last day that a line may name (R.D.).
    pub days: (i64, i64),
    /// The first and the last day of which a fact had a value when the version was the last one (R.D.).
    pub fact_days: (i64, i64),
}

/// The versions, in the order of their values. A line of version 1 may name the days from 1 January 1802 to 31 December 2048,
/// one of version 2 those from 1 January 1702 to 31 December 2148.
#[rattlefmt::skip]
pub const VERSIONS: [VersionRow; 2] = [
    VersionRow { version: Version::One, days: (657_802, 748_017), fact_days: (657_253, 748_382) },
    VersionRow { version: Version::Two, days: (621_278, 784_541), fact_days: (FIRST_DAY, LAST_DAY) },
];

/// Each version with the first line of its files, without its line feed, in the order of their values.
#[rattlefmt::skip]
pub static HEADERS: [(Version, &str); 2] = [
    (Version::One, "calendrica 1 depth 40"),
    (Version::Two, "calendrica 2 depth 40"),
];

// Another version is a row, an entry in each calendar's years, and this constant. That its ranges
// hold those of each older version is computed from the tables.
/// The version that is written, and by which lines of input are read.
pub const WRITTEN: Version = Version::Two;

/// The first Gregorian year of which there is an almanac: its lines lie in the range of the written version with a year to
/// spare.
pub const FIRST_ALMANAC_YEAR: u32 = 1703;

/// The last Gregorian year of which there is an almanac, with a year to spare likewise.
pub const LAST_ALMANAC_YEAR: u32 = 2147;

impl Version {
    ghost use Rattle.book_model.specs.calendars.Versions.{days_in, has_since, header_line, version_named};

    /// The first and the last day that a line of the version may name (R.D.).
    pub fn days(self) -> (i64, i64)
        ensures days { result ≡ days_in self }
    {
        VERSIONS[self as usize].days
    }

    // The table of values of ΔT is no argument of the formulas: what a version had of them is the
    // formula in which the years of later rows are void (`Older.antt`), and a law says that its
    // runs stay.
    /// Whether the version has what came with another.
    pub fn has_since(self, since: Version) -> bool
        ensures { result ≡ has_since self since }
    {
        since as usize <= self as usize
    }

    /// The first line of the version's files, without its line feed.
    pub fn header(self) -> &'static str
        ensures line { result.now ≡ header_line self }
    {
        HEADERS[self as usize].1
    }

    /// The version whose files begin with a line, given without its line feed; `None` where there is none.
    #[tactic(auto, unfolding(crate::specs::calendars::Versions::version_named))]
    pub fn named(line: &[u8]) -> Option<Version>
        ensures version { result ≡ version_named line.now }
    {
        first_named(&HEADERS, line)
    }
}
