//! What the program computes, before any code: the types that the definitions speak of, the tables, and in
//! `specs/` the definitions themselves: expressions, programs of tests, runs, facts, lines and texts.
#![tactic(auto)]

mod bahai;
mod calendar;
pub mod calendar_tables;
mod chinese;
mod correction_rows;
pub mod crescent_tables;
mod fact;
mod fail;
mod frac;
mod horizon;
pub mod laws;
pub mod location_tables;
pub mod moon_tables;
mod moon_terms;
mod names;
pub mod new_moon_tables;
pub mod plain;
mod polynomial;
mod request;
mod season;
mod site;
pub mod sun_tables;
pub mod tables;
pub mod time_tables;
mod version;
mod words;
mod zone;

pub use bahai::{BahaiMonth, MonthStart};
pub use calendar::{CALENDARS, Calendar, CalendarRow, LAST_DATE_DAY};
pub use chinese::{ChineseMonth, Sui};
pub use correction_rows::{CORRECTIONS, CorrectionForm, CorrectionRow, row_of_year};
pub use fact::{
    FIRST_DAY, FIRST_FACT_DAY, Fact, GREATEST_VALUE, KINDS, Kind, LAST_DAY, LAST_FACT_DAY,
    LEAST_VALUE, PLACES, Place, WholeDays,
};
pub use fail::{Fail, Undecided};
pub use frac::Frac;
pub use horizon::{Location, Twilight};
pub use moon_terms::{LatitudeTerm, MoonTerm, NewMoonTerm, PlanetTerm};
pub use polynomial::{Cubic, PeriodicTerm, Quadratic, QuadraticTerm, Quartic};
pub use request::{Fields, Request, Resolved, Rule};
pub use season::{Season, Side};
pub use site::{SITES, Site};
pub use version::{
    FIRST_ALMANAC_YEAR, HEADERS, LAST_ALMANAC_YEAR, VERSIONS, Version, VersionRow, WRITTEN,
};
pub use words::{FROM_WORDS, FromWord, Meaning, TO_WORDS, ToWord};
pub use zone::ZoneStep;
