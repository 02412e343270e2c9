//! The places in the formulas where a test is made.
ghost use Rattle.std.specs.Prelude.{◌≡◌};

use crate::Version;
use crate::names::first_row_named;

/// A place in the formulas where a test is made, or where a run is void.
#[derive(Clone, Copy, Debug, PartialEq, Eq)]
pub enum Site {
    Year,
    Zone,
    SunWrap,
    MoonWrap,
    PhaseWrap,
    PhasePick,
    MoonNumber,
    MoonWalk,
    StepWrap,
    StartFloor,
    DayTest,
    DayFloor,
    TermFloor,
    Search,
    BisectEnd,
    Bisect,
    Offset,
    Settle,
    Round,
    Crescent,
    Sidereal,
    Rise,
}

// A row more, at its variant's place, is a site more: no proof goes over sites.
/// Each site with its printed name, and the first version of certificates that has it, in the order of the variants.
#[rattlefmt::skip]
pub static SITES: [(Site, &str, Version); 22] = [
    (Site::Year, "year", Version::One),
    (Site::Zone, "zone", Version::One),
    (Site::SunWrap, "sun-wrap", Version::One),
    (Site::MoonWrap, "moon-wrap", Version::One),
    (Site::PhaseWrap, "phase-wrap", Version::One),
    (Site::PhasePick, "phase-pick", Version::One),
    (Site::MoonNumber, "moon-number", Version::One),
    (Site::MoonWalk, "moon-walk", Version::One),
    (Site::StepWrap, "step-wrap", Version::One),
    (Site::StartFloor, "start-floor", Version::One),
    (Site::DayTest, "day-test", Version::One),
    (Site::DayFloor, "day-floor", Version::One),
    (Site::TermFloor, "term-floor", Version::One),
    (Site::Search, "search", Version::One),
    (Site::BisectEnd, "bisect-end", Version::One),
    (Site::Bisect, "bisect", Version::One),
    (Site::Offset, "offset", Version::One),
    (Site::Settle, "settle", Version::One),
    (Site::Round, "round", Version::One),
    (Site::Crescent, "crescent", Version::One),
    (Site::Sidereal, "sidereal", Version::One),
    (Site::Rise, "rise", Version::Two),
];

impl Site {
    ghost use Rattle.book_model.specs.sky.Names.{site_number, site_name, site_named, site_since};
    ghost use Rattle.book_model.specs.calendars.Versions.{site_in};

    /// The number of the site, from 1.
    pub fn number(self) -> u8
        ensures { result ≡ site_number self }
    {
        self as u8 + 1
    }

    /// The word for the site in a certificate.
    #[tactic(auto, unfolding(crate::specs::sky::Names::site_name))]
    pub fn name(self) -> &'static str
        ensures { result.now ≡ site_name self }
    {
        SITES[self as usize].1
    }

    /// The site with this name, if there is one.
    #[tactic(auto, unfolding(crate::specs::sky::Names::site_named))]
    pub fn named(word: &[u8]) -> Option<Site>
        ensures { result ≡ site_named word.now }
    {
        first_row_named(&SITES, word)
    }

    /// The first version of certificates that has the site.
    #[tactic(auto, unfolding(crate::specs::sky::Names::site_since))]
    pub fn since(self) -> Version
        ensures { result ≡ site_since self }
    {
        SITES[self as usize].2
    }

    /// The site with this name, if a version has one.
    pub fn named_in(version: Version, word: &[u8]) -> Option<Site>
        ensures { result ≡ site_in version word.now }
    {
        let site = Site::named(word)?;
        if version.has_since(site.since()) {
            Some(site)
        } else {
            None
        }
    }
}
