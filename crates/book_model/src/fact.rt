//! Astronomical facts: a kind, a place and a day, to which the model gives one value.
ghost use Rattle.std.specs.Prelude.{◌≡◌, ◌↔◌, ◌<◌, ℤ, ◌≤ℤ◌, length, map, IfSome, IsSome};
ghost use Rattle.book_model.specs.declared.fact.TheConstants.{KINDS, PLACES};

use crate::location_tables::{CAIRO, HAIFA, TEHRAN, UJJAIN};
use crate::names::{first_row_named, list_at, name_at, since_at};
use crate::{Frac, Location, Version, ZoneStep};

/// A kind of astronomical fact.
#[derive(Clone, Copy, Debug, PartialEq, Eq, Hash)]
pub enum Kind {
    Dt,
    Sun,
    Nowruz,
    BahaiYear,
    Solstice,
    NewMoonBefore,
    NewMoonFrom,
    Major,
    MajorTerm,
    MinorTerm,
    Phasis,
    Sign,
    SolarYear,
    Sankranti,
    Tithi,
    SignBefore,
    SignAfter,
    CalendarYear,
    NewMoon,
    FirstQuarter,
    FullMoon,
    LastQuarter,
    Sunset,
    Distance,
    Moonrise,
    Moonset,
    FrenchYear,
    Nisan,
}

/// A place that a fact may be asked of.
#[derive(Clone, Copy, Debug, PartialEq, Eq, Hash)]
pub enum Place {
    None,
    Beijing,
    Cairo,
    Tehran,
    Ujjain,
    Hanoi,
    Seoul,
    Tokyo,
    Haifa,
}

// Every kind, place and day is a value of the type, and has a formula: that a place goes with its
// kind is said by `new` alone.
/// An astronomical fact: what the model gives for a kind, a place and a day, as a day number of the book (R.D.).
#[derive(Clone, Copy, Debug, PartialEq, Eq, Hash)]
pub struct Fact {
    pub(crate) kind: Kind,
    pub(crate) place: Place,
    pub(crate) day: i64,
}

// A column of the table of kinds, so that no proof goes over kinds.
/// Which tests of the formula of a kind of fact, where they are of a year, are of that of the whole day itself, and so are never
/// undecided.
#[derive(Clone, Copy)]
pub enum WholeDays {
    /// None.
    Nowhere,
    /// The first and the third.
    AtFirst,
    /// Each.
    // Of moonrise and moonset: each moment lies in one day. It is required only of those that are the day
    // itself.
    Everywhere,
}

// Kinds, places and sites are rows, each at the place of its variant, and read by the definitions
// too. That a name leads back, and is a word of certificates, is computed over the table.
// A static, since a constant that is borrowed is written to the stack at each use. A tuple, since
// the definitions can't read a static's struct that holds a reference.
/// Each kind of fact with its printed name, the places that it is asked of, which of its tests of a year are of a whole day, and
/// the first version of certificates that has it, in the order of the variants.
#[rattlefmt::skip]
pub static KINDS: [(Kind, &str, (&[Place], WholeDays, Version)); 28] = [
    (Kind::Dt, "dt", (&[Place::None], WholeDays::AtFirst, Version::One)),
    (Kind::Sun, "sun", (&[Place::None], WholeDays::AtFirst, Version::One)),
    (Kind::Nowruz, "nowruz", (&[Place::None], WholeDays::Nowhere, Version::One)),
    (Kind::BahaiYear, "bahai-year", (&[Place::None], WholeDays::Nowhere, Version::One)),
    (Kind::Solstice, "solstice", (&[Place::Beijing, Place::Hanoi, Place::Seoul, Place::Tokyo], WholeDays::Nowhere, Version::One)),
    (Kind::NewMoonBefore, "new-moon-before", (&[Place::Beijing, Place::Hanoi, Place::Seoul, Place::Tokyo], WholeDays::Nowhere, Version::One)),
    (Kind::NewMoonFrom, "new-moon-from", (&[Place::Beijing, Place::Hanoi, Place::Seoul, Place::Tokyo], WholeDays::Nowhere, Version::One)),
    (Kind::Major, "major", (&[Place::Beijing, Place::Hanoi, Place::Seoul, Place::Tokyo], WholeDays::Nowhere, Version::One)),
    (Kind::MajorTerm, "major-term", (&[Place::Beijing], WholeDays::Nowhere, Version::One)),
    (Kind::MinorTerm, "minor-term", (&[Place::Beijing], WholeDays::Nowhere, Version::One)),
    (Kind::Phasis, "phasis", (&[Place::Cairo, Place::Haifa], WholeDays::AtFirst, Version::One)),
    (Kind::Sign, "sign", (&[Place::None], WholeDays::Nowhere, Version::One)),
    (Kind::SolarYear, "solar-year", (&[Place::None], WholeDays::Nowhere, Version::One)),
    (Kind::Sankranti, "sankranti", (&[Place::None], WholeDays::Nowhere, Version::One)),
    (Kind::Tithi, "tithi", (&[Place::None], WholeDays::Nowhere, Version::One)),
    (Kind::SignBefore, "sign-before", (&[Place::None], WholeDays::Nowhere, Version::One)),
    (Kind::SignAfter, "sign-after", (&[Place::None], WholeDays::Nowhere, Version::One)),
    (Kind::CalendarYear, "calendar-year", (&[Place::None], WholeDays::AtFirst, Version::One)),
    (Kind::NewMoon, "new-moon", (&[Place::None], WholeDays::AtFirst, Version::One)),
    (Kind::FirstQuarter, "first-quarter", (&[Place::None], WholeDays::AtFirst, Version::One)),
    (Kind::FullMoon, "full-moon", (&[Place::None], WholeDays::AtFirst, Version::One)),
    (Kind::LastQuarter, "last-quarter", (&[Place::None], WholeDays::AtFirst, Version::One)),
    (Kind::Sunset, "sunset", (&[Place::Tehran, Place::Cairo, Place::Ujjain], WholeDays::Nowhere, Version::One)),
    (Kind::Distance, "distance", (&[Place::None], WholeDays::AtFirst, Version::Two)),
    (Kind::Moonrise, "moonrise", (&[Place::Tehran, Place::Cairo, Place::Ujjain], WholeDays::Everywhere, Version::Two)),
    (Kind::Moonset, "moonset", (&[Place::Tehran, Place::Cairo, Place::Ujjain], WholeDays::Everywhere, Version::Two)),
    (Kind::FrenchYear, "french-year", (&[Place::None], WholeDays::Nowhere, Version::Two)),
    (Kind::Nisan, "nisan", (&[Place::Haifa], WholeDays::AtFirst, Version::Two)),
];

// A place without a location has none of the facts that need one: `Fact::new` refuses them. Their formulas are void at `year`
// there: so they are defined for every place, and no place gets a location that isn't its own.
/// Each place with its printed name, the location from which its horizon is looked at, if it has one, its zone, and the first
/// version of certificates that has it, in the order of the variants. A zone is the days on which the time of the place changes,
/// in order, each with the hours by which it is ahead of universal time before, and the hours from the last of these days on. Facts
/// of no place go by universal time.
#[rattlefmt::skip]
pub static PLACES: [(Place, &str, (Option<Location>, &[ZoneStep], Frac, Version)); 9] = [
    // No steps and 0 hours: universal time, so that midnights and days are total for every place.
    (Place::None, "-", (None, &[], Frac { num: 0, den: 1 }, Version::One)),
    (Place::Beijing, "beijing", (None, &[ZoneStep { before: 704_188, hours: Frac { num: 1397, den: 180 } }], Frac { num: 8, den: 1 }, Version::One)),
    (Place::Cairo, "cairo", (Some(CAIRO), &[], Frac { num: 2, den: 1 }, Version::One)),
    (Place::Tehran, "tehran", (Some(TEHRAN), &[], Frac { num: 7, den: 2 }, Version::One)),
    (Place::Ujjain, "ujjain", (Some(UJJAIN), &[], Frac { num: 45_461, den: 9000 }, Version::One)),
    (Place::Hanoi, "hanoi", (None, &[ZoneStep { before: 718_432, hours: Frac { num: 8, den: 1 } }], Frac { num: 7, den: 1 }, Version::Two)),
    (Place::Seoul, "seoul", (None, &[
        ZoneStep { before: 696_608, hours: Frac { num: 3809, den: 450 } },
        ZoneStep { before: 697_978, hours: Frac { num: 17, den: 2 } },
        ZoneStep { before: 713_398, hours: Frac { num: 9, den: 1 } },
        ZoneStep { before: 716_097, hours: Frac { num: 17, den: 2 } },
    ], Frac { num: 9, den: 1 }, Version::Two)),
    (Place::Tokyo, "tokyo", (None, &[ZoneStep { before: 689_213, hours: Frac { num: 4193, den: 450 } }], Frac { num: 9, den: 1 }, Version::Two)),
    (Place::Haifa, "haifa", (Some(HAIFA), &[], Frac { num: 2, den: 1 }, Version::Two)),
];

/// The first and the last day of which a fact may be asked (R.D.).
pub const FIRST_FACT_DAY: i64 = -40_000_000;

pub const LAST_FACT_DAY: i64 = 40_000_000;

// Whatever a line may name: a file of either version that lists a fact of such a day is judged by
// it. No line of version 1 asks one before 1 July 1800 or after 31 December 2049.
/// The first and the last day of which a fact may have a value (R.D.): 1 July 1700 and 31 December 2149.
pub const FIRST_DAY: i64 = 620_729;

pub const LAST_DAY: i64 = 784_906;

/// The least and the greatest value that a fact may have.
pub const LEAST_VALUE: i64 = -10_000_000;

pub const GREATEST_VALUE: i64 = 10_000_000;

impl Kind {
    ghost use Rattle.book_model.specs.sky.Names.{kind_number, kind_name, kind_named, kind_since, places_of, has_place};
    ghost use Rattle.book_model.specs.calendars.Versions.{kind_in};

    /// The number of the kind, from 0: its place among the kinds.
    pub fn number(self) -> usize
        ensures number { result ≡ kind_number self }
        ensures within { result < length KINDS }
    {
        self as usize
    }

    /// The word for the kind in a certificate.
    pub fn name(self) -> &'static str
        ensures { result.now ≡ kind_name self }
    {
        name_at(&KINDS, self.number())
    }

    /// The kind with this name, if there is one.
    #[tactic(auto, unfolding(crate::specs::sky::Names::kind_named))]
    pub fn named(word: &[u8]) -> Option<Kind>
        ensures { result ≡ kind_named word.now }
    {
        first_row_named(&KINDS, word)
    }

    /// The first version of certificates that has the kind.
    pub fn since(self) -> Version
        ensures { result ≡ kind_since self }
    {
        since_at(&KINDS, self.number())
    }

    /// The kind with this name, if a version has one.
    pub fn named_in(version: Version, word: &[u8]) -> Option<Kind>
        ensures { result ≡ kind_in version word.now }
    {
        // The name first, then the version: a table has all names that there are, so that the
        // numbers of values, rows and shelves are those of one table.
        let kind = Kind::named(word)?;
        if version.has_since(kind.since()) {
            Some(kind)
        } else {
            None
        }
    }

    /// The places that facts of this kind are asked of.
    pub fn places(self) -> &'static [Place]
        ensures { result.now ≡ places_of self }
    {
        list_at(&KINDS, self.number())
    }

    /// Whether facts of this kind are asked of this place.
    pub fn has_place(self, place: Place) -> bool
        ensures { result ≡ has_place self place }
    {
        self.places().iter().any(|p| *p == place)
    }
}

impl Place {
    ghost use Rattle.book_model.specs.sky.Names.{place_number, place_name, place_named, place_since, location_of, zone_steps, last_hours};
    ghost use Rattle.book_model.specs.calendars.Versions.{place_in};

    /// The number of the place, from 0: its place among the places.
    pub fn number(self) -> usize
        ensures number { result ≡ place_number self }
        ensures within { result < length PLACES }
    {
        self as usize
    }

    /// The word for the place in a certificate, a dash for none.
    #[tactic(auto, unfolding(crate::specs::sky::Names::place_name))]
    pub fn name(self) -> &'static str
        ensures { result.now ≡ place_name self }
    {
        PLACES[self.number()].1
    }

    /// The place with this name, if there is one.
    #[tactic(auto, unfolding(crate::specs::sky::Names::place_named))]
    pub fn named(word: &[u8]) -> Option<Place>
        ensures { result ≡ place_named word.now }
    {
        first_row_named(&PLACES, word)
    }

    /// The first version of certificates that has the place.
    #[tactic(auto, unfolding(crate::specs::sky::Names::place_since))]
    pub fn since(self) -> Version
        ensures { result ≡ place_since self }
    {
        PLACES[self.number()].2.3
    }

    /// The place with this name, if a version has one.
    pub fn named_in(version: Version, word: &[u8]) -> Option<Place>
        ensures { result ≡ place_in version word.now }
    {
        let place = Place::named(word)?;
        if version.has_since(place.since()) {
            Some(place)
        } else {
            None
        }
    }

    /// The location from which the horizon of the place is looked at, if it has one.
    #[tactic(auto, unfolding(crate::specs::sky::Names::location_of))]
    pub fn location(self) -> Option<Location>
        ensures { result ≡ location_of self }
    {
        PLACES[self.number()].2.0
    }

    /// The days on which the time of the place changes, in order, with the hours before each.
    #[tactic(auto, unfolding(crate::specs::sky::Names::zone_steps))]
    pub fn zone_steps(self) -> &'static [ZoneStep]
        ensures { result.now ≡ zone_steps self }
    {
        PLACES[self.number()].2.1
    }

    /// The hours by which the time of the place is ahead of universal time from the last of these days on.
    #[tactic(auto, unfolding(crate::specs::sky::Names::last_hours))]
    pub fn last_hours(self) -> Frac
        ensures { result ≡ last_hours self }
    {
        PLACES[self.number()].2.2
    }
}

impl Fact {
    ghost use Rattle.book_model.specs.sky.Facts.{IsFact};

    /// The fact; `None` exactly where the place isn't one of the kind's places, or the day lies outside
    /// -40,000,000 to 40,000,000.
    pub fn new(kind: Kind, place: Place, day: i64) -> Option<Fact>
        ensures some { IsSome result ↔ IsFact kind place day }
        ensures kind { IfSome result (λ f. f.kind ≡ kind) }
        ensures place { IfSome result (λ f. f.place ≡ place) }
        ensures day { IfSome result (λ f. f.day ≡ day) }
    {
        // A place is one of a kind's where it stands in the kind's row, which the grammar reads
        // too.
        if kind.has_place(place) && FIRST_FACT_DAY <= day && day <= LAST_FACT_DAY {
            Some(Fact { kind, place, day })
        } else {
            None
        }
    }

    /// The fact of the same kind and day at another place.
    pub fn at(self, place: Place) -> Fact
        ensures { result ≡ record self { place = place } }
    {
        Fact {
            kind: self.kind,
            place,
            day: self.day,
        }
    }

    /// The kind of the fact.
    pub fn kind(self) -> Kind
        ensures { result ≡ self.kind }
    {
        self.kind
    }

    /// The place that the fact is asked of.
    pub fn place(self) -> Place
        ensures { result ≡ self.place }
    {
        self.place
    }

    /// The day that the fact is asked of (R.D.).
    pub fn day(self) -> i64
        ensures { result ≡ self.day }
    {
        self.day
    }
}
