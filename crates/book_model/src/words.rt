//! The words of a line of input: what stands before its date and what stands after it. Each word stands here once; the
//! definitions read the tables too.
ghost use Rattle.std.specs.Prelude.{◌≡◌};

use crate::names::{first_row_named, name_at};
use crate::{Calendar, Kind, Place, Version};

// The eastern calendars stand behind `Chinese`, whose fields they share. No number of a word is
// printed, so a row between others changes no file.
/// A word for what a line's date names: the day of a Gregorian date, of a day number of the book (R.D.), of a Persian, a Bahá'í, a
/// Chinese, a Vietnamese, a Korean, a Japanese, an Islamic, a Hindu solar, a Hindu lunar, a French or an observed Hebrew date, the
/// day of the next minor or major solar term, or the day on which the moon was last new, at its first quarter, full or at its last quarter.
#[derive(Clone, Copy, Debug, PartialEq, Eq)]
pub enum FromWord {
    Gregorian,
    Fixed,
    Persian,
    Bahai,
    Chinese,
    Vietnamese,
    Korean,
    Japanese,
    Islamic,
    HinduSolar,
    HinduLunar,
    French,
    HebrewObserved,
    MinorTerm,
    MajorTerm,
    NewMoon,
    FirstQuarter,
    FullMoon,
    LastQuarter,
}

/// A word for what a line asks: the Gregorian date, the day number (R.D.), the Persian, the Bahá'í, the Chinese, the Vietnamese, the
/// Korean, the Japanese, the Islamic, the Hindu solar, the Hindu lunar, the French or the observed Hebrew date, ΔT (dynamical less
/// universal time), the longitude of the sun, sunset at Tehran, Cairo or Ujjain, the distance of the moon, or moonrise or moonset at
/// one of these places.
#[derive(Clone, Copy, Debug, PartialEq, Eq)]
pub enum ToWord {
    Gregorian,
    Fixed,
    Persian,
    Bahai,
    Chinese,
    Vietnamese,
    Korean,
    Japanese,
    Islamic,
    HinduSolar,
    HinduLunar,
    French,
    HebrewObserved,
    Dt,
    Sun,
    SunsetTehran,
    SunsetCairo,
    SunsetUjjain,
    Distance,
    MoonriseTehran,
    MoonriseCairo,
    MoonriseUjjain,
    MoonsetTehran,
    MoonsetCairo,
    MoonsetUjjain,
}

// One type for what stands before a date and after it: the phases of the moon are rows of the table
// of words, and their dates are Gregorian.
/// What a word is about: a date in a calendar, or the value of the fact of this kind at this place. A word before a date names the
/// day that has the date, or that the value for the day of the Gregorian date is; a word after it shows the date or the value of a day.
#[derive(Clone, Copy, Debug, PartialEq, Eq)]
pub enum Meaning {
    Date(Calendar),
    Value(Kind, Place),
}

// A row stands at the place of its value. A law says that the row found is the value's own, that
// its word is found as that value, and that no word stands twice.
/// The words that stand before a date, in the order of their values, with what they name by the date, and the first version of
/// certificates that has them.
#[rattlefmt::skip]
pub static FROM_WORDS: [(FromWord, &str, (Meaning, Version)); 19] = [
    (FromWord::Gregorian, "gregorian", (Meaning::Date(Calendar::Gregorian), Version::One)),
    (FromWord::Fixed, "fixed", (Meaning::Date(Calendar::Fixed), Version::One)),
    (FromWord::Persian, "persian", (Meaning::Date(Calendar::Persian), Version::One)),
    (FromWord::Bahai, "bahai", (Meaning::Date(Calendar::Bahai), Version::One)),
    (FromWord::Chinese, "chinese", (Meaning::Date(Calendar::Chinese), Version::One)),
    (FromWord::Vietnamese, "vietnamese", (Meaning::Date(Calendar::Vietnamese), Version::Two)),
    (FromWord::Korean, "korean", (Meaning::Date(Calendar::Korean), Version::Two)),
    (FromWord::Japanese, "japanese", (Meaning::Date(Calendar::Japanese), Version::Two)),
    (FromWord::Islamic, "islamic", (Meaning::Date(Calendar::Islamic), Version::One)),
    (FromWord::HinduSolar, "hindu-solar", (Meaning::Date(Calendar::HinduSolar), Version::One)),
    (FromWord::HinduLunar, "hindu-lunar", (Meaning::Date(Calendar::HinduLunar), Version::One)),
    (FromWord::French, "french", (Meaning::Date(Calendar::French), Version::Two)),
    (FromWord::HebrewObserved, "hebrew-observed", (Meaning::Date(Calendar::HebrewObserved), Version::Two)),
    (FromWord::MinorTerm, "minor-term", (Meaning::Value(Kind::MinorTerm, Place::Beijing), Version::One)),
    (FromWord::MajorTerm, "major-term", (Meaning::Value(Kind::MajorTerm, Place::Beijing), Version::One)),
    (FromWord::NewMoon, "new-moon", (Meaning::Value(Kind::NewMoon, Place::None), Version::One)),
    (FromWord::FirstQuarter, "first-quarter", (Meaning::Value(Kind::FirstQuarter, Place::None), Version::One)),
    (FromWord::FullMoon, "full-moon", (Meaning::Value(Kind::FullMoon, Place::None), Version::One)),
    (FromWord::LastQuarter, "last-quarter", (Meaning::Value(Kind::LastQuarter, Place::None), Version::One)),
];

/// The words for what a line asks, in the order of their values, with what they show of a day, and the first version of
/// certificates that has them.
#[rattlefmt::skip]
pub static TO_WORDS: [(ToWord, &str, (Meaning, Version)); 25] = [
    (ToWord::Gregorian, "gregorian", (Meaning::Date(Calendar::Gregorian), Version::One)),
    (ToWord::Fixed, "fixed", (Meaning::Date(Calendar::Fixed), Version::One)),
    (ToWord::Persian, "persian", (Meaning::Date(Calendar::Persian), Version::One)),
    (ToWord::Bahai, "bahai", (Meaning::Date(Calendar::Bahai), Version::One)),
    (ToWord::Chinese, "chinese", (Meaning::Date(Calendar::Chinese), Version::One)),
    (ToWord::Vietnamese, "vietnamese", (Meaning::Date(Calendar::Vietnamese), Version::Two)),
    (ToWord::Korean, "korean", (Meaning::Date(Calendar::Korean), Version::Two)),
    (ToWord::Japanese, "japanese", (Meaning::Date(Calendar::Japanese), Version::Two)),
    (ToWord::Islamic, "islamic", (Meaning::Date(Calendar::Islamic), Version::One)),
    (ToWord::HinduSolar, "hindu-solar", (Meaning::Date(Calendar::HinduSolar), Version::One)),
    (ToWord::HinduLunar, "hindu-lunar", (Meaning::Date(Calendar::HinduLunar), Version::One)),
    (ToWord::French, "french", (Meaning::Date(Calendar::French), Version::Two)),
    (ToWord::HebrewObserved, "hebrew-observed", (Meaning::Date(Calendar::HebrewObserved), Version::Two)),
    (ToWord::Dt, "dt", (Meaning::Value(Kind::Dt, Place::None), Version::One)),
    (ToWord::Sun, "sun", (Meaning::Value(Kind::Sun, Place::None), Version::One)),
    (ToWord::SunsetTehran, "sunset-tehran", (Meaning::Value(Kind::Sunset, Place::Tehran), Version::One)),
    (ToWord::SunsetCairo, "sunset-cairo", (Meaning::Value(Kind::Sunset, Place::Cairo), Version::One)),
    (ToWord::SunsetUjjain, "sunset-ujjain", (Meaning::Value(Kind::Sunset, Place::Ujjain), Version::One)),
    (ToWord::Distance, "distance", (Meaning::Value(Kind::Distance, Place::None), Version::Two)),
    (ToWord::MoonriseTehran, "moonrise-tehran", (Meaning::Value(Kind::Moonrise, Place::Tehran), Version::Two)),
    (ToWord::MoonriseCairo, "moonrise-cairo", (Meaning::Value(Kind::Moonrise, Place::Cairo), Version::Two)),
    (ToWord::MoonriseUjjain, "moonrise-ujjain", (Meaning::Value(Kind::Moonrise, Place::Ujjain), Version::Two)),
    (ToWord::MoonsetTehran, "moonset-tehran", (Meaning::Value(Kind::Moonset, Place::Tehran), Version::Two)),
    (ToWord::MoonsetCairo, "moonset-cairo", (Meaning::Value(Kind::Moonset, Place::Cairo), Version::Two)),
    (ToWord::MoonsetUjjain, "moonset-ujjain", (Meaning::Value(Kind::Moonset, Place::Ujjain), Version::Two)),
];

impl FromWord {
    ghost use Rattle.book_model.specs.lines.Words.{from_word_of, from_since, from_word_in, text_of_from, named_by, calendar_of};

    /// What a word before a date stands for, if it is one.
    pub fn named(word: &[u8]) -> Option<FromWord>
        ensures word { result ≡ from_word_of word.now }
    {
        first_row_named(&FROM_WORDS, word)
    }

    /// The first version of certificates that has the word.
    pub fn since(self) -> Version
        ensures since { result ≡ from_since self }
    {
        FROM_WORDS[self as usize].2.1
    }

    /// What a word before a date stands for, if a version has it.
    pub fn named_in(version: Version, word: &[u8]) -> Option<FromWord>
        ensures word { result ≡ from_word_in version word.now }
    {
        let from = FromWord::named(word)?;
        if version.has_since(from.since()) {
            Some(from)
        } else {
            None
        }
    }

    /// The word as it stands in a line.
    pub fn name(self) -> &'static str
        ensures name { result.now ≡ text_of_from self }
    {
        name_at(&FROM_WORDS, self as usize)
    }

    /// What the word names by the date that follows it.
    pub fn names(self) -> Meaning
        ensures named { result ≡ named_by self }
    {
        FROM_WORDS[self as usize].2.0
    }

    /// The calendar of the date that follows the word.
    pub fn calendar(self) -> Calendar
        ensures calendar { result ≡ calendar_of self }
    {
        match self.names() {
            Meaning::Date(calendar) => calendar,
            Meaning::Value(_, _) => Calendar::Gregorian,
        }
    }
}

impl ToWord {
    ghost use Rattle.book_model.specs.lines.Words.{to_word_of, to_since, to_word_in, text_of_to, shown_by};

    /// What a word after a date asks for, if it is one.
    pub fn named(word: &[u8]) -> Option<ToWord>
        ensures word { result ≡ to_word_of word.now }
    {
        first_row_named(&TO_WORDS, word)
    }

    /// The first version of certificates that has the word.
    pub fn since(self) -> Version
        ensures since { result ≡ to_since self }
    {
        TO_WORDS[self as usize].2.1
    }

    /// What a word after a date asks for, if a version has it.
    pub fn named_in(version: Version, word: &[u8]) -> Option<ToWord>
        ensures word { result ≡ to_word_in version word.now }
    {
        let to = ToWord::named(word)?;
        if version.has_since(to.since()) {
            Some(to)
        } else {
            None
        }
    }

    /// The word as it stands in a line.
    pub fn name(self) -> &'static str
        ensures name { result.now ≡ text_of_to self }
    {
        name_at(&TO_WORDS, self as usize)
    }

    /// What the word shows of a day.
    pub fn shows(self) -> Meaning
        ensures shows { result ≡ shown_by self }
    {
        TO_WORDS[self as usize].2.0
    }
}
