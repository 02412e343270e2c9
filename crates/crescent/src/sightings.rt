//! What runs share of evenings: whether the crescent is seen at a place, and by how many tests that is decided.
//!
//! A slot holds a number of 64 bits that says of which place and day it is, so that whoever set it last, what is read is right for what it
//! says; where two want one slot the last stays. What it says a run would find by the same tests, so no answer depends on it, and no
//! call waits.
ghost use Rattle.std.specs.Prelude.{◌≡◌, ◌+◌, ◌-◌, ◌/◌, ◌%◌, ◌^◌, ◌<◌, ℕ, pos, neg_ℤ, ◌≤ℤ◌, ◌-ℤ◌, Ok, Some, IfSome, IsTrue};
ghost use Rattle.book_model.specs.declared.horizon.Location.{Location};
ghost use Rattle.book_model.specs.programs.Calls.{Decides};
ghost use Rattle.book_model.specs.sky.Crescent.{visible_of};
ghost use Rattle.book_model.specs.sky.Names.{location_of, place_number};
ghost use Rattle.crescent.specs.Sightings.{IsSighting, IsSightingAt, IsSightingWord, day_of, number_of, seen_of, tests_of};

use book_model::{Location, Place};
use std::array;
use std::marker::Model;
use std::sync::atomic::Ordering::SeqCst;
use std::sync::atomic::{AtomicIn, Rule};

/// A word has the answer in its lowest bit, and behind it the number of tests, in 8 bits.
const ANSWERS: u64 = 2;

const TESTS: u64 = 1 << 8;

/// What is multiplied by the number of the place, 4 bits.
const PLACE: u64 = 1 << 9;

const PLACES: u64 = 1 << 4;

/// What is multiplied by the day, 32 bits, above the least, which is so far below 0.
const DAY: u64 = 1 << 13;

const DAYS: u64 = 1 << 32;

const DAYS_BELOW_0: i64 = 1 << 31;

/// The slots: for the days of five and a half years at one place. Of those of a month three or four are asked.
const SLOTS: usize = 2048;

/// How many slots further those of the next place begin.
const SLOTS_BETWEEN_PLACES: i64 = 512;

/// Words that hold nothing, or an evening.
struct SightingWords;

impl Rule for SightingWords {
    ghost invariant = { λ w. IsSightingWord w };
}

/// Whether the crescent is seen on an evening, and by how many tests that is decided.
#[derive(Clone, Copy, PartialEq)]
pub(crate) struct Sighting {
    pub(crate) is_seen: bool,
    pub(crate) tests: u32,
}

/// What a word says of its evening.
fn sighting_of(word: u64) -> Sighting
    ensures seen { result.is_seen ≡ seen_of word }
    ensures tests { result.tests ≡ tests_of word }
{
    Sighting {
        is_seen: word % ANSWERS == 1,
        tests: (word / ANSWERS % TESTS) as u32,
    }
}

/// The number of the place of a word.
fn place_number(word: u64) -> u64
    ensures { result ≡ number_of word }
{
    word / PLACE % PLACES
}

/// The day (R.D.) of a word.
fn day(word: u64) -> i64
    ensures { result ≡ day_of word }
{
    (word / DAY % DAYS) as i64 - DAYS_BELOW_0
}

/// Whether a word is of a day at a place.
fn is_of(word: u64, place: Place, sought: i64) -> bool
    ensures number { IsTrue result → number_of word ≡ place_number place }
    ensures day { IsTrue result → day_of word ≡ sought }
{
    place_number(word) == place.number() as u64 && day(word) == sought
}

/// An evening as a word, where its day fits. Nothing is said of it: `word_of` tells whether the rest does.
fn packed(place: Place, day: i64, sighting: Sighting) -> Option<u64> {
    let days = u64::try_from(day.wrapping_add(DAYS_BELOW_0)).ok()?;
    let number = place.number() as u64;
    Some(
        days.wrapping_mul(DAY)
            .wrapping_add(number.wrapping_mul(PLACE))
            .wrapping_add(u64::from(sighting.tests).wrapping_mul(ANSWERS))
            .wrapping_add(u64::from(sighting.is_seen)),
    )
}

/// The word of an evening, if it fits in one.
fn word_of(place: Place, day: i64, sighting: Sighting) -> Option<u64>
    ensures number { IfSome result (λ w. number_of w ≡ place_number place) }
    ensures day { IfSome result (λ w. day_of w ≡ day) }
    ensures tests { IfSome result (λ w. tests_of w ≡ sighting.tests) }
    ensures seen { IfSome result (λ w. seen_of w ≡ sighting.is_seen) }
{
    let word = packed(place, day, sighting)?;
    if is_of(word, place, day) && sighting_of(word) == sighting {
        Some(word)
    } else {
        None
    }
}

/// A slot that holds nothing.
fn empty() -> AtomicIn<SightingWords> {
    AtomicIn::new(0)
}

/// The evenings that runs have decided, in slots of a fixed number. It takes no memory.
#[derive(Drop)]
pub struct Sightings {
    slots: [AtomicIn<SightingWords>; SLOTS],
}

impl Sightings {
    /// No evening.
    pub fn new() -> Self {
        Sightings {
            slots: array::from_fn(|_| empty()),
        }
    }

    /// The slot of a day (R.D.) at a place.
    fn slot(&self, place: Place, day: i64) -> &AtomicIn<SightingWords> {
        let places = place.number() as i64 * SLOTS_BETWEEN_PLACES;
        &self.slots[day.wrapping_add(places).rem_euclid(SLOTS as i64) as usize]
    }

    /// What is known of the evening with which a day (R.D.) begins at a place.
    fn find(&self, place: Place, day: i64) -> Option<Sighting>
        ensures right { IfSome result (λ s. IsSightingAt place day s.tests s.is_seen) }
    {
        let word = self.slot(place, day).load(SeqCst);
        if word != 0 && is_of(word, place, day) {
            Some(sighting_of(word))
        } else {
            None
        }
    }

    /// Keeps an evening.
    fn keep(&self, place: Place, day: i64, sighting: Sighting)
        requires right { IsSightingAt place day sighting.tests sighting.is_seen }
    {
        if let Some(word) = word_of(place, day, sighting) {
            self.slot(place, day).store(word, SeqCst);
        }
    }
}

/// Who looks for the crescent: a place that has a location, and what is known of evenings there. Contracts see the location.
#[derive(Drop)]
pub struct Observer<'a> {
    place: Place,
    location: Location,
    sightings: &'a Sightings,
}

impl<'a> Model for Observer<'a> {
    ghost use Rattle.book_model.specs.declared.horizon.Location.{Location};
    ghost use Rattle.book_model.specs.sky.Names.{location_of};
    ghost use Rattle.std.specs.Prelude.{◌≡◌, Some};

    ghost Value = { Location };

    ghost view = { λ s. s.location };

    ghost invariant = { λ s. location_of s.place ≡ Some s.location };
}

impl<'a> Observer<'a> {
    /// Who looks for it at a place and its location.
    pub fn new(place: Place, location: Location, sightings: &'a Sightings) -> Self
        requires located { location_of place ≡ Some location }
        ensures location { result ≡ location }
    {
        Observer {
            place,
            location,
            sightings,
        }
    }

    /// The location.
    pub fn location(&self) -> Location
        ensures location { result ≡ self.now }
    {
        self.location
    }

    /// What is known of the evening with which a day (R.D.) begins.
    pub(crate) fn known(&self, day: i64) -> Option<Sighting>
        ensures right { IfSome result (λ s. IsSighting self.now day s.tests s.is_seen) }
    {
        self.sightings.find(self.place, day)
    }

    /// Keeps what a run has decided of the evening with which a day (R.D.) begins, by its count of tests before and after.
    pub(crate) fn learn(&self, day: i64, is_seen: bool, before: u32, after: u32)
        requires decided { Decides (visible_of self.now day) before after (Ok is_seen) }
    {
        // A count that has come to its greatest number tells no number of tests.
        if after < u32::MAX {
            let tests = after.saturating_sub(before);
            self.sightings
                .keep(self.place, day, Sighting { is_seen, tests });
        }
    }
}
