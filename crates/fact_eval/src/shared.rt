//! What the runs of an evaluator share: ΔT of years, and new moons by their numbers.
//!
//! A run caches both in its trail, and begins with what others have found about the day of its fact. A place holds a number of 64 bits that
//! says of what it is, so that whoever set it last, what is read is right for what it says; where two want one place the last stays. What is
//! cached is what a run would evaluate anew, so that no answer depends on it, and no call waits.
ghost use Rattle.std.specs.Prelude.{◌≡◌, ◌+◌, ◌/◌, ◌%◌, ◌^◌, pos, neg_ℤ, ◌≤ℤ◌, ◌+ℤ◌, ◌*ℤ◌, IfSome, IsTrue};
ghost use Rattle.fact_eval.specs.Shared.{IsSharedWord, asked_of, expected_of, high_of, is_moon, low_of, lower_of, number_of, width_of};

use encl_core::{Asked, Coarse, Enclosure, Span, Trail};
use std::array;
use std::sync::atomic::Ordering::SeqCst;
use std::sync::atomic::{AtomicIn, Rule};

/// A day, in 2⁻³⁶.
const DAY_36: i64 = 1 << 36;

/// The mean month, in 2⁻³⁶ days.
pub const MONTH_36: i64 = 2_029_326_614_234;

/// Where the new moon of number 0 is expected, in 2⁻³⁶ days (R.D.); the others follow by mean months.
pub const FIRST_MOON_36: i64 = 777_815_141_332;

/// The days of 400 years of the Gregorian calendar.
const DAYS_OF_400_YEARS: i64 = 146_097;

/// The greatest day (R.D.) about which anything is shared.
const LAST_USUAL_DAY: i64 = 1 << 20;

/// How many parts of 2⁻⁵⁶ one of 2⁻³⁶ has, and the exponent of that.
const PARTS_56_OF_36: i128 = 1 << 20;

const BITS_36_TO_56: u32 = 20;

/// The lowest 16 bits of a word are a number, above the least, which is so far below 0.
const NUMBERS: u64 = 1 << 16;

const NUMBERS_BELOW_0: i64 = 1 << 15;

// Behind them a bit tells whether it is the number of a new moon or a year.
/// What is multiplied by the width in a word, 7 bits.
const WIDTH: u64 = 1 << 17;

const WIDTHS: u64 = 1 << 7;

/// What is multiplied by how far the lower endpoint is above the least that a word can say, 40 bits.
const LOWER: u64 = 1 << 24;

/// How far that least is below where the lower endpoint is expected, in 2⁻³⁶: 8 days.
const LOWER_BELOW_EXPECTED: i64 = 1 << 39;

/// How many places there are: so many that each new moon and each year of the days of facts has one of its own.
const PLACES: usize = 6144;

/// By how much the place of a year comes behind the year: from 2,100 on, where no new moon of 1700 to 2149 has its place.
const YEARS_FROM: i64 = 400;

/// Words that hold nothing, ΔT of a year or the new moon of a number.
struct Words;

impl Rule for Words {
    ghost invariant = { λ w. IsSharedWord w };
}

/// The number of what a word is of.
fn number(word: u64) -> i64
    ensures value { result ≡ number_of word }
    ensures least { neg_ℤ (pos (2 ^ 15)) ≤ℤ result }
    ensures greatest { result ≤ℤ pos (2 ^ 15) }
{
    (word % NUMBERS) as i64 - NUMBERS_BELOW_0
}

/// Whether a word is of a new moon.
fn is_of_moon(word: u64) -> bool
    ensures { result ≡ is_moon word }
{
    word / NUMBERS % 2 == 0
}

/// What a word is of.
fn asked(word: u64) -> Asked
    ensures { result ≡ asked_of word }
{
    let number = number(word);
    if is_of_moon(word) {
        Asked::NewMoon(number)
    } else {
        Asked::Correction(number)
    }
}

/// Where the endpoints of what a word is of are expected, in 2⁻³⁶ days: new moons by the mean month, ΔT near 0.
fn expected_36(word: u64) -> i64
    ensures value { result ≡ expected_of (asked_of word) }
    ensures low { neg_ℤ (pos (2 ^ 58)) ≤ℤ result }
    ensures high { result ≤ℤ pos (2 ^ 58) }
{
    if is_of_moon(word) {
        number(word) * MONTH_36 + FIRST_MOON_36
    } else {
        0
    }
}

/// How far the lower endpoint of a word is above the least that a word can say, in 2⁻³⁶ days.
fn above_least_36(word: u64) -> i64
    ensures value { result ≡ pos (word / 2 ^ 24) }
    ensures few { result ≤ℤ pos (2 ^ 40) }
    ensures from { pos 0 ≤ℤ result }
{
    (word / LOWER) as i64
}

/// The lower endpoint of a word, in 2⁻³⁶ days.
fn lower_36(word: u64) -> i64
    ensures value { result ≡ lower_of word }
    ensures low { neg_ℤ (pos (2 ^ 60)) ≤ℤ result }
    ensures high { result ≤ℤ pos (2 ^ 60) }
{
    expected_36(word) + (above_least_36(word) - LOWER_BELOW_EXPECTED)
}

/// The width of a word, in 2⁻³⁶ days.
fn width_36(word: u64) -> i64
    ensures value { result ≡ width_of word }
    ensures few { result ≤ℤ pos (2 ^ 7) }
    ensures from { pos 0 ≤ℤ result }
{
    (word / WIDTH % WIDTHS) as i64
}

/// Units of 2⁻³⁶ in 2⁻⁵⁶.
fn in_56(units: i64) -> i128
    ensures { result ≡ units *ℤ pos (2 ^ 20) }
{
    i128::from(units) * PARTS_56_OF_36
}

/// The endpoints of a word, in order.
fn endpoints(word: u64) -> Span
    ensures low { result.lo ≡ low_of word }
    ensures high { result.hi ≡ high_of word }
{
    let lower = lower_36(word);
    let lo = in_56(lower);
    let hi = in_56(lower + width_36(word));
    Span { lo, hi }
}

/// What was asked as a word without endpoints, where its number isn't too small.
fn unsaid(asked: Asked) -> Option<u64> {
    let (kind, number) = match asked {
        Asked::NewMoon(number) => (0, number),
        Asked::Correction(year) => (NUMBERS, year),
    };
    let number = u64::try_from(number.wrapping_add(NUMBERS_BELOW_0)).ok()?;
    Some(number.wrapping_add(kind))
}

/// What was asked and its endpoints as a word, where they fit. Nothing is said of it: `says` tells.
fn packed(asked: Asked, endpoints: &Span) -> Option<u64> {
    let unsaid = unsaid(asked)?;
    let least = i128::from(expected_36(unsaid) - LOWER_BELOW_EXPECTED);
    let lower = u64::try_from((endpoints.lo >> BITS_36_TO_56).wrapping_sub(least)).ok()?;
    let width = u64::try_from(endpoints.hi.wrapping_sub(endpoints.lo) >> BITS_36_TO_56).ok()?;
    Some(
        lower
            .wrapping_mul(LOWER)
            .wrapping_add(width.wrapping_mul(WIDTH))
            .wrapping_add(unsaid),
    )
}

/// Whether a word is of what was asked and has these endpoints.
fn says(word: u64, sought: Asked, within: &Span) -> bool
    ensures asked { IsTrue result → asked_of word ≡ sought }
    ensures low { IsTrue result → within.now.lo ≡ low_of word }
    ensures high { IsTrue result → within.now.hi ≡ high_of word }
{
    let said = endpoints(word);
    if asked(word) != sought {
        return false;
    }
    if said.lo != within.lo {
        return false;
    }
    said.hi == within.hi
}

/// The word of what was asked and its endpoints, if they fit in one.
fn word_of(asked: Asked, within: &Span) -> Option<u64>
    ensures asked { IfSome result (λ w. asked_of w ≡ asked) }
    ensures low { IfSome result (λ w. within.now.lo ≡ low_of w) }
    ensures high { IfSome result (λ w. within.now.hi ≡ high_of w) }
{
    let word = packed(asked, within)?;
    if says(word, asked, within) {
        Some(word)
    } else {
        None
    }
}

/// The word of what was asked, if a trail has it.
fn found(asked: Asked, trail: &Trail) -> Option<u64>
    ensures right { IfSome result IsSharedWord }
{
    let endpoints = trail.kept(asked, Coarse::BITS)?;
    word_of(asked, &endpoints)
}

/// A day (R.D.) as one from 0 to 2²⁰.
fn usual(day: i64) -> i64
    ensures least { pos 0 ≤ℤ result }
    ensures greatest { result ≤ℤ pos (2 ^ 20) }
{
    day.max(0).min(LAST_USUAL_DAY)
}

/// What a run is likely to ask that is of a day (R.D.): ΔT of its year, the new moon that is about it, and those before and after.
fn about(day: i64) -> [Asked; 4] {
    let day = usual(day);
    let moon = (day * DAY_36 + (MONTH_36 / 2 - FIRST_MOON_36)) / MONTH_36;
    [
        Asked::Correction(day * 400 / DAYS_OF_400_YEARS + 1),
        Asked::NewMoon(moon - 1),
        Asked::NewMoon(moon),
        Asked::NewMoon(moon + 1),
    ]
}

/// A place that holds nothing.
fn empty() -> AtomicIn<Words> {
    AtomicIn::new(0)
}

/// The places that runs share.
#[derive(Drop)]
pub(crate) struct Shared {
    places: [AtomicIn<Words>; PLACES],
}

impl Shared {
    /// Places that hold nothing.
    pub(crate) fn new() -> Self {
        Shared {
            places: array::from_fn(|_| empty()),
        }
    }

    /// The place of what is asked.
    fn place(&self, asked: Asked) -> &AtomicIn<Words> {
        let number = match asked {
            Asked::NewMoon(number) => number,
            Asked::Correction(year) => year.wrapping_add(YEARS_FROM),
        };
        &self.places[number.rem_euclid(PLACES as i64) as usize]
    }

    /// Hands a trail what the place of what is asked holds.
    fn lend_one(&self, about: Asked, trail: &mut Trail)
        ensures counted { trail.new.count ≡ trail.old.count }
    {
        let word = self.place(about).load(SeqCst);
        if word != 0 {
            trail.keep(asked(word), Coarse::BITS, Some(endpoints(word)));
        }
    }

    /// Takes what is asked, if a trail has it.
    fn take_one(&self, asked: Asked, trail: &Trail) {
        if let Some(word) = found(asked, trail) {
            self.place(asked).store(word, SeqCst);
        }
    }

    /// Hands a trail what others have found about a day (R.D.).
    pub(crate) fn lend(&self, day: i64, trail: &mut Trail)
        ensures counted { trail.new.count ≡ trail.old.count }
    {
        for asked in about(day) {
            self.lend_one(asked, trail);
        }
    }

    /// Takes what a trail has found about a day (R.D.).
    pub(crate) fn take(&self, day: i64, trail: &Trail) {
        for asked in about(day) {
            self.take_one(asked, trail);
        }
    }
}
