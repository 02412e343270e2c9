//! The rows of the moon's tables as they are summed, and their sums.
ghost use Rattle.std.specs.Prelude.{◌≡◌, ◌≤◌, ◌+◌, ◌*◌, ◌/◌, ◌^◌, ℕ, unsigned_abs, pos};
ghost use Rattle.book_model.specs.Interval.{between, ◌⊆◌};
ghost use Rattle.book_model.specs.declared.moon_tables.TheConstants.{LATITUDE_TERMS, MOON_TERMS};
ghost use Rattle.book_model.specs.declared.new_moon_tables.TheConstants.{NEW_MOON_TERMS};
ghost use Rattle.book_model.specs.numbers.Depth.{DEPTH};
ghost use Rattle.book_model.specs.numbers.Expressions.{Expression, World, value};
ghost use Rattle.book_model.specs.numbers.Terms.{terms_of};
ghost use Rattle.book_model.specs.programs.Leading.{units_of_56};
ghost use Rattle.book_model.specs.sky.Distance.{distance_term_of};
ghost use Rattle.book_model.specs.sky.Latitude.{latitude_term_of, no_latitude_term};
ghost use Rattle.book_model.specs.sky.Moon.{LunarAngles, longitude_term_of, no_term};
ghost use Rattle.book_model.specs.sky.NewMoons.{NewMoonAngles, new_moon_term_of, no_new_moon_term};
ghost use Rattle.book_model.specs.numbers.Relations.{Within};
ghost use Rattle.book_model.specs.programs.Widths.{IsAbout};
ghost use Rattle.periodic_terms.specs.MeanAngles.{HoldAngles, with_elongation};
ghost use Rattle.periodic_terms.specs.Multiples.{AreTurns, AreTwoTurns};
ghost use Rattle.periodic_terms.specs.Widths.{AreClose, AreTurnsWithin};
ghost use Rattle.periodic_terms.specs.Tables.{distance_row_of, greatest_rows, longitude_row_of, latitude_row_of, new_moon_row_of, other_rows};

use crate::angle_turns::{mean_turns, two_turns};
use crate::mean::{MeanAngles, MeanTurns};
use crate::term_rows::{MultipleRow, Multiples};
use crate::term_spans::{span_of, span_of_parts};
use crate::term_sums::{RowSums, sum_of_rows};
use book_model::moon_tables::{LATITUDE_TERMS, MOON_TERMS};
use book_model::new_moon_tables::NEW_MOON_TERMS;
use book_model::{LatitudeTerm, MoonTerm, NewMoonTerm};
use encl_core::{Enclosure, Span};

// With the others row by row too a full moon takes 528,000 instructions so, and with two, eight and
// sixteen 589,000, 576,000 and 705,000.
/// How many terms of the longitude, the first of the table, are the greatest: tried as the sun's. None takes the sun's anomaly or the
/// argument of latitude.
pub const GREATEST_TERMS: usize = 4;

/// The totals of the terms of the longitude.
const LONGITUDE_SUMS: RowSums = RowSums {
    elongation: 4_568_713,
    sun_anomaly: 412_267,
    moon_anomaly: 8_447_999,
    latitude_argument: 323_246,
    sizes: 9_198_091,
    powered: 404_178,
};

/// The totals of the greatest of them.
const GREATEST_SUMS: RowSums = RowSums {
    elongation: 3_864_682,
    sun_anomaly: 0,
    moon_anomaly: 7_990_037,
    latitude_argument: 0,
    sizes: 8_434_733,
    powered: 0,
};

/// The totals of the others.
const OTHER_SUMS: RowSums = RowSums {
    elongation: 704_031,
    sun_anomaly: 412_267,
    moon_anomaly: 457_962,
    latitude_argument: 323_246,
    sizes: 763_358,
    powered: 404_178,
};

/// The totals of the terms of the distance.
const DISTANCE_SUMS: RowSums = RowSums {
    elongation: 15_608_236,
    sun_anomaly: 798_317,
    moon_anomaly: 27_237_987,
    latitude_argument: 220_868,
    sizes: 29_682_638,
    powered: 777_847,
};

/// The totals of the terms of the latitude.
const LATITUDE_SUMS: RowSums = RowSums {
    elongation: 722_146,
    sun_anomaly: 31_867,
    moon_anomaly: 762_778,
    latitude_argument: 6_091_149,
    sizes: 6_084_317,
    powered: 31_458,
};

/// The totals of the terms of a new moon.
const NEW_MOON_SUMS: RowSums = RowSums {
    elongation: 0,
    sun_anomaly: 19_109,
    moon_anomaly: 45_689,
    latitude_argument: 2610,
    sizes: 62_472,
    powered: 18_862,
};

/// The sum of which rows are the moon's longitude.
struct Longitude;

/// The moon's distance.
struct Distance;

/// The moon's latitude.
struct Latitude;

/// The moment of a new moon.
struct NewMoon;

impl MultipleRow<Longitude> for MoonTerm {
    ghost row_of = { λ term. longitude_row_of term };

    fn row(&self) -> Multiples {
        Multiples {
            elongation: self.elongation,
            sun_anomaly: self.sun_anomaly,
            moon_anomaly: self.moon_anomaly,
            latitude_argument: self.latitude_argument,
            quarters: 0,
            power: self.sun_anomaly.unsigned_abs(),
            size: self.longitude,
        }
    }
}

impl MultipleRow<Distance> for MoonTerm {
    ghost row_of = { λ term. distance_row_of term };

    fn row(&self) -> Multiples {
        Multiples {
            elongation: self.elongation,
            sun_anomaly: self.sun_anomaly,
            moon_anomaly: self.moon_anomaly,
            latitude_argument: self.latitude_argument,
            quarters: 1,
            power: self.sun_anomaly.unsigned_abs(),
            size: self.distance,
        }
    }
}

impl MultipleRow<Latitude> for LatitudeTerm {
    ghost row_of = { λ term. latitude_row_of term };

    fn row(&self) -> Multiples {
        Multiples {
            elongation: self.elongation,
            sun_anomaly: self.sun_anomaly,
            moon_anomaly: self.moon_anomaly,
            latitude_argument: self.latitude_argument,
            quarters: 0,
            power: self.sun_anomaly.unsigned_abs(),
            size: self.latitude,
        }
    }
}

impl MultipleRow<NewMoon> for NewMoonTerm {
    ghost row_of = { λ term. new_moon_row_of term };

    fn row(&self) -> Multiples {
        Multiples {
            elongation: 0,
            sun_anomaly: self.sun_anomaly,
            moon_anomaly: self.moon_anomaly,
            latitude_argument: self.latitude_argument,
            quarters: 0,
            power: self.eccentricity,
            size: self.size,
        }
    }
}

/// The sum of the terms of the moon's longitude.
#[inline(always)]
fn longitude_sum(turns: &MeanTurns) -> Span
    ensures holds { (w : World) (a : LunarAngles) → DEPTH ≤ w.depth → AreTurns w a turns.now
        → value w (terms_of (longitude_term_of a) no_term MOON_TERMS)
        ⊆ between (units_of_56 result.lo) (units_of_56 result.hi) }
    ensures narrow { (v : ℕ) → AreTurnsWithin v turns.now → IsAbout (9300000 * 2 ^ 32) (302000 * v + 2 ^ 49)
        (between (units_of_56 result.lo) (units_of_56 result.hi)) }
{
    span_of(sum_of_rows::<Longitude, MoonTerm>(&MOON_TERMS, turns, LONGITUDE_SUMS))
}

/// The sum of the greatest of them, by the two angles that they take.
#[inline(always)]
fn greatest_sum(turns: &MeanTurns) -> Span
    ensures holds { (w : World) (a : LunarAngles) → DEPTH ≤ w.depth → AreTwoTurns w a turns.now
        → value w (terms_of (longitude_term_of a) no_term greatest_rows)
        ⊆ between (units_of_56 result.lo) (units_of_56 result.hi) }
{
    span_of(sum_of_rows::<Longitude, MoonTerm>(&MOON_TERMS[..GREATEST_TERMS], turns, GREATEST_SUMS))
}

/// The sum of the others.
#[inline(always)]
fn other_sum(turns: &MeanTurns) -> Span
    ensures holds { (w : World) (a : LunarAngles) → DEPTH ≤ w.depth → AreTurns w a turns.now
        → value w (terms_of (longitude_term_of a) no_term other_rows)
        ⊆ between (units_of_56 result.lo) (units_of_56 result.hi) }
{
    span_of(sum_of_rows::<Longitude, MoonTerm>(&MOON_TERMS[GREATEST_TERMS..], turns, OTHER_SUMS))
}

/// The sum of the terms of the moon's distance.
#[inline(always)]
fn distance_sum(turns: &MeanTurns) -> Span
    ensures holds { (w : World) (a : LunarAngles) → DEPTH ≤ w.depth → AreTurns w a turns.now
        → value w (terms_of (distance_term_of a) no_term MOON_TERMS)
        ⊆ between (units_of_56 result.lo) (units_of_56 result.hi) }
    ensures narrow { (v : ℕ) → AreTurnsWithin v turns.now → IsAbout (29900000 * 2 ^ 32) (962000 * v + 2 ^ 50)
        (between (units_of_56 result.lo) (units_of_56 result.hi)) }
{
    span_of(sum_of_rows::<Distance, MoonTerm>(&MOON_TERMS, turns, DISTANCE_SUMS))
}

/// The sum of the terms of the moon's latitude.
#[inline(always)]
fn latitude_sum(turns: &MeanTurns) -> Span
    ensures holds { (w : World) (a : LunarAngles) → DEPTH ≤ w.depth → AreTurns w a turns.now
        → value w (terms_of (latitude_term_of a) no_latitude_term LATITUDE_TERMS)
        ⊆ between (units_of_56 result.lo) (units_of_56 result.hi) }
    ensures narrow { (v : ℕ) → AreTurnsWithin v turns.now → IsAbout (6100000 * 2 ^ 32) (167000 * v + 2 ^ 47)
        (between (units_of_56 result.lo) (units_of_56 result.hi)) }
{
    span_of(sum_of_rows::<Latitude, LatitudeTerm>(&LATITUDE_TERMS, turns, LATITUDE_SUMS))
}

/// The sum of the terms of a new moon; its rows take no elongation.
#[inline(always)]
fn new_moon_sum(turns: &MeanTurns) -> Span
    ensures holds { (w : World) (d : Expression) (a : NewMoonAngles) → DEPTH ≤ w.depth
        → AreTurns w (with_elongation d a) turns.now
        → value w (terms_of (new_moon_term_of a) no_new_moon_term NEW_MOON_TERMS)
        ⊆ between (units_of_56 result.lo) (units_of_56 result.hi) }
    ensures narrow { (v : ℕ) → AreTurnsWithin v turns.now → IsAbout (2 ^ 32) (v / 64 + 2 ^ 27)
        (between (units_of_56 result.lo) (units_of_56 result.hi)) }
{
    span_of_parts(sum_of_rows::<NewMoon, NewMoonTerm>(&NEW_MOON_TERMS, turns, NEW_MOON_SUMS))
}

/// The sum of the terms of the moon's longitude by its angles, in millionths of a degree: never wider than the sum of their sizes, where
/// the factor is known.
pub fn longitude_terms<E: Enclosure>(angles: MeanAngles<E>) -> E
    ensures holds { (w : World) (a : LunarAngles) → DEPTH ≤ w.depth → HoldAngles E.shown w a angles
        → Within E.shown w (terms_of (longitude_term_of a) no_term MOON_TERMS) result }
    ensures narrow { (v : ℕ) → E.BITS ≡ 56 → v ≤ 2 ^ 65 → AreClose E.shown v angles
        → IsAbout (9300000 * 2 ^ 32) (302000 * v + 2 ^ 49 + 2 ^ 9) (E.shown result) }
{
    match mean_turns(angles) {
        Some(turns) => E::from_span(longitude_sum(&turns)),
        None => E::whole(),
    }
}

/// The sum of the greatest of them, the first of the table.
pub fn greatest_terms<E: Enclosure>(angles: MeanAngles<E>) -> E
    ensures holds { (w : World) (a : LunarAngles) → DEPTH ≤ w.depth → HoldAngles E.shown w a angles
        → Within E.shown w (terms_of (longitude_term_of a) no_term greatest_rows) result }
{
    E::from_span(greatest_sum(&two_turns(angles)))
}

/// The sum of the others.
pub fn other_terms<E: Enclosure>(angles: MeanAngles<E>) -> E
    ensures holds { (w : World) (a : LunarAngles) → DEPTH ≤ w.depth → HoldAngles E.shown w a angles
        → Within E.shown w (terms_of (longitude_term_of a) no_term other_rows) result }
{
    match mean_turns(angles) {
        Some(turns) => E::from_span(other_sum(&turns)),
        None => E::whole(),
    }
}

/// The sum of the terms of the moon's distance by its angles, in metres.
pub fn distance_terms<E: Enclosure>(angles: MeanAngles<E>) -> E
    ensures holds { (w : World) (a : LunarAngles) → DEPTH ≤ w.depth → HoldAngles E.shown w a angles
        → Within E.shown w (terms_of (distance_term_of a) no_term MOON_TERMS) result }
    ensures narrow { (v : ℕ) → E.BITS ≡ 56 → v ≤ 2 ^ 65 → AreClose E.shown v angles
        → IsAbout (29900000 * 2 ^ 32) (962000 * v + 2 ^ 50 + 2 ^ 9) (E.shown result) }
{
    match mean_turns(angles) {
        Some(turns) => E::from_span(distance_sum(&turns)),
        None => E::whole(),
    }
}

/// The sum of the terms of the moon's latitude by its angles, in millionths of a degree.
pub fn latitude_terms<E: Enclosure>(angles: MeanAngles<E>) -> E
    ensures holds { (w : World) (a : LunarAngles) → DEPTH ≤ w.depth → HoldAngles E.shown w a angles
        → Within E.shown w (terms_of (latitude_term_of a) no_latitude_term LATITUDE_TERMS) result }
    ensures narrow { (v : ℕ) → E.BITS ≡ 56 → v ≤ 2 ^ 65 → AreClose E.shown v angles
        → IsAbout (6100000 * 2 ^ 32) (167000 * v + 2 ^ 47 + 2 ^ 9) (E.shown result) }
{
    match mean_turns(angles) {
        Some(turns) => E::from_span(latitude_sum(&turns)),
        None => E::whole(),
    }
}

/// The sum of the terms of a new moon by its angles, in days; its rows take no elongation.
pub fn new_moon_terms<E: Enclosure>(angles: MeanAngles<E>) -> E
    ensures holds { (w : World) (d : Expression) (a : NewMoonAngles) → DEPTH ≤ w.depth
        → HoldAngles E.shown w (with_elongation d a) angles
        → Within E.shown w (terms_of (new_moon_term_of a) no_new_moon_term NEW_MOON_TERMS) result }
    ensures narrow { (v : ℕ) → E.BITS ≡ 56 → v ≤ 2 ^ 65 → AreClose E.shown v angles
        → IsAbout (2 ^ 32) (v / 64 + 2 ^ 27 + 2 ^ 9) (E.shown result) }
{
    match mean_turns(angles) {
        Some(turns) => E::from_span(new_moon_sum(&turns)),
        None => E::whole(),
    }
}
