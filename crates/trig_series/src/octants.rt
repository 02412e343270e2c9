//! The sine over octants of 45 degrees, as spans.
ghost use Rattle.std.specs.Prelude.{◌≡◌, ◌≤◌, ◌⊎◌, ◌^◌, ℕ, ℤ, pos, suc, neg_ℤ, unsigned_abs, ◌≤ℤ◌, ◌<ℤ◌, ◌+ℤ◌, ◌-ℤ◌, ◌*ℤ◌};
ghost use Rattle.std.specs.Int.{int_div_euclid, int_min, int_max};
ghost use Rattle.book_model.specs.Fraction.{Fraction, ◌≈◌};
ghost use Rattle.book_model.specs.Interval.{between, ◌⊆◌};
ghost use Rattle.book_model.specs.programs.Leading.{units_of_56};
ghost use Rattle.book_model.specs.numbers.Octants.{octant_of_turn, sine_into as into_octant, sine_at as at_degrees, sine_in as in_octant, first_octant, last_octant, sine_of_degrees};
ghost use Rattle.encl_core.specs.parts.TheConstants.{OCTANT, QUARTER};
ghost use Rattle.trig_series.specs.Points.{IsPoint, edge_of, IsAt, IsSmall, IsAround, IsCrest, IsInside, IsPart};
ghost use Rattle.book_model.specs.numbers.Depth.{DEPTH};

use crate::parts::part_of_turn;
use crate::points::{cosine_endpoints_at_degrees, opposite, sine_endpoints_at_degrees};
use encl_core::parts::{OCTANT, WIDE_OCTANT};
use encl_core::{Span, shr_floor};

/// The sine at so many degrees into an octant of the first half turn.
#[inline(always)]
fn sine_into_octant_of_half_turn(octant: i128, degrees: u64) -> Span
    requires from { pos 0 ≤ℤ octant }
    requires to { octant ≤ℤ pos 3 }
    requires high { degrees ≤ OCTANT }
    ensures holds { (n : ℕ) (y : Fraction) → DEPTH ≤ n → y ≈ units_of_56 (pos degrees)
        → into_octant n (unsigned_abs octant) y ⊆ between (units_of_56 result.lo)
        (units_of_56 result.hi) }
    ensures near { IsPoint (unsigned_abs octant) degrees result.lo result.hi }
    ensures room { IsSmall result.lo result.hi }
    ensures begins { degrees ≡ 0 → IsAt (edge_of (unsigned_abs octant)) result.lo result.hi }
    ensures endpoints { degrees ≡ OCTANT → IsAt (edge_of (suc (unsigned_abs octant))) result.lo result.hi }
{
    if octant == 0 {
        return sine_endpoints_at_degrees(degrees);
    }
    if octant == 1 {
        return cosine_endpoints_at_degrees(OCTANT - degrees);
    }
    if octant == 2 {
        return cosine_endpoints_at_degrees(degrees);
    }
    sine_endpoints_at_degrees(OCTANT - degrees)
}

/// From the lesser lower to the greater upper endpoint.
#[inline(always)]
fn hull(first: Span, second: Span) -> Span
    ensures low { result.lo ≡ int_min first.lo second.lo }
    ensures high { result.hi ≡ int_max first.hi second.hi }
{
    let lo = first.lo.min(second.lo);
    let hi = first.hi.max(second.hi);
    Span { lo, hi }
}

/// The sine at so many degrees into an octant of a turn.
#[inline(always)]
fn sine_into_octant_of_turn(octant: i128, degrees: u64) -> Span
    requires from { pos 0 ≤ℤ octant }
    requires to { octant ≤ℤ pos 7 }
    requires high { degrees ≤ OCTANT }
    ensures holds { (n : ℕ) (y : Fraction) → DEPTH ≤ n → y ≈ units_of_56 (pos degrees)
        → into_octant n (unsigned_abs octant) y ⊆ between (units_of_56 result.lo)
        (units_of_56 result.hi) }
    ensures near { IsPoint (unsigned_abs octant) degrees result.lo result.hi }
    ensures room { IsSmall result.lo result.hi }
    ensures begins { degrees ≡ 0 → IsAt (edge_of (unsigned_abs octant)) result.lo result.hi }
    ensures endpoints { degrees ≡ OCTANT → IsAt (edge_of (suc (unsigned_abs octant))) result.lo result.hi }
{
    if octant >= 4 {
        return opposite(sine_into_octant_of_half_turn(octant - 4, degrees));
    }
    sine_into_octant_of_half_turn(octant, degrees)
}

/// Which octant of its turn an octant is.
#[inline(always)]
fn octant_in_turn(octant: i128) -> i128
    requires from { neg_ℤ (pos (2 ^ 60)) ≤ℤ octant }
    requires to { octant ≤ℤ pos (2 ^ 60) }
    ensures value { result ≡ pos (octant_of_turn octant) }
    ensures few { result ≤ℤ pos 7 }
{
    octant - shr_floor::<3>(octant) * 8
}

/// The sine at a number of degrees in an octant.
#[inline(always)]
fn sine_at_degrees_in_octant(octant: i128, degrees: i128) -> Span
    requires from { neg_ℤ (pos (2 ^ 60)) ≤ℤ octant }
    requires to { octant ≤ℤ pos (2 ^ 60) }
    requires low { (octant *ℤ pos OCTANT) ≤ℤ degrees }
    requires high { degrees ≤ℤ (octant *ℤ pos OCTANT +ℤ pos OCTANT) }
    ensures holds { (n : ℕ) (y : Fraction) → DEPTH ≤ n → y ≈ units_of_56 degrees
        → at_degrees n octant y ⊆ between (units_of_56 result.lo) (units_of_56 result.hi) }
    ensures near { IsPoint (octant_of_turn octant) (unsigned_abs (degrees -ℤ octant *ℤ pos OCTANT))
        result.lo result.hi }
    ensures begins { degrees ≡ octant *ℤ pos OCTANT → IsAt
        (edge_of (octant_of_turn octant)) result.lo result.hi }
    ensures endpoints { degrees ≡ octant *ℤ pos OCTANT +ℤ pos OCTANT
        → IsAt (edge_of (suc (octant_of_turn octant))) result.lo result.hi }
{
    sine_into_octant_of_turn(
        octant_in_turn(octant),
        (degrees - octant * WIDE_OCTANT) as u64,
    )
}

/// The sine over the part of two endpoints, in units of 2⁻⁵⁶, in an octant that they meet.
#[inline(always)]
fn sine_over_degrees_in_octant(octant: i128, lo: i128, hi: i128) -> Span
    requires from { neg_ℤ (pos (2 ^ 60)) ≤ℤ octant }
    requires to { octant ≤ℤ pos (2 ^ 60) }
    requires ordered { lo ≤ℤ hi }
    requires begun { (octant *ℤ pos OCTANT) ≤ℤ hi }
    requires ended { lo ≤ℤ (octant *ℤ pos OCTANT +ℤ pos OCTANT) }
    ensures holds { (n : ℕ) → DEPTH ≤ n → in_octant n (units_of_56 lo) (units_of_56 hi) octant
        ⊆ between
        (units_of_56 result.lo) (units_of_56 result.hi) }
    ensures narrow { (pos 57 *ℤ (result.hi -ℤ result.lo)) ≤ℤ
        ((int_min (octant *ℤ pos OCTANT +ℤ pos OCTANT) hi -ℤ int_max (octant *ℤ pos OCTANT) lo)
        +ℤ pos 513) }
    ensures begins { lo ≤ℤ (octant *ℤ pos OCTANT) → IsAt (edge_of (octant_of_turn octant)) result.lo
        result.hi }
    ensures endpoints { (octant *ℤ pos OCTANT +ℤ pos OCTANT) ≤ℤ hi
        → IsAt (edge_of (suc (octant_of_turn octant))) result.lo result.hi }
    ensures small { (a : ℤ) → neg_ℤ a ≤ℤ lo → hi ≤ℤ a → a <ℤ pos OCTANT
        → IsAround (pos 0) a result.lo result.hi }
    ensures crest { (a : ℤ) → (QUARTER -ℤ a) ≤ℤ lo → hi ≤ℤ (QUARTER +ℤ a) → a <ℤ pos OCTANT
        → IsCrest a result.lo }
{
    let edge = octant * WIDE_OCTANT;
    let low = sine_at_degrees_in_octant(octant, edge.max(lo));
    let high = sine_at_degrees_in_octant(octant, (edge + WIDE_OCTANT).min(hi));
    hull(low, high)
}

/// How often 45 is added to a number of 32 bits, so that it isn't below 0: a division without a sign by a constant is a
/// multiplication.
const TIMES_ADDED: i64 = 1 << 27;

/// How often 45 goes into a number, rounded down.
#[inline(always)]
fn times_of_45(number: i32) -> i64
    ensures value { result ≡ int_div_euclid number (pos 45) }
{
    let raised = (i64::from(number) + 45 * TIMES_ADDED) as u64;
    (raised / 45) as i64 - TIMES_ADDED
}

/// How often an octant goes into degrees, in units of 2⁻⁵⁶, rounded down: as often as 45 into their whole number,
/// which nearly always fits in 32 bits.
#[inline(always)]
fn octants_in(degrees: i128) -> i128
    ensures value { result ≡ int_div_euclid degrees (pos OCTANT) }
{
    let whole = shr_floor::<56>(degrees);
    match i32::try_from(whole) {
        Ok(small) => i128::from(times_of_45(small)),
        Err(_) => whole.div_euclid(45),
    }
}

/// The first octant that ends at or above so many degrees, in units of 2⁻⁵⁶.
#[inline(always)]
fn first_met(lo: i128) -> i128
    requires from { neg_ℤ (pos (2 ^ 120)) ≤ℤ lo }
    requires to { lo ≤ℤ pos (2 ^ 120) }
    ensures value { result ≡ first_octant (units_of_56 lo) }
    ensures begun { (result *ℤ pos OCTANT) ≤ℤ lo }
    ensures ended { lo ≤ℤ (result *ℤ pos OCTANT +ℤ pos OCTANT) }
    ensures above { neg_ℤ (pos (2 ^ 60)) ≤ℤ result }
    ensures below { result <ℤ pos (2 ^ 60) }
{
    -octants_in(-lo) - 1
}

/// The last octant that begins at or below so many degrees, in units of 2⁻⁵⁶.
#[inline(always)]
fn last_met(hi: i128) -> i128
    requires from { neg_ℤ (pos (2 ^ 120)) ≤ℤ hi }
    requires to { hi ≤ℤ pos (2 ^ 120) }
    ensures value { result ≡ last_octant (units_of_56 hi) }
    ensures begun { (result *ℤ pos OCTANT) ≤ℤ hi }
    ensures ended { hi ≤ℤ (result *ℤ pos OCTANT +ℤ pos OCTANT) }
    ensures above { neg_ℤ (pos (2 ^ 60)) ≤ℤ result }
    ensures below { result <ℤ pos (2 ^ 60) }
{
    octants_in(hi)
}

// Over an edge 9 parts of 2⁻⁵⁶ are allowed for each octant, up to four; three octants have more
// room than a sine can move.
/// The sine over the octants from the first to the last that two endpoints meet.
#[cold]
fn sine_over_octants(first: i128, last: i128, lo: i128, hi: i128) -> Span
    requires ordered { lo ≤ℤ hi }
    requires first { first ≡ first_octant (units_of_56 lo) }
    requires last { last ≡ last_octant (units_of_56 hi) }
    requires begun { (first *ℤ pos OCTANT) ≤ℤ lo }
    requires ended { lo ≤ℤ (first *ℤ pos OCTANT +ℤ pos OCTANT) }
    requires reached { (last *ℤ pos OCTANT) ≤ℤ hi }
    requires above { neg_ℤ (pos (2 ^ 60)) ≤ℤ first }
    requires below { last <ℤ pos (2 ^ 60) }
    requires several { first <ℤ last }
    ensures holds { (n : ℕ) → DEPTH ≤ n → sine_of_degrees n
        (between (units_of_56 lo) (units_of_56 hi)) ⊆ between (units_of_56 result.lo)
        (units_of_56 result.hi) }
    ensures narrow { (pos 57 *ℤ (result.hi -ℤ result.lo)) ≤ℤ
        ((hi -ℤ lo) +ℤ pos 513 *ℤ ((last -ℤ first) +ℤ pos 1)) }
    ensures small { (a : ℤ) → neg_ℤ a ≤ℤ lo → hi ≤ℤ a → a <ℤ pos OCTANT
        → IsAround (pos 0) a result.lo result.hi }
    ensures crest { (a : ℤ) → (QUARTER -ℤ a) ≤ℤ lo → hi ≤ℤ (QUARTER +ℤ a) → a <ℤ pos OCTANT
        → IsCrest a result.lo }
{
    let mut sine = sine_over_degrees_in_octant(first, lo, hi);
    for octant in first + 1..last + 1 {
        sine = hull(sine, sine_over_degrees_in_octant(octant, lo, hi));
    }
    sine
}

// The usual case is inlined, so that it runs without a call; what is over an edge is `#[cold]`.
/// The sine over endpoints, in units of 2⁻⁵⁶, that lie in one octant.
#[inline(always)]
fn sine_within_octant(octant: i128, lo: i128, hi: i128) -> Span
    requires from { neg_ℤ (pos (2 ^ 60)) ≤ℤ octant }
    requires to { octant ≤ℤ pos (2 ^ 60) }
    requires begun { (octant *ℤ pos OCTANT) ≤ℤ lo }
    requires ordered { lo ≤ℤ hi }
    requires ended { hi ≤ℤ (octant *ℤ pos OCTANT +ℤ pos OCTANT) }
    ensures holds { (n : ℕ) → DEPTH ≤ n → in_octant n (units_of_56 lo) (units_of_56 hi) octant
        ⊆ between
        (units_of_56 result.lo) (units_of_56 result.hi) }
    ensures narrow { (pos 57 *ℤ (result.hi -ℤ result.lo)) ≤ℤ ((hi -ℤ lo) +ℤ pos 513) }
    ensures small { (a : ℤ) → neg_ℤ a ≤ℤ lo → hi ≤ℤ a → a <ℤ pos OCTANT
        → IsAround (pos 0) a result.lo result.hi }
    ensures crest { (a : ℤ) → (QUARTER -ℤ a) ≤ℤ lo → hi ≤ℤ (QUARTER +ℤ a) → a <ℤ pos OCTANT
        → IsCrest a result.lo }
    ensures near { IsPart (octant_of_turn octant) (unsigned_abs (lo -ℤ octant *ℤ pos OCTANT))
        (unsigned_abs (hi -ℤ octant *ℤ pos OCTANT)) result.lo result.hi }
{
    let edge = octant * WIDE_OCTANT;
    let from = (lo - edge) as u64;
    let to = (hi - edge) as u64;
    part_of_turn(octant_in_turn(octant), from, to)
}

/// The sine over endpoints that meet several octants.
#[cold]
fn sine_over_edges(lo: i128, hi: i128) -> Span
    requires ordered { lo ≤ℤ hi }
    requires from { neg_ℤ (pos (2 ^ 120)) ≤ℤ lo }
    requires to { hi ≤ℤ pos (2 ^ 120) }
    requires several { first_octant (units_of_56 lo) <ℤ last_octant (units_of_56 hi) }
    ensures holds { (n : ℕ) → DEPTH ≤ n → sine_of_degrees n
        (between (units_of_56 lo) (units_of_56 hi)) ⊆ between (units_of_56 result.lo)
        (units_of_56 result.hi) }
    ensures narrow { ((pos 3 *ℤ pos OCTANT) ≤ℤ (hi -ℤ lo))
        ⊎ ((pos 57 *ℤ (result.hi -ℤ result.lo)) ≤ℤ ((hi -ℤ lo) +ℤ pos 2052)) }
    ensures small { (a : ℤ) → neg_ℤ a ≤ℤ lo → hi ≤ℤ a → a <ℤ pos OCTANT
        → IsAround (pos 0) a result.lo result.hi }
    ensures crest { (a : ℤ) → (QUARTER -ℤ a) ≤ℤ lo → hi ≤ℤ (QUARTER +ℤ a) → a <ℤ pos OCTANT
        → IsCrest a result.lo }
{
    sine_over_octants(first_met(lo), last_met(hi), lo, hi)
}

/// The sine from one number of degrees to another, in units of 2⁻⁵⁶. Its width is at most a 57th of theirs, and 36
/// parts, unless they are three octants or more apart.
#[inline(always)]
pub(crate) fn sine_over_degrees(lo: i128, hi: i128) -> Span
    requires ordered { lo ≤ℤ hi }
    requires from { neg_ℤ (pos (2 ^ 120)) ≤ℤ lo }
    requires to { hi ≤ℤ pos (2 ^ 120) }
    ensures holds { (n : ℕ) → DEPTH ≤ n → sine_of_degrees n
        (between (units_of_56 lo) (units_of_56 hi)) ⊆ between (units_of_56 result.lo)
        (units_of_56 result.hi) }
    ensures narrow { ((pos 3 *ℤ pos OCTANT) ≤ℤ (hi -ℤ lo))
        ⊎ ((pos 57 *ℤ (result.hi -ℤ result.lo)) ≤ℤ ((hi -ℤ lo) +ℤ pos 2052)) }
    ensures small { (a : ℤ) → neg_ℤ a ≤ℤ lo → hi ≤ℤ a → a <ℤ pos OCTANT
        → IsAround (pos 0) a result.lo result.hi }
    ensures crest { (a : ℤ) → (QUARTER -ℤ a) ≤ℤ lo → hi ≤ℤ (QUARTER +ℤ a) → a <ℤ pos OCTANT
        → IsCrest a result.lo }
    ensures inside { (k : ℤ) → IsInside k lo hi → IsPart (octant_of_turn k)
        (unsigned_abs (lo -ℤ k *ℤ pos OCTANT)) (unsigned_abs (hi -ℤ k *ℤ pos OCTANT)) result.lo
        result.hi }
{
    let octant = octants_in(lo);
    let edge = octant * WIDE_OCTANT;
    if lo <= edge {
        return sine_over_edges(lo, hi);
    }
    if hi >= edge + WIDE_OCTANT {
        return sine_over_edges(lo, hi);
    }
    sine_within_octant(octant, lo, hi)
}
