//! Arctangents over the closed pieces of the line. All numbers and degrees are in units of 2⁻⁵⁶.
ghost use Rattle.std.specs.Prelude.{◌≡◌, ℕ, ◌≤◌, ◌+◌, pos, neg_ℤ, ◌≤ℤ◌, ℤ, List, [], ◌∷◌, ◌++◌, IfSome};
ghost use Rattle.book_model.specs.Fraction.{Fraction, ◌≈◌, opposite as opposite_of};
ghost use Rattle.book_model.specs.Interval.{Interval, between, ◌⊆◌};
ghost use Rattle.book_model.specs.numbers.Arcs.{arcs_over, arctangent_of, arc_near, arc_above, arc_beyond};
ghost use Rattle.book_model.specs.programs.Leading.{units_of_56};
ghost use Rattle.book_model.specs.numbers.Depth.{DEPTH};
ghost use Rattle.encl_core.specs.parts.TheConstants.{HALF, THREE};
ghost use Rattle.arc_series.specs.Forms.{piece_of, of_span, AreHeld, begin_56, end_56};
ghost use Rattle.arc_series.specs.Kernel.{IsSmall};
ghost use Rattle.arc_series.specs.Widths.{IsThin, Edge, first_edge, last_edge, Reaches, AreOver};

use crate::kernel::arc_of_number_64;
use crate::quotients::quotient_64;
use crate::spans::{hull, less, more, opposite};
use encl_core::Span;
use encl_core::parts::{HALF, NATURAL_ONE, QUARTER, THREE, WIDE_OCTANT};

// A list of five, in the definition too, with one hull over those that an interval meets; octants
// have no end, and so are a range of numbers.
/// A closed piece of the line: up to -3, from there to -1/2, to 1/2, to 3, and from 3 on.
#[derive(Clone, Copy)]
pub(crate) enum Piece {
    FarBelow,
    Below,
    Near,
    Above,
    FarAbove,
}

// From 1/2 on the series is taken of one quotient; up to 1/2 of the number itself, which so is
// exact.
/// The arctangent of a number from 0 to 1/2.
#[inline(always)]
fn near(number: u64) -> Span
    requires half { pos number ≤ℤ HALF }
    ensures holds { (n : ℕ) (x : Fraction) → DEPTH ≤ n → x ≈ units_of_56 (pos number)
        → arc_near n x ⊆ of_span result }
    ensures mirrored { (n : ℕ) (x : Fraction) → DEPTH ≤ n → 1 ≤ number
        → opposite_of x ≈ units_of_56 (pos number)
        → arc_near n x ⊆ between (units_of_56 (neg_ℤ result.hi)) (units_of_56 (neg_ℤ result.lo)) }
    ensures room { IsSmall result.lo result.hi }
    ensures thin { IsThin result.lo result.hi }
{
    arc_of_number_64(number * 256)
}

/// The arctangent of a number from 1/2 to 3: 45 degrees more than that of (x - 1) / (x + 1).
#[inline(always)]
fn above(number: u64) -> Span
    requires from { HALF ≤ℤ pos number }
    requires to { pos number ≤ℤ THREE }
    ensures holds { (n : ℕ) (x : Fraction) → DEPTH ≤ n → x ≈ units_of_56 (pos number)
        → arc_above n x ⊆ of_span result }
    ensures room { IsSmall result.lo result.hi }
    ensures thin { IsThin result.lo result.hi }
{
    let sum = u128::from(NATURAL_ONE + number);
    if number < NATURAL_ONE {
        return less(
            WIDE_OCTANT,
            arc_of_number_64(quotient_64(NATURAL_ONE - number, sum)),
        );
    }
    more(
        WIDE_OCTANT,
        arc_of_number_64(quotient_64(number - NATURAL_ONE, sum)),
    )
}

/// The arctangent of a number from 3 on: 90 degrees less that of 1 / x.
#[inline(always)]
fn beyond(number: u128) -> Span
    requires from { THREE ≤ℤ pos number }
    ensures holds { (n : ℕ) (x : Fraction) → DEPTH ≤ n → x ≈ units_of_56 (pos number)
        → arc_beyond n x ⊆ of_span result }
    ensures room { IsSmall result.lo result.hi }
    ensures thin { IsThin result.lo result.hi }
{
    less(QUARTER, arc_of_number_64(quotient_64(NATURAL_ONE, number)))
}

/// The arctangent of a number from -1/2 to 1/2.
fn near_zero(number: i128) -> Span
    requires from { neg_ℤ HALF ≤ℤ number }
    requires to { number ≤ℤ HALF }
    ensures holds { (n : ℕ) (x : Fraction) → DEPTH ≤ n → x ≈ units_of_56 number → arc_near n x
        ⊆ of_span result }
    ensures thin { IsThin result.lo result.hi }
{
    let size = number.unsigned_abs() as u64;
    if number < 0 {
        return opposite(near(size));
    }
    near(size)
}

/// The arctangent of a number in a piece; in a negative one it is the opposite of that of the opposite.
fn arc(piece: Piece, number: i128) -> Span
    requires from { begin_56 piece ≤ℤ number }
    requires to { number ≤ℤ end_56 piece }
    ensures holds { (n : ℕ) (x : Fraction) → DEPTH ≤ n → x ≈ units_of_56 number
        → (piece_of piece).arc n x ⊆ of_span result }
    ensures thin { IsThin result.lo result.hi }
{
    match piece {
        Piece::FarBelow => opposite(beyond(number.unsigned_abs())),
        Piece::Below => opposite(above(number.unsigned_abs() as u64)),
        Piece::Near => near_zero(number),
        Piece::Above => above(number.unsigned_abs() as u64),
        Piece::FarAbove => beyond(number.unsigned_abs()),
    }
}

/// Where a piece begins.
fn begin_of(piece: Piece) -> i128
    ensures value { result ≡ begin_56 piece }
{
    match piece {
        // It begins nowhere in the definition; no number of 128 bits lies below this one.
        Piece::FarBelow => i128::MIN,
        Piece::Below => -THREE,
        Piece::Near => -HALF,
        Piece::Above => HALF,
        Piece::FarAbove => THREE,
    }
}

/// Where a piece ends.
fn end_of(piece: Piece) -> i128
    ensures value { result ≡ end_56 piece }
{
    match piece {
        Piece::FarBelow => -THREE,
        Piece::Below => -HALF,
        Piece::Near => HALF,
        Piece::Above => THREE,
        Piece::FarAbove => i128::MAX,
    }
}

/// The arctangents at both endpoints of what two endpoints have in common with a piece, if there is such a part.
fn arc_over(piece: Piece, lo: i128, hi: i128) -> Option<Span>
    requires ordered { lo ≤ℤ hi }
    ensures holds { (n : ℕ) → DEPTH ≤ n → AreHeld of_span
        (arcs_over n (units_of_56 lo) (units_of_56 hi) (piece_of piece ∷ [])) result }
    ensures narrow { Reaches (first_edge piece) (last_edge piece) 80 lo hi result }
{
    let begin = begin_of(piece);
    let end = end_of(piece);
    if begin > hi {
        return None;
    }
    if lo > end {
        return None;
    }
    let low = arc(piece, begin.max(lo));
    let high = arc(piece, end.min(hi));
    Some(hull(low, high))
}

// `match` in `match`: a `match` on a pair of options gets no generated proof.
/// The hull of what there is.
fn hull_of_spans(x: Option<Span>, y: Option<Span>) -> Option<Span>
    ensures holds { (is js : List Interval) → AreHeld of_span is x → AreHeld of_span js y
        → AreHeld of_span (is ++ js) result }
    ensures narrow { (first edge last : Edge) (j k : ℕ) (lo hi : ℤ) → lo ≤ℤ hi
        → first.place ≤ℤ edge.place → edge.place ≤ℤ last.place → Reaches first edge j lo hi x
        → Reaches edge last k lo hi y → Reaches first last (j + k + 40) lo hi result }
{
    match x {
        Some(first) => match y {
            Some(second) => Some(hull(first, second)),
            None => Some(first),
        },
        None => y,
    }
}

/// The arctangent over two endpoints: the hull over the pieces that they meet. They meet one.
pub(crate) fn arctan_over(span: Span) -> Option<Span>
    ensures holds { IfSome result (λ arc. (n : ℕ) → DEPTH ≤ n → arctangent_of n
        (between (units_of_56 span.lo) (units_of_56 span.hi)) ⊆ of_span arc) }
    ensures narrow { AreOver span.lo span.hi result }
{
    let positive = hull_of_spans(
        arc_over(Piece::Above, span.lo, span.hi),
        arc_over(Piece::FarAbove, span.lo, span.hi),
    );
    let later = hull_of_spans(arc_over(Piece::Near, span.lo, span.hi), positive);
    let most = hull_of_spans(arc_over(Piece::Below, span.lo, span.hi), later);
    hull_of_spans(arc_over(Piece::FarBelow, span.lo, span.hi), most)
}
