//! Arctangents, arcsines and arccosines of enclosures, in degrees.
ghost use Rattle.book_model.specs.programs.Calls.{Encloses1, Encloses2};
ghost use Rattle.std.specs.Prelude.{◌≡◌, ◌≤◌, ◌+◌, ◌*◌, ◌^◌, ℕ, ℤ, pos, IsTrue, false, neg_ℤ};
ghost use Rattle.std.specs.Int.{int_min, int_max};
ghost use Rattle.encl_core.specs.parts.TheConstants.{HALF_TURN};
ghost use Rattle.book_model.specs.Interval.{Interval, everything, ◌⊆◌};
ghost use Rattle.book_model.specs.numbers.Arcs.{all_around};
ghost use Rattle.book_model.specs.numbers.Bounds.{is_scale};
ghost use Rattle.book_model.specs.numbers.Expressions.{arctangent, arcsine, arccosine, arctangent_of_two};
ghost use Rattle.book_model.specs.programs.Widths.{IsAbout, IsWithin};
ghost use Rattle.encl_core.specs.declared.greatest_widths.TheConstants.{ARCTANGENT_OF_TWO};
ghost use Rattle.encl_core.specs.GreatestWidths.{greatest_of};
ghost use Rattle.arc_series.specs.Forms.{half_tangent_of, has_sign};
ghost use Rattle.arc_series.specs.Widths.{IsRateFrom, slow_width};

use crate::pieces::arctan_over;
use encl_core::parts::HALF_TURN;
use encl_core::{Enclosure, Span};

/// The arctangent in degrees.
///
/// It is taken over the closed pieces of the line that the enclosure meets, by the series of a number from -1/2 to 1/2 at
/// both endpoints of each part. Source: Reingold and Dershowitz, Calendrical Calculations, chapter 14.
pub fn arctan_deg<E: Enclosure>(x: E) -> E
    ensures encloses { Encloses1 E.shown E.BITS arctangent x result }
    ensures slow { (low : ℤ) (p s w : ℕ) → E.BITS ≡ 56 → IsRateFrom s p
        → IsWithin low (neg_ℤ (pos p)) w (E.shown x)
        → IsAbout (91 * 2 ^ 32) (slow_width s w) (E.shown result) }
{
    match x.span() {
        Some(span) => match arctan_over(span) {
            Some(arc) => E::from_span(arc),
            None => E::whole(),
        },
        // The arctangent of everything is everything; an arcsine's argument is cut to -1..1 first,
        // and so is never everything.
        None => E::whole(),
    }
}

// The bound of an arcsine is computed by these same steps, so that it needs no law of its own. It
// is up to 61.5 times the size of the argument, where 60 would be exact at 1/2.
/// The tangent of half the arcsine of what is cut to -1..1.
#[tactic(auto, unfolding(crate::specs::Forms::half_tangent_of))]
fn half_tangent<E: Enclosure>(x: E) -> E
    ensures encloses { Encloses1 E.shown E.BITS half_tangent_of x result }
{
    let sine = x.clamp_unit();
    let one = E::from_int(1);
    let cosine = one.sub(sine.square()).root();
    sine.div(one.add(cosine))
}

/// The arcsine in degrees, of what is cut to -1..1 first: twice the arctangent of x / (1 + √(1 - x²)). Source: Reingold and
/// Dershowitz, Calendrical Calculations, chapter 14.
pub fn arcsin_deg<E: Enclosure>(x: E) -> E
    ensures encloses { Encloses1 E.shown E.BITS arcsine x result }
{
    arctan_deg(half_tangent(x)).times(2)
}

/// The arccosine in degrees: 90 less the arcsine. Source: Reingold and Dershowitz, Calendrical Calculations, chapter 14.
pub fn arccos_deg<E: Enclosure>(x: E) -> E
    ensures encloses { Encloses1 E.shown E.BITS arccosine x result }
{
    E::from_int(90).sub(arcsin_deg(x))
}

/// From -180 to 180 degrees.
fn half_turn_both_ways<E: Enclosure>() -> E
    ensures holds { all_around ⊆ E.shown result }
    ensures inside { IsTrue (is_scale E.BITS) → E.shown result ⊆ all_around }
{
    E::from_span(Span {
        lo: -HALF_TURN,
        hi: HALF_TURN,
    })
}

/// An endpoint, moved into -180..180 degrees.
fn end_around(end: i128) -> i128
    ensures value { result ≡ int_max (int_min end HALF_TURN) (neg_ℤ HALF_TURN) }
{
    end.min(HALF_TURN).max(-HALF_TURN)
}

// By its endpoints; at a scale of which nothing is promised nothing is said of its size.
/// What an enclosure has of -180..180 degrees, by endpoints that are moved there; all of it, where nothing is known.
fn kept_around<E: Enclosure>(x: E) -> E
    ensures holds { (i : Interval) → i ⊆ E.shown x → i ⊆ all_around → i ⊆ E.shown result }
    ensures all { everything ⊆ E.shown x → all_around ⊆ E.shown result }
    ensures inside { IsTrue (is_scale E.BITS) → E.shown result ⊆ all_around }
    ensures narrow { (high : ℤ) (v : ℕ) → E.BITS ≡ 56 → IsWithin (pos (90 * 2 ^ 32)) high v
        (E.shown x) → IsWithin (pos (90 * 2 ^ 32)) (pos (180 * 2 ^ 32)) (v + 2 ^ 9)
        (E.shown result) }
{
    match x.span() {
        Some(span) => E::from_span(Span {
            lo: end_around(span.lo),
            hi: end_around(span.hi),
        }),
        None => half_turn_both_ways(),
    }
}

/// The angle in degrees of the direction that goes y up and x to the right: 90 - arctan (x / y) where y is positive,
/// -90 - arctan (x / y) where it is negative. It lies in -180..180, and is all of this where y has no sure sign. Of x from -2 to
/// -1/2 and y from 1/16 to 2 it is at most 230 times as wide as the wider of them, and 2⁻⁴⁴ degrees. Source: Reingold and
/// Dershowitz, Calendrical Calculations, chapter 14.
pub fn arctan2_deg<E: Enclosure>(y: E, x: E) -> E
    ensures encloses { Encloses2 E.shown E.BITS arctangent_of_two y x result }
    ensures inside { IsTrue (is_scale E.BITS) → E.shown result ⊆ all_around }
    ensures unsure { has_sign (E.shown y) ≡ false → all_around ⊆ E.shown result }
    ensures measured { (v : ℕ) → E.BITS ≡ 56 → v ≤ 2 ^ 44
        → IsWithin (pos (2 ^ 28)) (pos (2 * 2 ^ 32)) v (E.shown y)
        → IsWithin (neg_ℤ (pos (2 * 2 ^ 32))) (neg_ℤ (pos (2 ^ 31))) v (E.shown x)
        → IsWithin (pos (90 * 2 ^ 32)) (pos (180 * 2 ^ 32)) (greatest_of ARCTANGENT_OF_TWO v)
        (E.shown result) }
{
    let Some(span) = y.span() else {
        return half_turn_both_ways();
    };
    if span.lo > 0 {
        return kept_around(E::from_int(90).sub(arctan_deg(x.div(y))));
    }
    if span.hi < 0 {
        return kept_around(E::from_int(-90).sub(arctan_deg(x.div(y))));
    }
    half_turn_both_ways()
}
