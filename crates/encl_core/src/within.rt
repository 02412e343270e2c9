//! Whether an enclosure lies within another.
ghost use Rattle.std.specs.Prelude.{◌≡◌, IsTrue};
ghost use Rattle.book_model.specs.Interval.{◌⊆◌};
ghost use Rattle.encl_core.specs.Kept.{shown_span};

use crate::{Enclosure, Span};

/// Whether two endpoints lie between two others.
#[tactic(auto, using(crate::proofs::Between::span_within))]
fn are_between(inner: Span, outer: Span) -> bool
    ensures within { IsTrue result → shown_span inner ⊆ shown_span outer }
{
    outer.lo <= inner.lo && inner.hi <= outer.hi
}

/// Whether two endpoints lie within an enclosure.
#[tactic(auto, using(crate::proofs::Between::then_within, crate::proofs::Between::within_all))]
fn endpoints_within<E: Enclosure>(inner: Span, outer: E) -> bool
    ensures within { IsTrue result → shown_span inner ⊆ E.shown outer }
{
    match outer.span() {
        Some(endpoints) => are_between(inner, endpoints),
        None => true,
    }
}

/// Whether an enclosure lies within another; not, where nothing is known of it.
#[tactic(auto, using(crate::proofs::Between::first_within))]
pub fn lies_within<E: Enclosure>(inner: E, outer: E) -> bool
    ensures within { IsTrue result → E.shown inner ⊆ E.shown outer }
{
    match inner.span() {
        Some(endpoints) => endpoints_within(endpoints, outer),
        None => false,
    }
}
