//! The interval of time over which a bisection learns the linear model of its angle. Nothing rests on it but how soon iterations
//! are decided.

use crate::Angular;
use book_model::{Fail, Site, Undecided};
use encl_core::parts::TURN;
use encl_core::{Enclosure, Span};

/// What is left of the bounds of an undecided test by whole turns, so that their middle is about 0: at `sun-wrap` and
/// `phase-wrap` they are an angle itself, which near 0 and near 360 is as far from an angle that is passed as from 0.
fn about_none<E: Enclosure>(at: &Undecided) -> Option<E> {
    let middle = at.lo.checked_add(at.hi)? / 2;
    let turns = middle.checked_add(TURN / 2)?.div_euclid(TURN);
    let off = turns.checked_mul(TURN)?;
    let lo = at.lo.checked_sub(off)?;
    let hi = at.hi.checked_sub(off)?;
    if hi < lo {
        return None;
    }
    Some(E::from_span(Span { lo, hi }))
}

/// By how many degrees an angle may be past another, where a test of the two was left undecided. The bounds of a test at `year`
/// are days, and no degrees.
fn degrees_past<E: Enclosure>(fail: Fail) -> Option<E> {
    match fail {
        Fail::Undecided(at) if at.site != Site::Year => about_none(&at),
        _ => None,
    }
}

/// An interval of time that holds a moment, and the one at which an angle passes another, if a test of the two at this moment was
/// left undecided by so many degrees.
pub(crate) fn stretch_by<E: Enclosure, F: Angular<E>>(f: &F, x: E, fail: Fail) -> Option<E> {
    let past = degrees_past::<E>(fail)?;
    Some(x.sub(f.time_of(past)).hull(x))
}
