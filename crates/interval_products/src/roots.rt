//! Roots of endpoints, rounded outwards.
//!
//! Roots are whole numbers in the definition too: the greatest whose square is at most a number. What a root keeps of a
//! width is squared on both sides, so that no root stands in the table of widths.
ghost use Rattle.std.specs.Prelude.{ℕ, ◌≤◌};
ghost use Rattle.book_model.specs.Interval.{◌⊆◌};
ghost use Rattle.book_model.specs.numbers.Roots.{root_of};
ghost use Rattle.book_model.specs.numbers.Bounds.{Bound, IsNarrow, root_bound};
ghost use Rattle.book_model.specs.numbers.Depth.{DEPTH};
ghost use Rattle.interval_endpoints.specs.Scales.{limits_on};
ghost use Rattle.interval_endpoints.specs.Shown.{shown_endpoints};
ghost use Rattle.interval_products.specs.Room.{HasRoot};
ghost use Rattle.interval_products.specs.Close.{IsCloseRoot, OfOne, ThereOfOne};

use crate::word::RoundingWord;
use interval_endpoints::{Endpoints, endpoints_of};

/// The endpoints around the roots.
#[inline]
pub fn root_endpoints<I: RoundingWord>(x: Option<Endpoints<I>>) -> Option<Endpoints<I>>
    ensures holds { (n : ℕ) → DEPTH ≤ n → root_of n (shown_endpoints x) ⊆ shown_endpoints result }
    ensures narrow { (w : ℕ) (a : Bound) → IsNarrow w a (shown_endpoints x)
        → IsNarrow w (root_bound (limits_on I.scale) a) (shown_endpoints result) }
    ensures close { OfOne (IsCloseRoot I.scale) x result }
    ensures some { ThereOfOne (λ lo hi. HasRoot I.scale hi) x result }
{
    let x = x?;
    let lo = x.lo.root_down()?;
    let hi = x.hi.root_up()?;
    endpoints_of(lo, hi)
}
