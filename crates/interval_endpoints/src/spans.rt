//! Endpoints in units of 2⁻⁵⁶, and those in units of a word's scale, from one another.
ghost use Rattle.std.specs.Prelude.{◌≡◌, ℕ, ◌≤ℤ◌, IfSome, IsNone};
ghost use Rattle.book_model.specs.Interval.{◌⊆◌, between, everything};
ghost use Rattle.book_model.specs.numbers.Bounds.{Bound, IsNarrow, spanned_bound};
ghost use Rattle.book_model.specs.programs.Leading.{units_of_56};
ghost use Rattle.interval_endpoints.specs.Scales.{limits_on};
ghost use Rattle.interval_endpoints.specs.Shown.{shown_endpoints};

use crate::endpoints::Endpoints;
use crate::sums::endpoints_of;
use crate::word::MachineWord;

/// The endpoints around those in units of 2⁻⁵⁶.
#[inline(always)]
pub fn endpoints_of_span<I: MachineWord>(lo: i128, hi: i128) -> Option<Endpoints<I>>
    requires { lo ≤ℤ hi }
    ensures holds { between (units_of_56 lo) (units_of_56 hi) ⊆ shown_endpoints result }
    ensures narrow { (w : ℕ) (b : Bound) → IsNarrow w b (between (units_of_56 lo) (units_of_56 hi))
        → IsNarrow w (spanned_bound (limits_on I.scale) b) (shown_endpoints result) }
{
    let down = I::floor_of_fine(lo);
    let up = I::ceil_of_fine(hi);
    endpoints_of(down, up)
}

/// The endpoints, in units of 2⁻⁵⁶.
#[inline]
pub fn endpoints_at_fine_scale<I: MachineWord>(
    endpoints: Option<Endpoints<I>>,
) -> Option<(i128, i128)>
    ensures ordered { IfSome result (λ s. s.0 ≤ℤ s.1) }
    ensures holds { IfSome result (λ s. shown_endpoints endpoints ⊆ between (units_of_56 s.0)
        (units_of_56 s.1)) }
    ensures tight { IfSome result (λ s. between (units_of_56 s.0) (units_of_56 s.1)
        ⊆ shown_endpoints endpoints) }
    ensures none { IsNone result → shown_endpoints endpoints ≡ everything }
{
    let e = endpoints?;
    Some((e.lo.at_fine_scale(), e.hi.at_fine_scale()))
}
