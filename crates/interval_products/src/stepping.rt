//! Quotients of numbers in units of 2⁻⁵⁶, in two steps: the whole quotient, and that of what it leaves.
ghost use Rattle.std.specs.Prelude.{pos, ◌^◌, ◌*ℤ◌, ◌<ℤ◌, IfSome, IsSome};
ghost use Rattle.interval_endpoints.specs.WholeRounding.{IsFloor, IsCeiling};
ghost use Rattle.interval_products.specs.Room.{HasFineQuotient, HasParts};

use interval_endpoints::parts::ONE;
use interval_endpoints::{ceil_div, floor_div};

// A dividend that can't be raised to the scale within 128 bits: the whole quotient, and that of
// what it leaves. So only the divisor has to be small, and the quotient itself.
/// The whole quotient of two numbers and what it leaves of the dividend, both raised to the scale. `None` only where the
/// divisor is above 2⁷⁰, or the quotient above 2⁶⁹ in size.
fn raised_parts(n: i128, d: i128) -> Option<(i128, i128)>
    requires { pos 0 <ℤ d }
    ensures value { IfSome result (λ p. HasParts n d p.0 p.1) }
    ensures some { HasFineQuotient n d → IsSome result }
{
    let whole = n.div_euclid(d).checked_mul(ONE)?;
    let rest = n.rem_euclid(d).checked_mul(ONE)?;
    Some((whole, rest))
}

/// The quotient, rounded down. `None` as `raised_parts`.
pub(crate) fn stepped_down(n: i128, d: i128) -> Option<i128>
    requires { pos 0 <ℤ d }
    ensures value { IfSome result (λ q. IsFloor q (n *ℤ pos (2 ^ 56)) d) }
    ensures some { HasFineQuotient n d → IsSome result }
{
    let (whole, rest) = raised_parts(n, d)?;
    whole.checked_add(floor_div(rest, d))
}

/// The same, rounded up.
pub(crate) fn stepped_up(n: i128, d: i128) -> Option<i128>
    requires { pos 0 <ℤ d }
    ensures value { IfSome result (λ q. IsCeiling q (n *ℤ pos (2 ^ 56)) d) }
    ensures some { HasFineQuotient n d → IsSome result }
{
    let (whole, rest) = raised_parts(n, d)?;
    whole.checked_add(ceil_div(rest, d))
}
