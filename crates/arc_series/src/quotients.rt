//! Quotients in 64 bits.
ghost use Rattle.std.specs.Prelude.{◌≤◌, ◌*◌, ◌^◌, pos};
ghost use Rattle.book_model.specs.Fraction.{Fraction, ◌≈◌, whole, times};
ghost use Rattle.arc_series.specs.Kernel.{IsNumber};

/// One, in parts of 2⁻⁶⁴.
const ONE_64: u128 = 1 << 64;

// Rounded down only; the kernel takes a number that is known to one part.
/// A number over a divisor, which is at most a half, in parts of 2⁻⁶⁴, rounded down.
#[inline(always)]
pub(crate) fn quotient_64(number: u64, divisor: u128) -> u64
    requires there { 1 ≤ divisor }
    requires half { 2 * number ≤ divisor }
    ensures near { (x : Fraction) → times x (whole (pos divisor)) ≈ whole (pos number)
        → IsNumber result x }
    ensures half { result ≤ 2 ^ 63 }
    ensures some { divisor ≤ number * 2 ^ 64 → 1 ≤ result }
{
    (u128::from(number) * ONE_64 / divisor) as u64
}
