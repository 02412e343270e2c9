//! High halves of products.
ghost use Rattle.std.specs.Prelude.{◌≡◌, ◌*◌, ◌/◌, ◌^◌};

/// The high half of a product, in units of 2⁶⁴, rounded down.
#[inline(always)]
pub fn high_half(a: u64, b: u64) -> u64
    ensures value { result ≡ a * b / 2 ^ 64 }
{
    (u128::from(a) * u128::from(b) >> 64) as u64
}
