//! The sine at a binary angle, which counts parts of a turn.
//!
//! The angle goes through degrees: that costs a product, and lets the numbers and the lemmas of `trig_series` serve as they are. Nothing
//! branches on the octant, which from row to row of a table follows no pattern.
ghost use Rattle.std.specs.Prelude.{◌≡◌, ◌≤◌, ◌-◌, ◌%◌, pos, ◌<ℤ◌, ◌≤ℤ◌, ◌+ℤ◌, ◌-ℤ◌, ◌*ℤ◌};
ghost use Rattle.encl_core.specs.parts.TheConstants.{OCTANT};
ghost use Rattle.trig_series.specs.declared.waves.Wave.TheVariants.{Cosine, Sine};
ghost use Rattle.periodic_terms.specs.Turning.{HasPoint, octant_of, degrees_of};

use crate::units::{OctantDegrees56, Sine56, Turns64};
use encl_core::parts::OCTANT;
use trig_series::{Wave, wave_of_degrees_56};

/// An eighth of a turn, in 2⁻⁶⁴ turns.
const EIGHTH: u64 = 1 << 61;

/// How far an angle is into its octant, rounded down.
#[inline(always)]
fn degrees_into(turn: Turns64) -> OctantDegrees56
    ensures value { result.count ≡ degrees_of turn.0 }
{
    let rest = turn.0 - (turn.0 >> 61) * EIGHTH;
    // an octant has 45 degrees: 45 · 2⁵⁶ / 2⁶¹ is 45 / 2⁵
    OctantDegrees56 {
        count: (u128::from(rest) * 45 >> 5) as u64,
    }
}

/// A sine in units of 2⁻⁶⁴, rounded down to 2⁻⁵⁶.
#[inline(always)]
fn rounded_sine(sine: u64) -> Sine56
    ensures below { (result.count *ℤ pos 256) ≤ℤ pos sine }
    ensures close { pos sine <ℤ (result.count *ℤ pos 256 +ℤ pos 256) }
{
    Sine56 {
        count: (sine >> 8) as i64,
    }
}

/// How far an angle is from the nearest multiple of a quarter turn: what it is into an even octant, and what an odd one has left.
#[inline(always)]
fn degrees_from_quarter(octant: u64, degrees: OctantDegrees56) -> OctantDegrees56
    ensures even { octant % 2 ≡ 0 → result.count ≡ degrees.count }
    ensures odd { octant % 2 ≡ 1 → result.count ≡ OCTANT - degrees.count }
{
    let left = OCTANT - degrees.count;
    OctantDegrees56 {
        count: if octant % 2 == 1 { left } else { degrees.count },
    }
}

/// Which series the sine is in an octant of the first half turn: near a quarter turn, in the second and the third, the cosine of how far it
/// is from there.
#[inline(always)]
fn wave_in_half(octant: u64) -> Wave
    requires octant { octant ≤ 3 }
    ensures at_0 { octant ≡ 0 → result ≡ Sine }
    ensures at_1 { octant ≡ 1 → result ≡ Cosine }
    ensures at_2 { octant ≡ 2 → result ≡ Cosine }
    ensures at_3 { octant ≡ 3 → result ≡ Sine }
{
    if (octant + 1) / 2 == 1 {
        Wave::Cosine
    } else {
        Wave::Sine
    }
}

/// The sine at so many degrees into an octant of the first half turn, rounded down. The kernel is within 384 parts of 2⁻⁶⁴, a part and a
/// half of 2⁻⁵⁶; with the rounding that is less than three.
#[inline(always)]
fn sine_into_half(octant: u64, degrees: OctantDegrees56) -> Sine56
    requires octant { octant ≤ 3 }
    ensures near { HasPoint octant degrees.count (result.count -ℤ pos 3) (result.count +ℤ pos 3) }
{
    let near = degrees_from_quarter(octant, degrees);
    rounded_sine(wave_of_degrees_56(wave_in_half(octant), near.count))
}

/// The sine at a binary angle, within three parts of 2⁻⁵⁶. In the second half turn it is the opposite of that half a turn before.
#[inline(always)]
pub fn sine_at_turn(turn: Turns64) -> Sine56
    ensures near { HasPoint (octant_of turn.0) (degrees_of turn.0) (result.count -ℤ pos 3) (result.count +ℤ pos 3) }
{
    let octant = turn.0 >> 61;
    let sine = sine_into_half(octant % 4, degrees_into(turn));
    if octant >= 4 {
        return Sine56 { count: -sine.count };
    }
    sine
}
