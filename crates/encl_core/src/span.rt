//! The endpoints of an enclosure at one scale for all kinds.
ghost use Rattle.std.specs.Prelude.{◌≤ℤ◌};

/// Two endpoints in order, in units of 2⁻⁵⁶.
#[derive(Clone, Copy, Debug, PartialEq)]
pub struct Span {
    pub lo: i128,
    pub hi: i128,
    ghost ordered: { lo ≤ℤ hi },
}
