//! Why a formula has no answer.
ghost use Rattle.std.specs.Prelude.{◌≡◌};
ghost use Rattle.book_model.specs.declared.fail.Fail.TheVariants.{Undecided as undecided_fail};

use crate::Site;

/// The test that an enclosure leaves undecided: its number in the run, from 1, its site, and the bounds of
/// its sides, in units of 2⁻⁵⁶. For an enclosure of every number, and for a floor outside 64 bits, the
/// bounds are the least and the greatest `i128`.
#[derive(Clone, Copy, Debug, PartialEq, Eq)]
pub struct Undecided {
    pub turn: u32,
    pub site: Site,
    pub lo: i128,
    pub hi: i128,
}

// It stands here and not with the enclosures, since the relation between a call's result and its
// program (`Leads`) speaks of it.
/// Why a formula has no answer: a test is undecided, or the formula has no value there.
#[derive(Clone, Copy, Debug, PartialEq, Eq)]
pub enum Fail {
    Undecided(Undecided),
    Void(Site),
}

impl From<Undecided> for Fail {
    ghost from_gives = { λ u f. f ≡ undecided_fail u };

    fn from(at: Undecided) -> Self {
        Fail::Undecided(at)
    }
}
