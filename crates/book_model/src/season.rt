//! Seasons: where the sun stands as they begin, and how a search tells that they have begun.

/// A side of a longitude, in degrees.
#[derive(Clone, Copy)]
pub enum Side {
    // The rule asks 2 < longitude: that is the test made, and its answer is turned round, so that
    // an undecided line prints the sides of that comparison.
    /// The longitudes from 0 up to it.
    UpTo(i64),
    /// Those past it.
    Past(i64),
    // The rule asks whether the longitude is less: that is the test made. `Past` would ask the
    // other way round, which is another test where the two are equal.
    /// It and those past it.
    From(i64),
}

// All seasons are one search: it sets out before the estimated passage, and ends with the first day
// at whose moment the sun stands on the side.
/// A season: the longitude of the sun, in degrees, at which it begins, and the side on which the sun stands from then on, in a
/// search by days that sets out before it.
#[derive(Clone, Copy)]
pub struct Season {
    pub longitude: i64,
    pub side: Side,
}
