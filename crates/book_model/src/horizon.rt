//! Locations from which the horizon is looked at, and the two times of a day at which the sun stands low.
use crate::Frac;

/// A location on the ground: its latitude north and its longitude east, in degrees, and its height above the sea, in metres.
#[derive(Clone, Copy)]
pub struct Location {
    pub latitude: Frac,
    pub longitude: Frac,
    pub height: u16,
}

/// When the sun stands so many degrees below the horizon: before it rises, or after it has set.
#[derive(Clone, Copy)]
pub enum Twilight {
    Dawn,
    Dusk,
}
