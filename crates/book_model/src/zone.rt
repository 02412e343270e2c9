//! Zones of time: the hours by which the time of a place is ahead of universal time.
use crate::Frac;

// Zones are data in the rows of places: a zone more is a row, and no code.
/// A day (R.D.) on which the time of a place changes, and the hours by which it is ahead of universal time before that day.
#[derive(Clone, Copy)]
pub struct ZoneStep {
    pub before: i64,
    pub hours: Frac,
}
