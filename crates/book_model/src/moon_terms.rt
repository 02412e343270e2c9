//! The shapes in which tables give the terms of the moon's formulas.

/// A term of the moon's longitude and distance: the multiples of its elongation, of the sun's and of its own anomaly and
/// of its argument of latitude, and the sizes in millionths of a degree and in metres.
#[derive(Clone, Copy)]
pub struct MoonTerm {
    pub elongation: i64,
    pub sun_anomaly: i64,
    pub moon_anomaly: i64,
    pub latitude_argument: i64,
    pub longitude: i64,
    pub distance: i64,
}

// A table of its own; the value of a term, of the longitude or of the latitude, is one function of the multiples and the
// size.
/// A term of the moon's latitude: the multiples of its elongation, of the sun's and of its own anomaly and of its argument of
/// latitude, and the size in millionths of a degree.
#[derive(Clone, Copy)]
pub struct LatitudeTerm {
    pub elongation: i64,
    pub sun_anomaly: i64,
    pub moon_anomaly: i64,
    pub latitude_argument: i64,
    pub latitude: i64,
}

/// A term of a new moon: the power of the eccentricity's factor, the multiples of the anomalies of the sun and of the moon
/// and of the argument of latitude, and the size in hundred-thousandths of a day.
#[derive(Clone, Copy)]
pub struct NewMoonTerm {
    pub eccentricity: u64,
    pub sun_anomaly: i64,
    pub moon_anomaly: i64,
    pub latitude_argument: i64,
    pub size: i64,
}

/// A term of a new moon that goes by its number: the phase in hundredths of a degree, the rate a month in millionths of a
/// degree, and the size in millionths of a day.
#[derive(Clone, Copy)]
pub struct PlanetTerm {
    pub phase: i64,
    pub rate: i64,
    pub size: i64,
}
