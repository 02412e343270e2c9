//! The angles of which the terms of a new moon are made.

/// The mean anomalies of the sun and of the moon and the argument of the moon's latitude at a new moon, in degrees, and the
/// factor of the eccentricity of the earth's orbit.
#[derive(Clone, Copy, Drop)]
pub(crate) struct Angles<E> {
    pub(crate) sun_anomaly: E,
    pub(crate) moon_anomaly: E,
    pub(crate) latitude_argument: E,
    pub(crate) eccentricity: E,
}
