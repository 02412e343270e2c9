//! The formulas of a moment, by their names.
use super::measures::{fraction, holds, holds_by};
use book_model::{Fail as FormulaFail, Frac};
use encl_core::{Enclosure, Trail};
use moon_core::{latitude, moon, moon_before, moon_from, phase, phase_before};
use moon_rise::distance;
use std::process::Abort;
use sun_core::{
    equation_of_time, estimate, from_apparent, obliquity, precession, sidereal_sun, sun, sun_from,
};
use time_scales::{centuries, dynamical, from_dynamical, sidereal, zone_beijing};

/// A formula of a moment, with the other numbers that it takes.
#[derive(Clone, Copy, Debug)]
pub enum Formula {
    Dynamical,
    FromDynamical,
    Centuries,
    Sidereal,
    ZoneBeijing,
    Sun,
    /// The obliquity after so many centuries.
    Obliquity,
    /// The obliquity at a moment.
    ObliquityAt,
    EquationOfTime,
    /// Local time by apparent time, at the longitude that a fraction tells.
    FromApparent(i128, u64),
    /// When the sun was last at a longitude, nearly.
    Estimate(i64),
    /// When the sun is next at a longitude.
    SunFrom(i64),
    Precession,
    SiderealSun,
    Moon,
    Phase,
    Latitude,
    MoonBefore,
    MoonFrom,
    /// When the moon was last at a phase.
    PhaseBefore(i64),
    Distance,
}

/// The result of a formula.
pub fn value<E: Enclosure>(formula: Formula, t: E, trail: &mut Trail) -> Result<E, FormulaFail> {
    match formula {
        Formula::Dynamical => dynamical(t, trail),
        Formula::FromDynamical => from_dynamical(t, trail),
        Formula::Centuries => centuries(t, trail),
        Formula::Sidereal => sidereal(t, trail),
        Formula::ZoneBeijing => zone_beijing(t, trail),
        Formula::Sun => sun(t, trail),
        Formula::Obliquity => obliquity(t, trail),
        Formula::ObliquityAt => obliquity(centuries(t, trail)?, trail),
        Formula::EquationOfTime => equation_of_time(t, trail),
        Formula::FromApparent(num, den) => match Frac::new(num, den) {
            Some(longitude) => from_apparent(longitude, t, trail),
            None => Ok(E::whole()),
        },
        Formula::Estimate(degrees) => estimate(E::from_int(degrees), t, trail),
        Formula::SunFrom(degrees) => sun_from(E::from_int(degrees), t, trail),
        Formula::Precession => precession(t, trail),
        Formula::SiderealSun => sidereal_sun(t, trail),
        Formula::Moon => moon(t, trail),
        Formula::Phase => phase(t, trail),
        Formula::Latitude => latitude(t, trail),
        Formula::MoonBefore => moon_before(t, trail),
        Formula::MoonFrom => moon_from(t, trail),
        Formula::PhaseBefore(degrees) => phase_before(E::from_int(degrees), t, trail),
        Formula::Distance => distance(t, trail),
    }
}

/// The result of a formula at a moment that is a fraction, and how many tests it makes.
pub fn counted<E: Enclosure>(
    formula: Formula,
    num: i128,
    den: u64,
) -> (Result<E, FormulaFail>, u32) {
    let mut trail = Trail::new();
    let found = value(formula, fraction(num, den), &mut trail);
    (found, trail.count())
}

/// Asserts the results of formulas over `Coarse`: each row has a formula, a moment (R.D.) as a fraction, the value there as its floor
/// at 2⁻⁵⁶, how many units the answer is wide at most, and how many tests it makes.
pub fn assert_values(rt: &impl Abort, rows: &[(Formula, i128, u64, i128, i128, u32)]) {
    for (formula, num, den, there, units, tests) in rows {
        let found = counted(*formula, *num, *den);
        assert!(rt;
            holds_by(found, *there, *units, *tests),
            "{formula:?} at {num} / {den}"
        );
    }
}

/// Asserts the same of answers that are all so many units wide at most, and make any number of tests.
pub fn assert_moments(rt: &impl Abort, rows: &[(Formula, i128, u64, i128)], units: i128) {
    for (formula, num, den, there) in rows {
        let (found, _) = counted(*formula, *num, *den);
        assert!(rt; holds(found, *there, units), "{formula:?} at {num} / {den}");
    }
}
