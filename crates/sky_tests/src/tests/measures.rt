//! How close an enclosure is to an expected value; the first days of years.
use book_model::{Fail as FormulaFail, Frac, Site};
use encl_core::{Coarse, Enclosure, Trail};

/// A unit of `Coarse`, in units of 2⁻⁵⁶.
pub const UNIT: i128 = 1_048_576;

/// An enclosure of a fraction; of every number, where the denominator is 0.
pub fn fraction<E: Enclosure>(num: i128, den: u64) -> E {
    match Frac::new(num, den) {
        Some(value) => E::from_frac(value),
        None => E::whole(),
    }
}

/// What lies between two whole numbers; every number, where the first is above the second.
pub fn from_to(endpoints: (i64, i64)) -> Coarse {
    let (low, high) = endpoints;
    if high < low {
        Coarse::whole()
    } else {
        Coarse::from_int(low).hull(Coarse::from_int(high))
    }
}

/// Whether an enclosure holds a number, given as its floor at 2⁻⁵⁶, and is at most so wide, in 2⁻⁵⁶.
pub fn is_within<E: Enclosure>(found: E, value: i128, most: i128) -> bool {
    match found.span() {
        Some(span) => span.lo <= value
            && value <= span.hi
            && span.hi.saturating_sub(span.lo) <= most,
        None => false,
    }
}

/// The same by units of `Coarse`.
pub fn is_near(found: Coarse, value: i128, units: i128) -> bool {
    is_within(found, value, units.saturating_mul(UNIT))
}

/// Whether a call that may fail has an answer that holds a number and is at most so wide, in 2⁻⁵⁶.
pub fn is_fine<E: Enclosure>(found: Result<E, FormulaFail>, value: i128, most: i128) -> bool {
    match found {
        Ok(found) => is_within(found, value, most),
        Err(_) => false,
    }
}

/// The same by units of `Coarse`.
pub fn holds(found: Result<Coarse, FormulaFail>, value: i128, units: i128) -> bool {
    match found {
        Ok(found) => is_near(found, value, units),
        Err(_) => false,
    }
}

/// The same of a call that makes so many tests.
pub fn holds_by(
    found: (Result<Coarse, FormulaFail>, u32),
    value: i128,
    units: i128,
    tests: u32,
) -> bool {
    found.1 == tests && holds(found.0, value, units)
}

/// Whether a call has a whole number for its answer, and makes so many tests.
pub fn is_counted(found: Result<i64, FormulaFail>, trail: &Trail, answer: i64, tests: u32) -> bool {
    match found {
        Ok(found) => found == answer && trail.count() == tests,
        Err(_) => false,
    }
}

/// Whether a call fails at a site: by the test of a number, which is undecided; or, where that is 0, since it has no value.
pub fn fails_at<E: Enclosure>(found: Result<E, FormulaFail>, turn: u32, site: Site) -> bool {
    match found {
        Ok(_) => false,
        Err(FormulaFail::Undecided(at)) => at.turn == turn && at.site.number() == site.number(),
        Err(FormulaFail::Void(at)) => turn == 0 && at.number() == site.number(),
    }
}

/// 1 January of a year from 1 on (R.D.).
pub fn new_year(year: i64) -> i64 {
    let before = year.saturating_sub(1);
    let leap_days = (before / 4)
        .saturating_sub(before / 100)
        .saturating_add(before / 400);
    before
        .saturating_mul(365)
        .saturating_add(leap_days)
        .saturating_add(1)
}
