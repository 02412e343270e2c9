//! The facts of the Hindu calendars: values of an independent implementation of the formulas, with the tests that they make.
use book_model::Fail as FormulaFail;
use day_facts::{
    calendar_year, sankranti, sign_after, sign_at_sunset, sign_before, solar_year, tithi,
};
use encl_core::{Coarse, Trail};
use moon_core::PhaseLinearModel;
use sun_core::SunLinearModel;

/// The values of a day (R.D.), in the order of the facts.
fn values(day: i64, trail: &mut Trail) -> Result<[i64; 7], FormulaFail> {
    // Of other days no value is asked.
    let day = day.clamp(620_729, 784_906);
    let phases = PhaseLinearModel::<Coarse>::usual();
    let model = SunLinearModel::<Coarse>::always();
    Ok([
        sign_at_sunset::<Coarse>(&model, day, trail)?,
        solar_year::<Coarse>(day, trail)?,
        sankranti::<Coarse>(&model, day, trail)?,
        tithi::<Coarse>(day, trail)?,
        sign_before::<Coarse>(&phases, day, trail)?,
        sign_after::<Coarse>(&phases, day, trail)?,
        calendar_year::<Coarse>(day, trail)?,
    ])
}

/// Days (R.D.), their values, and how many tests these make.
#[rattlefmt::skip]
const VALUES: [(i64, [i64; 7], u32); 9] = [
    (620_729, [3, 4801, 620_709, 15, 3, 4, 4801], 226),
    (621_278, [9, 4802, 621_258, 3, 9, 10, 4802], 264),
    (657_802, [9, 4902, 657_784, 27, 8, 9, 4902], 264),
    (693_961, [9, 5001, 693_944, 11, 9, 10, 5001], 245),
    (738_990, [1, 5125, 738_990, 6, 12, 1, 5125], 245),
    (739_085, [4, 5125, 739_083, 12, 3, 4, 5125], 245),
    (748_017, [9, 5149, 748_002, 26, 8, 9, 5149], 245),
    (784_541, [9, 5249, 784_527, 21, 8, 9, 5249], 245),
    (784_906, [9, 5250, 784_893, 1, 9, 10, 5250], 264),
];

/// Whether the values of a day are those, by so many tests.
fn is_told(day: i64, expected: [i64; 7], tests: u32) -> bool {
    let mut trail = Trail::new();
    match values(day, &mut trail) {
        Ok(found) => found == expected && trail.count() == tests,
        Err(_) => false,
    }
}

#[test]
fn values_are_those_of_the_reference(rt: HostRuntime) {
    for (day, expected, tests) in VALUES {
        assert!(rt; is_told(day, expected, tests), "day {day}");
    }
}
