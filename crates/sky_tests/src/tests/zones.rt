//! Places whose time changed: their hours on both sides of each change. Values and numbers of tests are those of an independent
//! implementation.
use super::measures::{fraction, from_to, holds_by};
use book_model::{Fail as FormulaFail, Place, Site};
use encl_core::{Coarse, Trail};
use time_scales::zone_at;

/// A 2³⁶th of a day.
const UNITS_IN_DAY: u64 = 1 << 36;

/// The bounds of an undecided test are in units of 2⁻⁵⁶.
const FINE_UNITS_IN_DAY: i128 = 1 << 56;

/// The hours of places a 2³⁶th of a day before a day (R.D.) on which their time changes, and as it begins, as floors at 2⁻⁵⁶, and how
/// many tests that makes.
#[rattlefmt::skip]
const HOURS: [(Place, i64, i128, i128, u32); 14] = [
    (Place::Beijing, 704_188, 1, 559_246_993_727_696_258, 1),
    (Place::Beijing, 704_188, 0, 576_460_752_303_423_488, 1),
    (Place::Hanoi, 718_432, 1, 576_460_752_303_423_488, 1),
    (Place::Hanoi, 718_432, 0, 504_403_158_265_495_552, 1),
    (Place::Seoul, 696_608, 1, 609_927_501_534_372_240, 1),
    (Place::Seoul, 696_608, 0, 612_489_549_322_387_456, 2),
    (Place::Seoul, 697_978, 1, 612_489_549_322_387_456, 2),
    (Place::Seoul, 697_978, 0, 648_518_346_341_351_424, 3),
    (Place::Seoul, 713_398, 1, 648_518_346_341_351_424, 3),
    (Place::Seoul, 713_398, 0, 612_489_549_322_387_456, 4),
    (Place::Seoul, 716_097, 1, 612_489_549_322_387_456, 4),
    (Place::Seoul, 716_097, 0, 648_518_346_341_351_424, 4),
    (Place::Tokyo, 689_213, 1, 671_416_648_446_737_412, 1),
    (Place::Tokyo, 689_213, 0, 648_518_346_341_351_424, 1),
];

/// The hours of a place so many 2³⁶ths of a day before a day, and how many tests that makes.
fn hours_before(place: Place, day: i64, before: i128) -> (Result<Coarse, FormulaFail>, u32) {
    let parts = (i128::from(day) << 36).saturating_sub(before);
    let mut trail = Trail::new();
    let found = zone_at(place, fraction(parts, UNITS_IN_DAY), &mut trail);
    (found, trail.count())
}

#[test]
fn the_time_of_a_place_changes_as_its_day_begins(rt: HostRuntime) {
    for (place, day, before, hours, tests) in HOURS {
        let found = hours_before(place, day, before);
        assert!(rt;
            holds_by(found, hours, 1, tests),
            "{} {day}, {before} before",
            place.name()
        );
    }
}

/// The days (R.D.) on which the time of a place changes, and the number of the test against the day.
#[rattlefmt::skip]
const CHANGES: [(Place, i64, u32); 7] = [
    (Place::Beijing, 704_188, 1),
    (Place::Hanoi, 718_432, 1),
    (Place::Seoul, 696_608, 1),
    (Place::Seoul, 697_978, 2),
    (Place::Seoul, 713_398, 3),
    (Place::Seoul, 716_097, 4),
    (Place::Tokyo, 689_213, 1),
];

/// Whether the hours of a place are undecided around a day, at its bounds, by the test of a number.
fn is_undecided(place: Place, day: i64, number: u32) -> bool {
    let before = day.saturating_sub(1);
    match zone_at(place, from_to((before, day)), &mut Trail::new()) {
        Err(FormulaFail::Undecided(at)) => {
            at.turn == number
                && at.site.number() == Site::Zone.number()
                && at.lo == i128::from(before).saturating_mul(FINE_UNITS_IN_DAY)
                && at.hi == i128::from(day).saturating_mul(FINE_UNITS_IN_DAY)
        }
        _ => false,
    }
}

#[test]
fn the_time_of_a_place_is_undecided_around_a_change(rt: HostRuntime) {
    for (place, day, number) in CHANGES {
        assert!(rt;
            is_undecided(place, day, number),
            "{} around {day}",
            place.name()
        );
    }
}
