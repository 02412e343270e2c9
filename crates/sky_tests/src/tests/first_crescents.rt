//! The crescent: evenings and first visibilities of an independent implementation of the formulas, with the tests that they make.
use super::measures::{fraction, is_counted, is_near};
use book_model::Fail as FormulaFail;
use book_model::location_tables::CAIRO;
use crescent::{arc_cosine, phasis, visible};
use encl_core::{Coarse, Enclosure, Trail};
use moon_core::{latitude, moon, phase};
use rise_set::altitude_sine;
use sun_core::obliquity;
use time_scales::{centuries, sidereal};

/// The greatest width of the cosine of an arc of light, and that of the sine of an altitude, which takes the sidereal time: this is
/// wide over coarse enclosures. In units.
const WIDEST_ARC: i128 = 200;

const WIDEST_ALTITUDE: i128 = 300_000;

/// Quarters of a day (R.D.), the cosine of the arc of light there and the sine of the moon's altitude at Cairo: floors at 2⁻⁵⁶.
#[rattlefmt::skip]
const CRESCENTS: [(i128, i128, i128); 6] = [
    (2_631_211, 58_167_995_827_911_016, -68_495_546_289_314_581),
    (2_772_003, 41_254_739_403_232_150, -59_288_720_443_884_993),
    (2_955_707, 70_540_232_417_561_097, -24_936_712_235_888_714),
    (2_955_711, 65_045_345_056_613_683, -7_457_412_250_275_716),
    (2_955_831, 60_154_932_501_680_325, 8_594_455_382_513_942),
    (2_992_067, 35_929_333_599_461_440, -70_191_728_954_324_883),
];

/// The cosine of the arc of light at a moment, and the sine of the moon's altitude at Cairo.
fn arc_and_altitude(t: Coarse) -> Result<(Coarse, Coarse), FormulaFail> {
    let trail = &mut Trail::new();
    let north = latitude(t, trail)?;
    let arc = arc_cosine(north, phase(t, trail)?);
    let tilt = obliquity(centuries(t, trail)?, trail)?;
    let here = sidereal(t, trail)?.add(Coarse::from_frac(CAIRO.longitude));
    Ok((
        arc,
        altitude_sine(CAIRO.latitude, here, tilt, moon(t, trail)?, north),
    ))
}

/// Whether both are those that are told.
fn is_there(t: Coarse, arc: i128, altitude: i128) -> bool {
    match arc_and_altitude(t) {
        Ok(found) => {
            is_near(found.0, arc, WIDEST_ARC) && is_near(found.1, altitude, WIDEST_ALTITUDE)
        }
        Err(_) => false,
    }
}

#[test]
fn the_moon_stands_where_the_reference_has_it(rt: HostRuntime) {
    for (moment, arc, altitude) in CRESCENTS {
        assert!(rt;
            is_there(fraction(moment, 4), arc, altitude),
            "at {moment} / 4"
        );
    }
}

/// Days (R.D.), whether the crescent is seen at Cairo on the evening before, and how many tests that makes.
const EVENINGS: [(i64, bool, u32); 9] = [
    (657_803, false, 30),
    (680_010, false, 30),
    (693_968, false, 30),
    (710_020, true, 33),
    (738_955, false, 30),
    (738_956, false, 31),
    (738_957, true, 33),
    (738_958, true, 33),
    (748_001, false, 30),
];

/// Days (R.D.), the day with whose evening the crescent was first seen at Cairo, and how many tests that makes.
const VISIBILITIES: [(i64, i64, u32); 7] = [
    (657_802, 657_778, 386),
    (680_000, 679_985, 386),
    (693_961, 693_953, 354),
    (730_120, 730_098, 384),
    (738_956, 738_927, 377),
    (738_957, 738_957, 387),
    (748_017, 747_993, 353),
];

/// Whether the crescent is seen, or isn't, on the evening before a day, by so many tests.
fn is_seen(day: i64, seen: bool, tests: u32) -> bool {
    let mut trail = Trail::new();
    match visible::<Coarse>(&CAIRO, day.max(0), &mut trail) {
        Ok(found) => found == seen && trail.count() == tests,
        Err(_) => false,
    }
}

/// Whether the crescent was first seen with the evening of a day, as it is asked of another, by so many tests.
fn is_first_visibility(day: i64, first: i64, tests: u32) -> bool {
    let mut trail = Trail::new();
    let found = phasis::<Coarse>(&CAIRO, day.clamp(0, 800_000), &mut trail);
    is_counted(found, &trail, first, tests)
}

#[test]
fn visibilities_are_those_of_the_reference(rt: HostRuntime) {
    for (day, seen, tests) in EVENINGS {
        assert!(rt; is_seen(day, seen, tests), "the evening before {day}");
    }
    for (day, first, tests) in VISIBILITIES {
        assert!(rt;
            is_first_visibility(day, first, tests),
            "the first visibility before {day}"
        );
    }
}
