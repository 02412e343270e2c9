//! The moon over the horizon: values from an independent implementation of the formulas, and how narrow the answers are.
use super::formulas::{Formula, counted};
use super::measures::{fraction, holds_by, is_counted, is_fine};
use book_model::location_tables::{CAIRO, TEHRAN, UJJAIN};
use book_model::{Fail as FormulaFail, Location, Place, Site};
use encl_core::{Coarse, Trail};
use fix_fine::Fine;
use moon_rise::{moonrise, moonset, observed};
use std::process::Abort;

/// The greatest widths over `Coarse`, in its units: of a distance, in kilometres, and of an observed altitude, in degrees.
const WIDEST_DISTANCE: i128 = 400_000;

const WIDEST_ALTITUDE: i128 = 40_000_000;

/// The greatest width of an observed altitude near the horizon over `Fine`, in its units: 2⁻²³ degrees.
const NARROW_ALTITUDE: i128 = 8_589_934_592;

/// Quarters of a day (R.D.), and the moon's distance there: floors at 2⁻⁵⁶ of a kilometre.
#[rattlefmt::skip]
const DISTANCES: [(i128, i128); 10] = [
    (2_631_208, 26_855_002_020_626_328_140_416),
    (2_640_001, 28_818_989_753_255_307_413_065),
    (2_680_494, 26_333_388_429_986_619_222_343),
    (2_772_000, 27_776_246_852_086_418_373_962),
    (2_800_007, 28_544_595_966_313_358_190_548),
    (2_860_000, 28_673_794_010_979_043_793_896),
    (2_901_488, 25_774_441_331_942_378_873_357),
    (2_920_482, 28_999_352_709_352_650_519_781),
    (2_955_705, 25_822_755_631_584_444_297_093),
    (2_992_068, 26_649_053_035_162_406_759_038),
];

/// A location, quarters of a day (R.D.), and the moon's observed altitude there: floors at 2⁻⁵⁶ of a degree.
#[rattlefmt::skip]
const ALTITUDES: [(Location, i128, i128); 18] = [
    (CAIRO, 2_631_208, -1_340_984_268_807_952_799),
    (CAIRO, 2_680_494, 2_803_503_451_280_161_268),
    (CAIRO, 2_772_000, 336_564_372_382_397_397),
    (CAIRO, 2_860_000, 1_877_774_814_979_626_764),
    (CAIRO, 2_920_482, -316_728_046_930_845_950),
    (CAIRO, 2_955_705, 724_227_726_285_537_006),
    (TEHRAN, 2_631_208, -379_981_191_232_341_422),
    (TEHRAN, 2_680_494, 2_560_584_626_742_108_237),
    (TEHRAN, 2_772_000, 1_447_293_486_496_030_084),
    (TEHRAN, 2_860_000, 3_056_836_146_944_436_905),
    (TEHRAN, 2_920_482, -1_590_508_639_040_967_032),
    (TEHRAN, 2_955_705, 1_487_487_507_302_718_057),
    (UJJAIN, 2_631_208, 1_391_405_645_123_353_121),
    (UJJAIN, 2_680_494, 2_927_053_811_911_957_622),
    (UJJAIN, 2_772_000, 3_201_852_611_568_413_819),
    (UJJAIN, 2_860_000, 4_740_002_070_503_128_389),
    (UJJAIN, 2_920_482, -3_182_344_332_497_075_271),
    (UJJAIN, 2_955_705, 3_174_066_432_403_510_577),
];

/// A place, a day (R.D.), the minute in which the moon rises there, or -1, and the number of tests.
#[rattlefmt::skip]
const RISES: [(Place, i64, i64, u32); 36] = [
    (Place::Tehran, 621_000, -1, 582),
    (Place::Tehran, 635_800, 104, 72),
    (Place::Tehran, 650_600, 345, 174),
    (Place::Tehran, 665_400, 721, 324),
    (Place::Tehran, 680_200, 876, 384),
    (Place::Tehran, 695_000, 1096, 474),
    (Place::Tehran, 709_800, -1, 582),
    (Place::Tehran, 724_600, 209, 114),
    (Place::Tehran, 739_400, 393, 192),
    (Place::Tehran, 754_200, 745, 330),
    (Place::Tehran, 769_000, 1050, 450),
    (Place::Tehran, 783_800, 1200, 510),
    (Place::Cairo, 621_000, 1420, 600),
    (Place::Cairo, 635_800, 106, 78),
    (Place::Cairo, 650_600, 342, 168),
    (Place::Cairo, 665_400, 694, 312),
    (Place::Cairo, 680_200, 867, 378),
    (Place::Cairo, 695_000, 1096, 474),
    (Place::Cairo, 709_800, -1, 582),
    (Place::Cairo, 724_600, 197, 114),
    (Place::Cairo, 739_400, 404, 192),
    (Place::Cairo, 754_200, 735, 330),
    (Place::Cairo, 769_000, 1028, 444),
    (Place::Cairo, 783_800, 1200, 510),
    (Place::Ujjain, 621_000, 1408, 594),
    (Place::Ujjain, 635_800, 120, 84),
    (Place::Ujjain, 650_600, 353, 174),
    (Place::Ujjain, 665_400, 678, 306),
    (Place::Ujjain, 680_200, 869, 378),
    (Place::Ujjain, 695_000, 1109, 474),
    (Place::Ujjain, 709_800, -1, 582),
    (Place::Ujjain, 724_600, 195, 114),
    (Place::Ujjain, 739_400, 423, 204),
    (Place::Ujjain, 754_200, 739, 330),
    (Place::Ujjain, 769_000, 1017, 438),
    (Place::Ujjain, 783_800, 1211, 516),
];

/// A place, a day (R.D.), the minute in which the moon sets there, or -1, and the number of tests.
#[rattlefmt::skip]
const SETS: [(Place, i64, i64, u32); 36] = [
    (Place::Tehran, 621_000, 579, 264),
    (Place::Tehran, 635_800, 959, 414),
    (Place::Tehran, 650_600, 1163, 498),
    (Place::Tehran, 665_400, 1296, 552),
    (Place::Tehran, 680_200, 144, 90),
    (Place::Tehran, 695_000, 444, 210),
    (Place::Tehran, 709_800, 621, 282),
    (Place::Tehran, 724_600, 920, 402),
    (Place::Tehran, 739_400, 1328, 564),
    (Place::Tehran, 754_200, -1, 582),
    (Place::Tehran, 769_000, 188, 108),
    (Place::Tehran, 783_800, 554, 252),
    (Place::Cairo, 621_000, 585, 270),
    (Place::Cairo, 635_800, 944, 408),
    (Place::Cairo, 650_600, 1151, 492),
    (Place::Cairo, 665_400, 1309, 558),
    (Place::Cairo, 680_200, 137, 90),
    (Place::Cairo, 695_000, 431, 204),
    (Place::Cairo, 709_800, 630, 282),
    (Place::Cairo, 724_600, 919, 402),
    (Place::Cairo, 739_400, 1306, 558),
    (Place::Cairo, 754_200, -1, 582),
    (Place::Cairo, 769_000, 195, 108),
    (Place::Cairo, 783_800, 540, 246),
    (Place::Ujjain, 621_000, 594, 270),
    (Place::Ujjain, 635_800, 930, 408),
    (Place::Ujjain, 650_600, 1138, 486),
    (Place::Ujjain, 665_400, 1322, 564),
    (Place::Ujjain, 680_200, 134, 84),
    (Place::Ujjain, 695_000, 417, 198),
    (Place::Ujjain, 709_800, 637, 288),
    (Place::Ujjain, 724_600, 922, 402),
    (Place::Ujjain, 739_400, 1283, 546),
    (Place::Ujjain, 754_200, -1, 582),
    (Place::Ujjain, 769_000, 204, 114),
    (Place::Ujjain, 783_800, 525, 246),
];

/// The minutes in which the moon rises at Cairo in April and May 2024: on two of the days it doesn't.
#[rattlefmt::skip]
const SPRING_OF_2024: [i64; 61] = [
    12, 70, 123, 169, 210, 248, 282, 315, 349, 386, 426, 473, 525, 582, 642, 702,
    760, 816, 870, 924, 976, 1031, 1085, 1143, 1202, 1264, 1326, 1385, 1439, -1, 46, 89,
    125, 159, 192, 224, 258, 297, 341, 390, 447, 508, 569, 630, 687, 743, 796, 849,
    902, 957, 1014, 1073, 1135, 1198, 1259, 1315, 1365, 1409, -1, 6, 40,
];

#[test]
fn distances_are_those_of_the_reference(rt: HostRuntime) {
    for (moment, there) in DISTANCES {
        let found = counted(Formula::Distance, moment, 4);
        assert!(rt;
            holds_by(found, there, WIDEST_DISTANCE, 1),
            "at {moment} / 4"
        );
        let (found, _) = counted::<Fine>(Formula::Distance, moment, 4);
        assert!(rt; is_fine(found, there, 1 << 34), "finely at {moment} / 4");
    }
}

/// Whether an observed altitude is near the horizon, so that it is narrow over fine enclosures.
fn is_low(altitude: i128) -> bool {
    let degrees = altitude >> 56;
    -30 < degrees && degrees < 30
}

/// Whether an observed altitude is the one that is told.
fn is_observed(location: &Location, moment: i128, there: i128) -> bool {
    let mut trail = Trail::new();
    let found = observed(location, fraction(moment, 4), &mut trail);
    holds_by((found, trail.count()), there, WIDEST_ALTITUDE, 5)
}

/// Whether it is narrow over fine enclosures, where it is low.
fn is_narrow(location: &Location, moment: i128, there: i128) -> bool {
    let found = observed::<Fine>(location, fraction(moment, 4), &mut Trail::new());
    !is_low(there) || is_fine(found, there, NARROW_ALTITUDE)
}

/// Asserts observed altitudes.
fn assert_altitudes(rt: &impl Abort, rows: &[(Location, i128, i128)]) {
    for (location, moment, there) in rows {
        assert!(rt; is_observed(location, *moment, *there), "at {moment} / 4");
        assert!(rt;
            is_narrow(location, *moment, *there),
            "finely at {moment} / 4"
        );
    }
}

#[test]
fn observed_altitudes_are_those_of_the_reference(rt: HostRuntime) {
    assert_altitudes(&rt, &ALTITUDES);
}

/// Whether the moon rises, or sets, in a minute of a day, or doesn't, by so many tests.
fn is_seen(rises: bool, place: Place, day: i64, minute: i64, tests: u32) -> bool {
    let mut trail = Trail::new();
    let found = if rises {
        moonrise::<Coarse>(place, day, &mut trail)
    } else {
        moonset::<Coarse>(place, day, &mut trail)
    };
    is_counted(found, &trail, minute, tests)
}

/// Asserts the minutes in which the moon rises, or sets.
fn assert_minutes(rt: &impl Abort, rises: bool, rows: &[(Place, i64, i64, u32)]) {
    for (place, day, minute, tests) in rows {
        assert!(rt;
            is_seen(rises, *place, *day, *minute, *tests),
            "{} {day}",
            place.name()
        );
    }
}

#[test]
fn moonrises_and_moonsets_are_those_of_the_reference(rt: HostRuntime) {
    assert_minutes(&rt, true, &RISES);
    assert_minutes(&rt, false, &SETS);
}

#[test]
fn on_some_days_the_moon_does_not_rise(rt: HostRuntime) {
    let mut day = 738_977_i64;
    for minute in SPRING_OF_2024 {
        let found = moonrise::<Coarse>(Place::Cairo, day, &mut Trail::new());
        assert_eq!(rt; found, Ok(minute), "day {day}");
        day = day.saturating_add(1);
    }
}

/// Moment 128 at Cairo and 224 at Tehran are the day's number: a day that begins a year is decided there. A place without a location
/// has no moonrise.
#[test]
fn a_year_that_begins_with_a_moment_is_decided(rt: HostRuntime) {
    for day in [738_886, 739_252] {
        assert!(rt; moonrise::<Coarse>(Place::Cairo, day, &mut Trail::new()).is_ok());
        assert!(rt; moonset::<Fine>(Place::Tehran, day, &mut Trail::new()).is_ok());
    }
    let nowhere = moonrise::<Coarse>(Place::Beijing, 738_984, &mut Trail::new());
    assert_eq!(rt; nowhere, Err(FormulaFail::Void(Site::Year)));
}
