//! The horizon: moments of an independent implementation of the formulas, and how narrow the answers are.
use super::measures::{fraction, holds, holds_by, is_near};
use book_model::location_tables::{CAIRO, TEHRAN, UJJAIN};
use book_model::{Fail as FormulaFail, Frac, Location, Site};
use encl_core::{Coarse, Trail};
use rise_set::{dawn, dusk, hsunset, offset, refraction, sunrise, sunset};
use std::process::Abort;

/// What there is one of each day, with the depression of the sun as a fraction.
#[derive(Clone, Copy)]
enum Event {
    Sunset(Location),
    Dusk(Location, i128, u64),
    Dawn(Location, i128, u64),
    Sunrise,
    HinduSunset,
}

/// When an event is on a day (R.D.).
fn moment(event: Event, day: i64) -> Result<Coarse, FormulaFail> {
    // A sunrise is known of the days of facts.
    let day = day.clamp(0, 800_000);
    let trail = &mut Trail::new();
    match event {
        Event::Sunset(location) => sunset(&location, day, trail),
        Event::Dusk(location, num, den) => dusk(&location, fraction(num, den), day, trail),
        Event::Dawn(location, num, den) => dawn(&location, fraction(num, den), day, trail),
        Event::Sunrise => sunrise(day, trail),
        Event::HinduSunset => hsunset(day, trail),
    }
}

/// Events, days (R.D.), the moments as floors at 2⁻⁵⁶, and how many units the answers are wide at most.
#[rattlefmt::skip]
const EVENTS: [(Event, i64, i128, i128); 26] = [
    (Event::Sunset(TEHRAN), 657_253, 47_360_117_584_192_301_597_153, 1000),
    (Event::Sunset(TEHRAN), 657_802, 47_399_670_085_727_520_133_135, 1000),
    (Event::Sunset(TEHRAN), 693_961, 50_005_200_618_107_637_605_077, 1000),
    (Event::Sunset(TEHRAN), 738_965, 53_248_084_324_788_569_226_310, 1000),
    (Event::Sunset(TEHRAN), 739_695, 53_300_686_347_965_958_100_661, 1000),
    (Event::Sunset(TEHRAN), 748_017, 53_900_345_910_326_049_974_478, 1000),
    (Event::Sunset(CAIRO), 657_802, 47_399_674_938_981_930_689_250, 1000),
    (Event::Sunset(CAIRO), 693_961, 50_005_205_470_962_689_966_097, 1000),
    (Event::Sunset(CAIRO), 738_965, 53_248_088_458_776_403_359_079, 1000),
    (Event::Sunset(CAIRO), 748_017, 53_900_350_762_273_898_229_288, 1000),
    (Event::Sunset(UJJAIN), 657_802, 47_399_666_642_541_560_353_314, 1000),
    (Event::Sunset(UJJAIN), 693_961, 50_005_197_174_146_338_371_233, 1000),
    (Event::Sunset(UJJAIN), 738_965, 53_248_079_415_377_956_367_097, 1000),
    (Event::Sunset(UJJAIN), 748_017, 53_900_342_464_580_806_560_881, 1000),
    (Event::Dusk(CAIRO, 9, 2), 738_965, 53_248_095_450_569_638_750_857, 1000),
    (Event::Dusk(UJJAIN, 0, 1), 739_058, 53_254_797_612_541_554_181_295, 1000),
    (Event::Dawn(UJJAIN, 47, 60), 738_965, 53_248_058_196_733_768_014_378, 1000),
    (Event::Dawn(TEHRAN, 5, 6), 657_802, 47_399_651_003_903_979_217_703, 1000),
    (Event::Sunrise, 657_802, 47_399_634_423_627_062_567_841, 4),
    (Event::Sunrise, 693_961, 50_005_164_966_444_498_805_665, 4),
    (Event::Sunrise, 738_965, 53_248_043_027_007_564_969_866, 4),
    (Event::Sunrise, 748_017, 53_900_310_219_718_735_454_409, 4),
    (Event::HinduSunset, 657_802, 47_399_666_442_276_317_006_249, 1000),
    (Event::HinduSunset, 693_961, 50_005_196_973_900_087_971_019, 1000),
    (Event::HinduSunset, 738_965, 53_248_079_233_919_362_972_553, 1000),
    (Event::HinduSunset, 748_017, 53_900_342_264_377_747_332_859, 1000),
];

/// Asserts the moments of events.
fn assert_events(rt: &impl Abort, rows: &[(Event, i64, i128, i128)]) {
    for (event, day, there, units) in rows {
        assert!(rt; holds(moment(*event, *day), *there, *units), "day {day}");
    }
}

#[test]
fn moments_are_those_of_the_reference(rt: HostRuntime) {
    assert_events(&rt, &EVENTS);
}

#[test]
fn what_the_air_lifts_is_that_of_the_reference(rt: HostRuntime) {
    for (location, degrees) in [
        (TEHRAN, 40_832_636_621_492_497),
        (CAIRO, 78_921_570_401_367_681),
        (UJJAIN, 40_832_636_621_492_497),
    ] {
        assert!(rt; is_near(refraction(&location), degrees, 1_000_000));
    }
}

/// Locations, depressions of the sun as fractions, quarters of a day (R.D.), and the offsets there as floors at 2⁻⁵⁶.
#[rattlefmt::skip]
const OFFSETS: [(Location, i128, u64, i128, i128); 3] = [
    (CAIRO, 5, 6, 2_955_863, 1_365_096_565_874_718),
    (TEHRAN, 5, 6, 2_956_235, 23_846_589_657_623_784),
    (UJJAIN, 47, 60, 2_631_209, -11_969_985_967_360_544),
];

/// The offset at quarters of a day, and how many tests it makes.
fn offset_at(
    location: &Location,
    num: i128,
    den: u64,
    quarters: i128,
) -> (Result<Coarse, FormulaFail>, u32) {
    let mut trail = Trail::new();
    let found = offset(
        location,
        fraction(num, den),
        fraction(quarters, 4),
        &mut trail,
    );
    (found, trail.count())
}

#[test]
fn offsets_are_those_of_the_reference(rt: HostRuntime) {
    for (location, num, den, quarters, there) in OFFSETS {
        let found = offset_at(&location, num, den, quarters);
        assert!(rt;
            holds_by(found, there, 100, 3),
            "the offset at {quarters} / 4"
        );
    }
}

#[test]
fn where_the_sun_stays_above_there_is_no_dusk(rt: HostRuntime) {
    let north = Location {
        latitude: Frac::whole(80),
        ..TEHRAN
    };
    let found = sunset::<Coarse>(&north, 739_058, &mut Trail::new());
    assert_eq!(rt; found, Err(FormulaFail::Void(Site::Offset)));
}
