//! New moons: values from an independent implementation of the formula, and how narrow the answers are.
use super::measures::{fails_at, holds_by};
use book_model::{Fail as FormulaFail, Site};
use encl_core::{Coarse, Trail};
use new_moons::new_moon;

/// The greatest width of a new moon of the years 1800 to 2150, in units, that of one of the century before, and that of the first,
/// 24,724 months before 2000.
const WIDEST: i128 = 110;

const WIDEST_BEFORE_1800: i128 = 300;

const WIDEST_OF_THE_FIRST: i128 = 180_000;

/// Numbers of new moons, the moments as floors at 2⁻⁵⁶ of a day, and how many units the answers are wide at most.
#[rattlefmt::skip]
const NEW_MOONS: [(i64, i128, i128); 18] = [
    (21_400, 45_537_929_785_149_677_601_904, WIDEST_BEFORE_1800),
    (21_900, 46_601_876_991_401_772_867_572, WIDEST_BEFORE_1800),
    (22_227, 47_297_728_059_919_581_963_669, WIDEST_BEFORE_1800),
    (22_290, 47_431_788_297_619_998_659_599, WIDEST),
    (22_611, 48_114_839_544_089_431_158_282, WIDEST),
    (22_987, 48_914_921_829_404_905_864_428, WIDEST),
    (23_333, 49_651_203_609_138_011_485_253, WIDEST),
    (23_702, 50_436_354_983_337_993_622_021, WIDEST),
    (24_041, 51_157_737_986_607_098_533_704, WIDEST),
    (24_366, 51_849_326_768_164_068_364_936, WIDEST),
    (24_724, 52_611_105_576_030_163_169_408, WIDEST),
    (25_059, 53_323_964_465_536_165_474_380, WIDEST),
    (25_330, 53_900_600_765_699_913_366_311, WIDEST),
    (25_350, 53_943_142_919_220_067_496_722, WIDEST),
    (25_700, 54_687_931_256_864_722_365_041, WIDEST),
    (26_200, 55_751_873_393_030_655_468_092, WIDEST),
    (26_590, 56_581_729_147_382_101_969_113, WIDEST),
    (0, 825_702_408_369_343_102, WIDEST_OF_THE_FIRST),
];

/// A new moon, and how many tests it makes.
fn counted(number: i64) -> (Result<Coarse, FormulaFail>, u32) {
    let mut trail = Trail::new();
    let found = new_moon(number.clamp(-30_000, 30_000), &mut trail);
    (found, trail.count())
}

#[test]
fn new_moons_are_those_of_the_reference(rt: HostRuntime) {
    for (number, moment, widest) in NEW_MOONS {
        assert!(rt;
            holds_by(counted(number), moment, widest, 1),
            "new moon {number}"
        );
    }
    for number in [20_950, 26_600, 10_000, -20_000] {
        assert!(rt;
            fails_at(counted(number).0, 0, Site::Year),
            "new moon {number}"
        );
    }
}
