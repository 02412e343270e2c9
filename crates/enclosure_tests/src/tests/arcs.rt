//! Arcs: values from outside, and how narrow the answers are.
use super::measures::{UNIT, is_near, is_within};
use super::operations::{EVERY, Endpoints, fractions, range};
use arc_series::{arccos_deg, arcsin_deg, arctan_deg, arctan2_deg};
use encl_core::{Coarse, Enclosure};
use fix_fine::Fine;
use std::process::Abort;

/// The number whose arc is meant.
#[derive(Clone, Copy, Debug)]
enum Of {
    Tangent,
    Sine,
    Cosine,
}

/// The arc whose tangent, sine or cosine is a number, in degrees.
fn arc<E: Enclosure>(of: Of, x: E) -> E {
    match of {
        Of::Tangent => arctan_deg(x),
        Of::Sine => arcsin_deg(x),
        Of::Cosine => arccos_deg(x),
    }
}

/// Numbers as fractions, their arcs as floors at 2⁻⁵⁶, and how many units the answers over `Coarse` are wide at most.
#[rattlefmt::skip]
const COARSE: [(Of, i128, u64, i128, i128); 39] = [
    (Of::Tangent, 0, 1, 0, 60),
    (Of::Tangent, 1, 1000, 4_128_594_644_042_466, 60),
    (Of::Tangent, 1, 5, 814_966_522_809_326_457, 60),
    (Of::Tangent, 1, 2, 1_914_213_673_314_665_423, 60),
    (Of::Tangent, -1, 2, -1_914_213_673_314_665_424, 60),
    (Of::Tangent, 4, 5, 2_785_732_768_757_359_321, 60),
    (Of::Tangent, 1, 1, 3_242_591_731_706_757_120, 60),
    (Of::Tangent, -1, 1, -3_242_591_731_706_757_120, 60),
    (Of::Tangent, 2, 1, 4_570_969_790_098_848_816, 60),
    (Of::Tangent, 3, 1, 5_156_805_405_021_422_543, 60),
    (Of::Tangent, -3, 1, -5_156_805_405_021_422_544, 60),
    (Of::Tangent, 4, 1, 5_473_765_529_784_150_280, 60),
    (Of::Tangent, -10, 3, -5_281_876_101_660_192_973, 60),
    (Of::Tangent, 100, 1, 6_443_898_879_327_218_488, 60),
    (Of::Tangent, -1_000_000, 1, -6_485_179_334_817_494_002, 60),
    (Of::Sine, 0, 1, 0, 750),
    (Of::Sine, 1, 1000, 4_128_596_708_339_960, 750),
    (Of::Sine, 1, 2, 2_161_727_821_137_838_080, 750),
    (Of::Sine, -1, 2, -2_161_727_821_137_838_080, 750),
    (Of::Sine, 3, 5, 2_656_756_116_784_183_392, 750),
    (Of::Sine, -4, 5, -3_828_427_346_629_330_848, 750),
    (Of::Sine, 9, 10, 4_623_075_963_209_787_951, 750),
    (Of::Sine, 99, 100, 5_900_824_157_139_373_907, 750),
    (Of::Sine, 1, 1, 6_485_183_463_413_514_240, 750),
    (Of::Sine, -1, 1, -6_485_183_463_413_514_240, 750),
    (Of::Sine, 3, 1, 6_485_183_463_413_514_240, 750),
    (Of::Sine, -7, 2, -6_485_183_463_413_514_240, 750),
    (Of::Cosine, 0, 1, 6_485_183_463_413_514_240, 750),
    (Of::Cosine, 1, 1000, 6_481_054_866_705_174_279, 750),
    (Of::Cosine, 1, 2, 4_323_455_642_275_676_160, 750),
    (Of::Cosine, -1, 2, 8_646_911_284_551_352_320, 750),
    (Of::Cosine, 3, 5, 3_828_427_346_629_330_847, 750),
    (Of::Cosine, -4, 5, 10_313_610_810_042_845_087, 750),
    (Of::Cosine, 9, 10, 1_862_107_500_203_726_288, 750),
    (Of::Cosine, 99, 100, 584_359_306_274_140_332, 750),
    (Of::Cosine, 1, 1, 0, 750),
    (Of::Cosine, -1, 1, 12_970_366_926_827_028_480, 750),
    (Of::Cosine, 3, 1, 0, 750),
    (Of::Cosine, -7, 2, 12_970_366_926_827_028_480, 750),
];

/// The same over `Fine`, and how wide the answers are at most, in 2⁻⁵⁶.
#[rattlefmt::skip]
const FINE: [(Of, i128, u64, i128, i128); 27] = [
    (Of::Tangent, 0, 1, 0, 256),
    (Of::Tangent, 1, 4, 1_011_417_933_629_363_959, 256),
    (Of::Tangent, -1, 4, -1_011_417_933_629_363_960, 256),
    (Of::Tangent, 2_086, 5_000, 1_631_808_880_682_639_947, 256),
    (Of::Tangent, -247, 500, -1_894_348_889_864_853_712, 256),
    (Of::Tangent, 1, 2, 1_914_213_673_314_665_423, 256),
    (Of::Tangent, 3, 5, 2_231_173_798_077_393_160, 256),
    (Of::Tangent, 6_372_000, 6_372_200, 3_242_526_939_942_348_190, 256),
    (Of::Tangent, 1, 1, 3_242_591_731_706_757_120, 256),
    (Of::Sine, 0, 1, 0, 600),
    (Of::Sine, 1, 4, 1_043_214_695_772_893_122, 600),
    (Of::Sine, -1, 4, -1_043_214_695_772_893_123, 600),
    (Of::Sine, 2_086, 5_000, 1_776_791_654_951_311_197, 600),
    (Of::Sine, -247, 500, -2_133_180_821_874_479_000, 600),
    (Of::Sine, 1, 2, 2_161_727_821_137_838_080, 600),
    (Of::Sine, 3, 5, 2_656_756_116_784_183_392, 600),
    (Of::Sine, 6_372_000, 6_372_200, 6_452_472_839_934_883_040, 65_536),
    (Of::Sine, 1, 1, 6_485_183_463_413_514_240, 700),
    (Of::Cosine, 0, 1, 6_485_183_463_413_514_240, 600),
    (Of::Cosine, 1, 4, 5_441_968_767_640_621_117, 600),
    (Of::Cosine, -1, 4, 7_528_398_159_186_407_362, 600),
    (Of::Cosine, 2_086, 5_000, 4_708_391_808_462_203_042, 600),
    (Of::Cosine, -247, 500, 8_618_364_285_287_993_239, 600),
    (Of::Cosine, 1, 2, 4_323_455_642_275_676_160, 600),
    (Of::Cosine, 3, 5, 3_828_427_346_629_330_847, 600),
    (Of::Cosine, 6_372_000, 6_372_200, 32_710_623_478_631_199, 65_536),
    (Of::Cosine, 1, 1, 0, 700),
];

/// Asserts arcs over enclosures of a kind, whose widths are so many times 2⁻⁵⁶.
fn assert_arcs<E: Enclosure>(rt: &impl Abort, rows: &[(Of, i128, u64, i128, i128)], unit: i128) {
    for (of, num, den, there, most) in rows {
        let found = arc(*of, fractions::<E>((*num, *num, *den)));
        assert!(rt;
            is_within(found, *there, most.saturating_mul(unit)),
            "{of:?} {num} / {den}"
        );
    }
}

#[test]
fn arcs_are_those_of_a_table(rt: HostRuntime) {
    assert_arcs::<Coarse>(&rt, &COARSE, UNIT);
    assert_arcs::<Fine>(&rt, &FINE, 1);
}

/// Directions by y and x, and their angles as floors at 2⁻⁵⁶.
#[rattlefmt::skip]
const DIRECTIONS: [(i64, i64, i128); 11] = [
    (1, 1, 3_242_591_731_706_757_120),
    (1, 0, 6_485_183_463_413_514_240),
    (1, -1, 9_727_775_195_120_271_360),
    (-1, 1, -3_242_591_731_706_757_120),
    (-1, 0, -6_485_183_463_413_514_240),
    (-1, -1, -9_727_775_195_120_271_360),
    (3, -4, 10_313_610_810_042_845_087),
    (-5, 12, -1_629_933_045_618_652_915),
    (1, 1000, 4_128_594_644_042_466),
    (-1, -1000, -12_966_238_332_182_986_014),
    (1, -1_000_000, 12_970_362_798_231_008_241),
];

/// Directions that may be any.
const ANY: [(Endpoints, Endpoints); 3] = [((0, 1), (1, 1)), (EVERY, (1, 1)), ((1, 1), EVERY)];

#[test]
fn an_angle_is_that_of_the_direction(rt: HostRuntime) {
    for (y, x, angle) in DIRECTIONS {
        let found = arctan2_deg(Coarse::from_int(y), Coarse::from_int(x));
        assert!(rt; is_near(found, angle, 25), "the angle of {y} and {x}");
    }
    for (y, x) in ANY {
        let found = arctan2_deg(range::<Coarse>(y), range(x));
        assert_eq!(rt; found, range((-180, 180)), "the angle of {y:?} and {x:?}");
    }
    assert_eq!(rt; arctan_deg(Coarse::whole()), Coarse::whole());
}
