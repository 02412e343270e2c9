//! Time: values from an independent implementation of the formulas, and how narrow the answers are.
use super::formulas::{Formula, assert_values};
use super::measures::{UNIT, fails_at, from_to, is_fine};
use book_model::{Fail as FormulaFail, Site, Undecided};
use encl_core::{Coarse, Enclosure, Trail};
use fix_fine::Fine;
use std::process::Abort;
use time_scales::{correction, year};

/// Years, ΔT in days, as floors at 2⁻⁵⁶, and how many units the answers are wide at most.
#[rattlefmt::skip]
const CORRECTIONS: [(i64, i128, i128); 29] = [
    (-499, 14_332_775_793_199_228, 4),
    (0, 8_826_721_669_673_774, 4),
    (499, 4_770_377_389_013_675, 4),
    (1700, 6_771_062_661_987, 3),
    (1742, 9_854_127_571_441, 3),
    (1799, 12_055_523_073_577, 3),
    (1800, 11_361_838_553_225, 32),
    (1802, 10_737_227_806_583, 29),
    (1829, 6_696_824_384_326, 9),
    (1850, 6_096_976_126_171, 5),
    (1857, 6_792_474_408_898, 5),
    (1884, -4_910_485_818_686, 3),
    (1899, -1_898_836_771_402, 3),
    (1900, -1_292_099_286_881, 3),
    (1911, 10_990_884_202_241, 3),
    (1938, 20_806_162_131_520, 4),
    (1950, 23_999_527_669_858, 6),
    (1966, 31_331_812_745_125, 8),
    (1986, 46_331_035_351_981, 15),
    (1987, 46_133_898_151_451, 4),
    (2005, 53_977_014_480_359, 4),
    (2006, 54_255_218_326_903, 4),
    (2019, 59_263_083_502_550, 4),
    (2024, 61_608_695_798_473, 4),
    (2048, 76_111_847_846_477, 4),
    (2050, 77_562_827_582_422, 4),
    (2051, 79_261_685_441_858, 3),
    (2100, 169_085_146_009_832, 3),
    (2150, 273_952_297_333_085, 3),
];

/// The same over fine enclosures, and how wide the answers are at most, in 2⁻⁵⁶.
#[rattlefmt::skip]
const FINE_CORRECTIONS: [(i64, i128, i128); 10] = [
    (1700, 6_771_062_661_987, 3),
    (1742, 9_854_127_571_441, 3),
    (1799, 12_055_523_073_577, 3),
    (1800, 11_361_838_553_225, 33),
    (1986, 46_331_035_351_981, 33),
    (1987, 46_133_898_151_451, 4),
    (2050, 77_562_827_582_422, 4),
    (2051, 79_261_685_441_858, 3),
    (2100, 169_085_146_009_832, 3),
    (2150, 273_952_297_333_085, 3),
];

/// Asserts values of ΔT of years over enclosures of a kind, whose widths are so many times 2⁻⁵⁶.
fn assert_corrections<E: Enclosure>(rt: &impl Abort, rows: &[(i64, i128, i128)], unit: i128) {
    for (year, days, most) in rows {
        let found = correction::<E>(*year, &mut Trail::new());
        assert!(rt;
            is_fine(found, *days, most.saturating_mul(unit)),
            "year {year}"
        );
    }
}

/// Whether no ΔT of a year is known.
fn is_void(year: i64) -> bool {
    fails_at(correction::<Coarse>(year, &mut Trail::new()), 0, Site::Year)
}

#[test]
fn corrections_are_those_of_the_reference(rt: HostRuntime) {
    assert_corrections::<Coarse>(&rt, &CORRECTIONS, UNIT);
    assert_corrections::<Fine>(&rt, &FINE_CORRECTIONS, 1);
    for year in [-500, 500, 1699, 2151] {
        assert!(rt; is_void(year), "year {year}");
    }
}

/// Days or intervals of them (R.D.), and their years in the calendar. The first two are undecided.
#[rattlefmt::skip]
const YEARS: [((i64, i64), Result<i64, FormulaFail>); 14] = [
    ((738_885, 738_886), Err(FormulaFail::Undecided(Undecided {
        turn: 1,
        site: Site::Year,
        lo: 53_242_275_370_714_382_991_360,
        hi: 53_242_347_428_308_420_919_296,
    }))),
    ((1, 0), Err(FormulaFail::Undecided(Undecided {
        turn: 2,
        site: Site::Year,
        lo: i128::MIN,
        hi: i128::MAX,
    }))),
    ((-40_000_000, -40_000_000), Ok(-109_516)),
    ((-366, -366), Ok(-1)),
    ((-365, -365), Ok(0)),
    ((0, 0), Ok(0)),
    ((1, 1), Ok(1)),
    ((365, 365), Ok(1)),
    ((366, 366), Ok(2)),
    ((730_119, 730_119), Ok(1999)),
    ((730_120, 730_120), Ok(2000)),
    ((730_485, 730_485), Ok(2000)),
    ((730_486, 730_486), Ok(2001)),
    ((40_000_000, 40_000_000), Ok(109_517)),
];

#[test]
fn years_are_those_of_the_calendar(rt: HostRuntime) {
    let mut trail = Trail::new();
    for (days, there) in YEARS {
        assert_eq!(rt; year(from_to(days), &mut trail), there, "{days:?}");
    }
}

/// Formulas, moments (R.D.) as fractions, the values there as floors at 2⁻⁵⁶, how many units the answers are wide at most, and how
/// many tests they make. Standard time begins at Beijing in 1929.
#[rattlefmt::skip]
const VALUES: [(Formula, i128, u64, i128, i128, u32); 54] = [
    (Formula::Dynamical, 1_477_773, 2, 53_242_383_518_714_135_681_737, 4, 1),
    (Formula::Dynamical, 657_253, 1, 47_360_069_865_572_088_273_033, 32, 1),
    (Formula::Dynamical, 1_460_241, 2, 52_610_726_641_028_199_189_599, 4, 1),
    (Formula::Dynamical, 657_802, 1, 47_399_629_484_074_299_963_255, 29, 1),
    (Formula::Dynamical, 2_671_081, 4, 48_117_917_591_802_471_689_030, 9, 1),
    (Formula::Dynamical, 1_356_211, 2, 48_862_650_840_678_616_414_146, 5, 1),
    (Formula::Dynamical, 2_752_307, 4, 49_581_155_113_526_345_118_402, 3, 1),
    (Formula::Dynamical, 5_581_433, 8, 50_273_079_168_977_663_403_777, 3, 1),
    (Formula::Dynamical, 5_661_203, 8, 50_991_583_463_343_630_264_896, 4, 1),
    (Formula::Dynamical, 5_743_893, 8, 51_736_388_780_243_813_506_981, 8, 1),
    (Formula::Dynamical, 5_803_215, 8, 52_270_713_869_235_644_040_731, 4, 1),
    (Formula::Dynamical, 11_795_121, 16, 53_120_502_599_652_995_652_566, 4, 1),
    (Formula::Dynamical, 11_968_287, 16, 53_900_372_949_574_999_306_829, 4, 1),
    (Formula::FromDynamical, 1_477_773, 2, 53_242_383_395_496_744_084_790, 4, 1),
    (Formula::FromDynamical, 657_253, 1, 47_360_069_842_848_411_166_582, 32, 1),
    (Formula::FromDynamical, 1_460_241, 2, 52_610_726_534_509_728_002_976, 4, 1),
    (Formula::FromDynamical, 657_802, 1, 47_399_629_462_599_844_350_088, 29, 1),
    (Formula::FromDynamical, 2_671_081, 4, 48_117_917_578_408_822_920_377, 9, 1),
    (Formula::FromDynamical, 1_356_211, 2, 48_862_650_827_093_667_596_349, 5, 1),
    (Formula::FromDynamical, 2_752_307, 4, 49_581_155_123_347_316_755_773, 3, 1),
    (Formula::FromDynamical, 5_581_433, 8, 50_273_079_146_995_894_999_294, 3, 1),
    (Formula::FromDynamical, 5_661_203, 8, 50_991_583_421_731_306_001_855, 4, 1),
    (Formula::FromDynamical, 5_743_893, 8, 51_736_388_717_580_188_016_730, 8, 1),
    (Formula::FromDynamical, 5_803_215, 8, 52_270_713_776_967_847_737_828, 4, 1),
    (Formula::FromDynamical, 11_795_121, 16, 53_120_502_481_126_828_647_465, 4, 1),
    (Formula::FromDynamical, 11_968_287, 16, 53_900_372_797_351_303_613_874, 4, 1),
    (Formula::Centuries, 1_477_773, 2, 17_293_824_255_856_867, 2, 1),
    (Formula::Centuries, 657_253, 1, -143_755_146_398_271_741, 2, 1),
    (Formula::Centuries, 1_460_241, 2, 1_458_158_400, 2, 1),
    (Formula::Centuries, 657_802, 1, -142_672_063_071_722_482, 2, 1),
    (Formula::Centuries, 2_671_081, 4, -123_006_406_460_410_457, 2, 1),
    (Formula::Centuries, 1_356_211, 2, -102_616_721_344_020_457, 2, 1),
    (Formula::Centuries, 2_752_307, 4, -82_945_146_454_281_136, 2, 1),
    (Formula::Centuries, 5_581_433, 8, -64_001_298_255_750_861, 2, 1),
    (Formula::Centuries, 5_661_203, 8, -44_329_722_776_874_287, 2, 1),
    (Formula::Centuries, 5_743_893, 8, -23_938_064_545_520_879, 2, 1),
    (Formula::Centuries, 5_803_215, 8, -9_309_040_890_713_746, 2, 1),
    (Formula::Centuries, 11_795_121, 16, 13_956_906_553_977_605, 2, 1),
    (Formula::Centuries, 11_968_287, 16, 35_308_593_067_927_055, 2, 1),
    (Formula::Sidereal, 1_477_773, 2, 228_039_273_209_784_176_457_585, 26_370_369, 0),
    (Formula::Sidereal, 657_253, 1, -1_895_391_510_633_208_999_301_131, 26_370_369, 0),
    (Formula::Sidereal, 1_460_241, 2, 20_209_317_382_131_694_164, 26_370_369, 0),
    (Formula::Sidereal, 657_802, 1, -1_881_111_055_914_819_606_475_740, 26_370_369, 0),
    (Formula::Sidereal, 2_671_081, 4, -1_621_819_356_920_663_818_802_185, 26_370_369, 0),
    (Formula::Sidereal, 1_356_211, 2, -1_352_981_343_019_207_389_035_872, 26_370_369, 0),
    (Formula::Sidereal, 2_752_307, 4, -1_093_611_608_744_878_356_647_249, 26_370_369, 0),
    (Formula::Sidereal, 5_581_433, 8, -843_836_961_414_630_010_991_991, 26_370_369, 0),
    (Formula::Sidereal, 5_661_203, 8, -584_467_227_132_120_186_540_377, 26_370_369, 0),
    (Formula::Sidereal, 5_743_893, 8, -315_603_201_456_156_477_021_582, 26_370_369, 0),
    (Formula::Sidereal, 5_803_215, 8, -122_719_518_648_348_925_582_579, 26_370_369, 0),
    (Formula::Sidereal, 11_795_121, 16, 184_042_011_587_071_120_789_282, 26_370_369, 0),
    (Formula::Sidereal, 11_968_287, 16, 465_564_008_638_941_481_374_421, 26_370_369, 0),
    (Formula::ZoneBeijing, 704_187, 1, 559_246_993_727_696_258, 1, 1),
    (Formula::ZoneBeijing, 704_188, 1, 576_460_752_303_423_488, 0, 1),
];

#[test]
fn moments_are_those_of_the_reference(rt: HostRuntime) {
    assert_values(&rt, &VALUES);
}
