//! The sun: values from an independent implementation of the formulas, and how narrow the answers are.
use super::formulas::{Formula, assert_moments, assert_values, counted, value};
use super::measures::{UNIT, fails_at, from_to, holds_by, new_year};
use book_model::{Fail as FormulaFail, Site};
use encl_core::{Coarse, Enclosure, Trail};
use sun_core::{noon, sun};

/// Formulas, moments (R.D.) as fractions, the values there as floors at 2⁻⁵⁶, how many units the answers are wide at most, and how
/// many tests they make.
#[rattlefmt::skip]
const VALUES: [(Formula, i128, u64, i128, i128, u32); 72] = [
    (Formula::Sun, 738_886, 1, 20_178_955_089_418_412_699, 28, 2),
    (Formula::Sun, 1_477_773, 2, 20_215_669_299_681_273_041, 28, 2),
    (Formula::Sun, 657_253, 1, 7_121_220_320_783_974_170, 57, 2),
    (Formula::Sun, 1_460_241, 2, 20_202_722_138_174_285_733, 28, 2),
    (Formula::Sun, 748_382, 1, 20_156_640_438_514_836_118, 28, 2),
    (Formula::Sun, 100_000, 1, 14_591_420_637_183_378_428, 28, 2),
    (Formula::Sun, 657_802, 1, 20_171_547_371_918_901_360, 54, 2),
    (Formula::Sun, 2_671_081, 4, 1_941_955_250_142_918_181, 34, 2),
    (Formula::Sun, 1_356_211, 2, 9_441_423_461_111_797_838, 29, 2),
    (Formula::Sun, 2_752_307, 4, 17_212_891_333_701_244_199, 27, 2),
    (Formula::Sun, 5_581_433, 8, 24_963_069_010_098_146_785, 27, 2),
    (Formula::Sun, 5_661_203, 8, 6_711_331_682_723_651_889, 29, 2),
    (Formula::Sun, 5_743_893, 8, 14_327_499_634_980_283_136, 32, 2),
    (Formula::Sun, 5_803_215, 8, 22_369_406_512_186_085_406, 28, 2),
    (Formula::Sun, 11_795_121, 16, 3_957_817_178_971_370_625, 28, 2),
    (Formula::Sun, 11_968_287, 16, 20_243_123_064_124_944_510, 28, 2),
    (Formula::Obliquity, 0, 1, 1_688_978_923_421_257_266, 9, 0),
    (Formula::Obliquity, 1, 4, 1_688_744_661_009_565_975, 9, 0),
    (Formula::Obliquity, -2, 1, 1_690_852_683_796_397_637, 9, 0),
    (Formula::Obliquity, -25, 1, 1_711_830_750_880_488_584, 9, 0),
    (Formula::ObliquityAt, 657_802, 1, 1_690_833_926_733_879_635, 7, 1),
    (Formula::ObliquityAt, 2_671_081, 4, 1_690_578_304_301_360_075, 7, 1),
    (Formula::ObliquityAt, 1_356_211, 2, 1_690_313_239_611_397_372, 7, 1),
    (Formula::ObliquityAt, 2_752_307, 4, 1_690_057_484_933_331_054, 7, 1),
    (Formula::ObliquityAt, 5_581_433, 8, 1_689_811_172_226_864_548, 7, 1),
    (Formula::ObliquityAt, 5_661_203, 8, 1_689_555_381_605_724_158, 7, 1),
    (Formula::ObliquityAt, 5_743_893, 8, 1_689_290_215_368_511_092, 7, 1),
    (Formula::ObliquityAt, 5_803_215, 8, 1_689_099_979_465_166_177, 7, 1),
    (Formula::ObliquityAt, 11_795_121, 16, 1_688_797_425_302_928_842, 7, 1),
    (Formula::ObliquityAt, 11_968_287, 16, 1_688_519_766_026_230_466, 7, 1),
    (Formula::EquationOfTime, 657_253, 1, -160_861_981_715_541, 50, 1),
    (Formula::EquationOfTime, 1_400_001, 2, -285_308_939_659_302, 50, 1),
    (Formula::EquationOfTime, 738_965, 1, -372_234_267_647_203, 50, 1),
    (Formula::EquationOfTime, 739_194, 1, 824_648_585_918_681, 50, 1),
    (Formula::EquationOfTime, 739_300, 1, -697_093_484_537_938, 50, 1),
    (Formula::EquationOfTime, 748_382, 1, -144_382_769_100_706, 50, 1),
    (Formula::EquationOfTime, 657_802, 1, -177_770_470_664_802, 50, 1),
    (Formula::EquationOfTime, 2_671_081, 4, 20_473_182_351_168, 50, 1),
    (Formula::EquationOfTime, 1_356_211, 2, -294_527_677_308_206, 50, 1),
    (Formula::EquationOfTime, 2_752_307, 4, 701_965_550_185_454, 50, 1),
    (Formula::EquationOfTime, 5_581_433, 8, -562_911_976_881_376, 50, 1),
    (Formula::EquationOfTime, 5_661_203, 8, -115_285_762_872_897, 50, 1),
    (Formula::EquationOfTime, 5_743_893, 8, 672_684_906_582_491, 50, 1),
    (Formula::EquationOfTime, 5_803_215, 8, -667_885_368_522_040, 50, 1),
    (Formula::EquationOfTime, 11_795_121, 16, 181_946_236_012_723, 50, 1),
    (Formula::EquationOfTime, 11_968_287, 16, -172_419_924_347_210, 50, 1),
    (Formula::FromApparent(2571, 50), 1_477_931, 2, 53_248_076_373_971_678_943_068, 53, 1),
    (Formula::FromApparent(-75, 1), 1_477_931, 2, 53_248_076_368_752_096_217_628, 53, 1),
    (Formula::Estimate(0), 657_500, 1, 47_352_708_476_108_292_385_862, 182, 6),
    (Formula::Estimate(0), 1_477_931, 2, 53_248_049_293_381_209_310_296, 93, 6),
    (Formula::Estimate(270), 738_886, 1, 53_241_637_990_525_143_703_094, 93, 6),
    (Formula::Estimate(180), 700_000, 1, 50_419_085_874_662_521_267_644, 91, 6),
    (Formula::Estimate(15), 1_440_001, 2, 51_880_580_422_051_481_061_800, 112, 6),
    (Formula::Estimate(0), 748_382, 1, 53_906_010_224_633_116_539_307, 93, 6),
    (Formula::Estimate(0), 657_802, 1, 47_379_026_016_581_572_378_589, 177, 6),
    (Formula::Estimate(36), 2_671_081, 4, 48_092_268_469_738_914_856_054, 112, 6),
    (Formula::Estimate(72), 1_356_211, 2, 48_858_199_796_509_354_103_941, 97, 6),
    (Formula::Estimate(108), 2_752_307, 4, 49_571_514_099_202_741_738_942, 91, 6),
    (Formula::Estimate(144), 5_581_433, 8, 50_258_496_641_542_522_143_715, 91, 6),
    (Formula::Estimate(180), 5_661_203, 8, 50_971_773_062_741_199_569_178, 95, 6),
    (Formula::Estimate(216), 5_743_893, 8, 51_711_313_865_533_411_502_022, 107, 6),
    (Formula::Estimate(252), 5_803_215, 8, 52_266_580_761_101_794_094_224, 128, 6),
    (Formula::Estimate(288), 11_795_121, 16, 53_111_320_699_627_246_485_485, 93, 6),
    (Formula::Estimate(324), 11_968_287, 16, 53_877_104_123_593_856_449_951, 93, 6),
    (Formula::Precession, 657_802, 1, -199_221_620_440_848_376, 800, 1),
    (Formula::Precession, 693_961, 1, -99_633_287_907_549_277, 800, 1),
    (Formula::Precession, 738_965, 1, 24_376_624_199_409_474, 800, 1),
    (Formula::Precession, 748_017, 1, 49_327_843_779_514_199, 800, 1),
    (Formula::SiderealSun, 657_802, 1, 18_651_193_773_998_041_264, 900, 4),
    (Formula::SiderealSun, 693_961, 1, 18_549_648_676_926_385_298, 900, 4),
    (Formula::SiderealSun, 738_965, 1, 24_187_528_951_980_584_697, 900, 4),
    (Formula::SiderealSun, 748_017, 1, 18_405_349_229_613_267_179, 900, 4),
];

/// The next passages of the sun over a longitude, in the same way; these are at most 400 units wide.
#[rattlefmt::skip]
const PASSAGES: [(Formula, i128, u64, i128); 9] = [
    (Formula::SunFrom(0), 738_886, 1, 53_248_049_291_533_863_605_986),
    (Formula::SunFrom(15), 738_886, 1, 53_249_141_957_652_561_656_728),
    (Formula::SunFrom(270), 738_886, 1, 53_267_955_899_058_278_001_583),
    (Formula::SunFrom(90), 657_802, 1, 47_412_040_156_881_442_340_307),
    (Formula::SunFrom(345), 657_900, 1, 47_430_578_191_079_639_571_516),
    (Formula::SunFrom(180), 748_000, 1, 53_919_441_733_637_282_677_849),
    (Formula::SunFrom(45), 700_000, 1, 50_461_598_748_889_741_685_724),
    (Formula::SunFrom(300), 1_440_001, 2, 51_901_514_133_210_704_131_722),
    (Formula::SunFrom(105), 2_956_001, 4, 53_255_865_236_163_670_497_260),
];

#[test]
fn values_are_those_of_the_reference(rt: HostRuntime) {
    assert_values(&rt, &VALUES);
    assert_moments(&rt, &PASSAGES, 400);
}

/// Days (R.D.), and when it is noon on them, as floors at 2⁻⁵⁶.
#[rattlefmt::skip]
const NOONS: [(i64, i128); 14] = [
    (657_253, 47_360_095_755_125_324_018_312),
    (690_000, 49_719_766_278_278_986_750_688),
    (738_965, 53_248_066_081_745_330_525_695),
    (748_382, 53_926_632_230_731_779_861_610),
    (657_802, 47_399_655_396_187_974_901_427),
    (667_770, 48_117_925_285_528_752_000_884),
    (678_105, 48_862_640_836_751_505_229_971),
    (688_076, 49_581_126_104_861_518_047_543),
    (697_679, 50_273_096_447_444_642_947_867),
    (707_650, 50_991_582_272_606_026_030_754),
    (717_986, 51_736_368_780_194_418_227_270),
    (725_401, 52_270_677_172_887_229_906_211),
    (737_195, 53_120_523_591_669_694_284_236),
    (748_017, 53_900_331_214_772_185_803_870),
];

/// Whether it is noon then on a day, by one test.
fn is_noon(day: i64, moment: i128) -> bool {
    let mut trail = Trail::new();
    let found = noon(day.clamp(0, 800_000), &mut trail);
    holds_by((found, trail.count()), moment, 53, 1)
}

#[test]
fn noons_are_those_of_the_reference(rt: HostRuntime) {
    for (day, moment) in NOONS {
        assert!(rt; is_noon(day, moment), "noon on {day}");
    }
}

/// How many units wide an enclosure is.
fn width(found: Result<Coarse, FormulaFail>) -> Option<i128> {
    let span = found.ok()?.span()?;
    Some(span.hi.checked_sub(span.lo)? / UNIT)
}

/// Whether the sun's longitude on 1 January of a year is as narrow as its bound says.
fn is_narrow(year: i64) -> bool {
    let most = if year < 1987 { 58 } else { 28 };
    match width(sun(Coarse::from_int(new_year(year)), &mut Trail::new())) {
        Some(width) => width <= most,
        None => false,
    }
}

#[test]
fn longitudes_of_every_new_year_keep_their_bound(rt: HostRuntime) {
    for year in 1702..2149 {
        assert!(rt; is_narrow(year), "the sun on 1 January {year}");
    }
}

/// Formulas, intervals of days (R.D.) or every moment, and the number and the site of the test that is undecided there; 0 and a site
/// where there is no value.
#[rattlefmt::skip]
const FAILURES: [(Formula, (i64, i64), u32, Site); 7] = [
    (Formula::Sun, (738_964, 738_966), 2, Site::SunWrap),
    (Formula::Sun, (500_000, 500_000), 0, Site::Year),
    (Formula::EquationOfTime, (500_000, 500_000), 0, Site::Year),
    (Formula::SunFrom(0), (785_500, 785_500), 0, Site::Year),
    (Formula::Estimate(0), (1, 0), 1, Site::Year),
    (Formula::Estimate(0), (738_964, 738_966), 2, Site::SunWrap),
    (Formula::Estimate(180), (739_150, 739_153), 3, Site::StepWrap),
];

#[test]
fn formulas_fail_by_their_tests(rt: HostRuntime) {
    for (formula, days, turn, site) in FAILURES {
        let found = value(formula, from_to(days), &mut Trail::new());
        assert!(rt; fails_at(found, turn, site), "{formula:?} at {days:?}");
    }
    let (_, made) = counted::<Coarse>(Formula::Sun, 500_000, 1);
    assert!(rt; made == 1);
}
