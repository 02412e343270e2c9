//! The moon: values from an independent implementation of the formulas, and how narrow the answers are.
use super::formulas::{Formula, assert_moments, assert_values, counted};
use super::measures::fails_at;
use book_model::Site;
use encl_core::Coarse;

/// The greatest widths of a longitude, a latitude or a phase, in degrees, and of a new or a full moon, in days, each in units.
const WIDEST_ANGLE: i128 = 1_500;

const WIDEST_MOMENT: i128 = 120;

/// Formulas, quarters of a day (R.D.), the values there as floors at 2⁻⁵⁶ of a degree, the widths, and how many tests they make.
#[rattlefmt::skip]
const ANGLES: [(Formula, i128, u64, i128, i128, u32); 30] = [
    (Formula::Moon, 2_631_208, 4, 16_872_735_075_328_964_686, WIDEST_ANGLE, 2),
    (Formula::Moon, 2_640_001, 4, 3_078_177_995_868_983_234, WIDEST_ANGLE, 2),
    (Formula::Moon, 2_680_494, 4, 16_979_243_525_761_718_017, WIDEST_ANGLE, 2),
    (Formula::Moon, 2_772_000, 4, 25_234_734_752_139_658_975, WIDEST_ANGLE, 2),
    (Formula::Moon, 2_800_007, 4, 6_262_683_828_641_806_531, WIDEST_ANGLE, 2),
    (Formula::Moon, 2_860_000, 4, 4_313_556_125_897_577_110, WIDEST_ANGLE, 2),
    (Formula::Moon, 2_901_488, 4, 21_073_525_403_330_145_979, WIDEST_ANGLE, 2),
    (Formula::Moon, 2_920_482, 4, 16_092_176_402_948_774_134, WIDEST_ANGLE, 2),
    (Formula::Moon, 2_955_705, 4, 23_427_346_421_281_255_798, WIDEST_ANGLE, 2),
    (Formula::Moon, 2_992_068, 4, 16_083_778_521_643_813_578, WIDEST_ANGLE, 2),
    (Formula::Phase, 2_631_208, 4, 22_641_921_557_064_120_285, WIDEST_ANGLE, 10),
    (Formula::Phase, 2_640_001, 4, 8_348_113_502_901_443_749, WIDEST_ANGLE, 10),
    (Formula::Phase, 2_680_494, 4, 3_816_857_154_860_324_160, WIDEST_ANGLE, 10),
    (Formula::Phase, 2_772_000, 4, 21_332_645_066_190_975_967, WIDEST_ANGLE, 10),
    (Formula::Phase, 2_800_007, 4, 24_018_421_358_847_570_751, WIDEST_ANGLE, 10),
    (Formula::Phase, 2_860_000, 4, 20_461_123_759_043_600_798, WIDEST_ANGLE, 10),
    (Formula::Phase, 2_901_488, 4, 895_915_742_935_461_355, WIDEST_ANGLE, 10),
    (Formula::Phase, 2_920_482, 4, 21_830_188_118_428_545_360, WIDEST_ANGLE, 10),
    (Formula::Phase, 2_955_705, 4, 298_395_688_200_984_404, WIDEST_ANGLE, 10),
    (Formula::Phase, 2_992_068, 4, 21_850_260_083_543_380_686, WIDEST_ANGLE, 10),
    (Formula::Latitude, 2_631_208, 4, -315_287_488_471_349_708, WIDEST_ANGLE, 1),
    (Formula::Latitude, 2_640_001, 4, 108_270_461_807_107_393, WIDEST_ANGLE, 1),
    (Formula::Latitude, 2_680_494, 4, 33_579_440_147_159_044, WIDEST_ANGLE, 1),
    (Formula::Latitude, 2_772_000, 4, 321_368_976_531_830_577, WIDEST_ANGLE, 1),
    (Formula::Latitude, 2_800_007, 4, 91_309_460_581_729_423, WIDEST_ANGLE, 1),
    (Formula::Latitude, 2_860_000, 4, -209_791_576_690_289_733, WIDEST_ANGLE, 1),
    (Formula::Latitude, 2_901_488, 4, -358_549_279_241_856_888, WIDEST_ANGLE, 1),
    (Formula::Latitude, 2_920_482, 4, 372_620_516_694_926_536, WIDEST_ANGLE, 1),
    (Formula::Latitude, 2_955_705, 4, -289_186_024_736_834_904, WIDEST_ANGLE, 1),
    (Formula::Latitude, 2_992_068, 4, -219_446_679_040_734_599, WIDEST_ANGLE, 1),
];

/// Moments (R.D.) as fractions, and the new moons before and from there; days, and when the moon was last new and last full before
/// they begin, by the middle of the last bounds of the bisection: floors at 2⁻⁵⁶ of a day.
#[rattlefmt::skip]
const MOMENTS: [(Formula, i128, u64, i128); 40] = [
    (Formula::MoonBefore, 2_631_208, 4, 47_397_747_358_441_379_810_681),
    (Formula::MoonBefore, 2_640_001, 4, 47_557_295_060_294_262_870_790),
    (Formula::MoonBefore, 2_680_494, 4, 48_287_206_246_068_636_928_403),
    (Formula::MoonBefore, 2_772_000, 4, 49_934_178_318_438_288_015_981),
    (Formula::MoonBefore, 2_800_007, 4, 50_438_481_454_847_307_012_814),
    (Formula::MoonBefore, 2_860_000, 4, 51_519_506_065_161_895_658_325),
    (Formula::MoonBefore, 2_901_488, 4, 52_268_498_542_634_511_360_087),
    (Formula::MoonBefore, 2_920_482, 4, 52_608_956_757_020_576_086_639),
    (Formula::MoonBefore, 2_955_705, 4, 53_245_226_681_151_288_226_603),
    (Formula::MoonBefore, 2_992_068, 4, 53_898_478_358_527_885_164_620),
    (Formula::MoonFrom, 2_631_208, 4, 47_399_870_339_997_265_783_386),
    (Formula::MoonFrom, 2_640_001, 4, 47_559_430_336_793_521_585_164),
    (Formula::MoonFrom, 2_680_494, 4, 48_289_325_484_977_845_846_688),
    (Formula::MoonFrom, 2_772_000, 4, 49_936_311_907_470_498_807_363),
    (Formula::MoonFrom, 2_800_007, 4, 50_440_613_045_300_824_085_303),
    (Formula::MoonFrom, 2_860_000, 4, 51_521_622_750_588_020_075_319),
    (Formula::MoonFrom, 2_901_488, 4, 52_270_619_971_553_155_458_637),
    (Formula::MoonFrom, 2_920_482, 4, 52_611_105_576_030_163_169_408),
    (Formula::MoonFrom, 2_955_705, 4, 53_247_346_439_582_435_677_964),
    (Formula::MoonFrom, 2_992_068, 4, 53_900_600_765_699_913_366_311),
    (Formula::PhaseBefore(0), 657_802, 1, 47_397_747_358_486_655_799_604),
    (Formula::PhaseBefore(0), 680_000, 1, 48_997_929_836_924_567_224_170),
    (Formula::PhaseBefore(0), 693_961, 1, 50_004_439_496_713_925_476_127),
    (Formula::PhaseBefore(0), 710_000, 1, 51_159_878_418_576_655_955_637),
    (Formula::PhaseBefore(0), 725_372, 1, 52_268_498_542_773_219_538_351),
    (Formula::PhaseBefore(0), 730_120, 1, 52_608_956_757_130_772_086_379),
    (Formula::PhaseBefore(0), 738_927, 1, 53_245_226_681_225_402_913_596),
    (Formula::PhaseBefore(0), 738_971, 1, 53_247_346_439_338_019_862_937),
    (Formula::PhaseBefore(0), 743_000, 1, 53_536_772_218_119_713_324_133),
    (Formula::PhaseBefore(0), 748_017, 1, 53_898_478_358_491_202_990_553),
    (Formula::PhaseBefore(180), 657_802, 1, 47_398_773_850_267_176_732_531),
    (Formula::PhaseBefore(180), 680_000, 1, 48_998_938_060_869_148_472_746),
    (Formula::PhaseBefore(180), 693_961, 1, 50_003_318_449_132_439_062_752),
    (Formula::PhaseBefore(180), 710_000, 1, 51_158_770_852_656_993_517_686),
    (Formula::PhaseBefore(180), 725_372, 1, 52_267_429_420_611_050_082_810),
    (Formula::PhaseBefore(180), 730_120, 1, 52_610_022_605_380_253_447_338),
    (Formula::PhaseBefore(180), 738_927, 1, 53_244_130_552_334_903_719_800),
    (Formula::PhaseBefore(180), 738_971, 1, 53_248_421_297_246_406_267_238),
    (Formula::PhaseBefore(180), 743_000, 1, 53_537_779_655_363_724_898_980),
    (Formula::PhaseBefore(180), 748_017, 1, 53_899_532_653_072_499_681_304),
];

#[test]
fn values_are_those_of_the_reference(rt: HostRuntime) {
    assert_values(&rt, &ANGLES);
    assert_moments(&rt, &MOMENTS, WIDEST_MOMENT);
    let (found, _) = counted::<Coarse>(Formula::Phase, 4_000_000, 4);
    assert!(rt; fails_at(found, 0, Site::Year));
}
