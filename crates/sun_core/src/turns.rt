//! The sum of the sun's periodic terms, by turns and days.
ghost use Rattle.std.specs.Prelude.{◌≡◌, ◌≤◌, ◌^◌, ◌*◌, ℕ};
ghost use Rattle.book_model.specs.declared.sun_tables.TheConstants.{SUN_TERMS};
ghost use Rattle.book_model.specs.numbers.Polynomials.{periodic_terms_of};
ghost use Rattle.book_model.specs.programs.Calls.{Holds1};
ghost use Rattle.book_model.specs.programs.Widths.{IsAbout};
ghost use Rattle.sun_core.specs.LinearModels.{greatest_sun_terms_of, other_sun_terms_of};
ghost use Rattle.sun_core.specs.Daily.{in_centuries};
ghost use Rattle.periodic_terms.specs.Turning.{width_of_sum};

use crate::linear_models::GREATEST_SUN_TERMS;
use encl_core::Enclosure;
use periodic_terms::{Rate80, TurningTerm, Turns64, sum_of_periodic_terms};

/// The sun's 49 periodic terms as they are summed: those of `SUN_TERMS`, in the same order, by turns and days.
#[rattlefmt::skip]
pub const SUN_TURNS: [TurningTerm; 49] = [
    TurningTerm { size: 403_406, phase: Turns64(13_863_169_356_021_824_259), rate: Rate80(85_393_356_518_306_771) },
    TurningTerm { size: 195_207, phase: Turns64(17_431_726_328_521_296_423), rate: Rate80(3_309_779_226_124_793_379_899) },
    TurningTerm { size: 119_433, phase: Turns64(3_275_247_080_403_241_453), rate: Rate80(3_309_804_166_901_599_792_261) },
    TurningTerm { size: 112_392, phase: Turns64(16_974_191_735_261_078_414), rate: Rate80(3_309_741_626_380_395_335_501) },
    TurningTerm { size: 3891, phase: Turns64(16_286_579_101_722_402_817), rate: Rate80(6_619_551_760_671_867_323_789) },
    TurningTerm { size: 2819, phase: Turns64(4_439_055_238_470_922_683), rate: Rate80(6_619_573_614_012_658_577_969) },
    TurningTerm { size: 1721, phase: Turns64(12_300_493_912_172_570_234), rate: Rate80(3_309_891_353_484_292_783_621) },
    TurningTerm { size: 660, phase: Turns64(15_898_018_934_192_015_234), rate: Rate80(6_619_485_433_865_606_148_823) },
    TurningTerm { size: 350, phase: Turns64(12_668_301_492_620_034_572), rate: Rate80(3_030_770_115_847_216_658_190) },
    TurningTerm { size: 334, phase: Turns64(13_367_228_129_190_585_361), rate: Rate80(-1_787_415_534_194_844_155) },
    TurningTerm { size: 314, phase: Turns64(15_260_581_444_533_829_617), rate: Rate80(40_938_087_151_826_081_047_073) },
    TurningTerm { size: 268, phase: Turns64(17_582_821_559_590_820_948), rate: Rate80(4_140_714_267_441_552_881_911) },
    TurningTerm { size: 242, phase: Turns64(8_546_479_011_261_155_872), rate: Rate80(285_089_146_053_771_552) },
    TurningTerm { size: 234, phase: Turns64(4_177_675_123_137_610_397), rate: Rate80(2_070_357_262_437_496_150_476) },
    TurningTerm { size: 158, phase: Turns64(179_343_345_161_065_085), rate: Rate80(-1_836_410_634_147_132_229) },
    TurningTerm { size: 132, phase: Turns64(6_802_236_877_180_397_158), rate: Rate80(6_061_540_130_559_867_830_328) },
    TurningTerm { size: 129, phase: Turns64(9_374_532_856_347_673_522), rate: Rate80(830_961_060_096_093_481_605) },
    TurningTerm { size: 114, phase: Turns64(8_302_572_061_842_107_356), rate: Rate80(279_018_166_804_363_586_365) },
    TurningTerm { size: 99, phase: Turns64(1_526_980_481_657_068_439), rate: Rate80(3_100_063_860_885_798_880_360) },
    TurningTerm { size: 93, phase: Turns64(13_650_590_614_545_068_195), rate: Rate80(278_988_709_063_652_921_889) },
    TurningTerm { size: 86, phase: Turns64(12_769_246_175_467_834_063), rate: Rate80(-209_695_442_115_743_906_509) },
    TurningTerm { size: 78, phase: Turns64(8_075_574_627_823_959_263), rate: Rate80(2_751_778_850_837_272_361_542) },
    TurningTerm { size: 72, phase: Turns64(13_209_918_395_006_451_129), rate: Rate80(2_901_320_188_926_025_420_124) },
    TurningTerm { size: 68, phase: Turns64(9_484_700_911_232_327_789), rate: Rate80(13_753_197_619_934_074_757) },
    TurningTerm { size: 64, phase: Turns64(3_581_742_807_645_271_272), rate: Rate80(830_935_381_110_511_432_329) },
    TurningTerm { size: 46, phase: Turns64(409_927_646_082_434_480), rate: Rate80(9_929_336_934_814_666_583_432) },
    TurningTerm { size: 38, phase: Turns64(10_099_592_380_355_979_509), rate: Rate80(-408_599_826_094_126_110_513) },
    TurningTerm { size: 37, phase: Turns64(12_830_735_322_380_199_235), rate: Rate80(13_953_903_762_166_848_009) },
    TurningTerm { size: 32, phase: Turns64(3_346_034_411_147_871_445), rate: Rate80(6_211_070_481_757_188_540_580) },
    TurningTerm { size: 29, phase: Turns64(8_336_903_502_201_511_244), rate: Rate80(2_901_282_217_493_711_111_671) },
    TurningTerm { size: 28, phase: Turns64(17_498_786_392_143_921_880), rate: Rate80(-419_390_332_588_403_343_646) },
    TurningTerm { size: 27, phase: Turns64(14_941_862_699_704_736_808), rate: Rate80(9_929_272_668_395_325_901_571) },
    TurningTerm { size: 27, phase: Turns64(5_047_234_142_389_974_539), rate: Rate80(112_319_588_726_238_482_350) },
    TurningTerm { size: 25, phase: Turns64(7_517_048_210_036_642_283), rate: Rate80(5_782_522_046_501_966_914_369) },
    TurningTerm { size: 24, phase: Turns64(5_636_505_133_633_474_104), rate: Rate80(2_890_367_867_126_970_504_479) },
    TurningTerm { size: 21, phase: Turns64(266_452_969_953_582_412), rate: Rate80(1_340_336_212_505_613_298_985) },
    TurningTerm { size: 21, phase: Turns64(17_555_151_443_480_256_621), rate: Rate80(-2_935_822_154_001_077_834_956) },
    TurningTerm { size: 20, phase: Turns64(11_831_536_685_054_265_189), rate: Rate80(3_197_437_599_643_480_505_258) },
    TurningTerm { size: 18, phase: Turns64(13_122_808_770_213_933_802), rate: Rate80(112_351_216_263_081_393_023) },
    TurningTerm { size: 17, phase: Turns64(2_321_215_295_941_785_245), rate: Rate80(5_782_553_674_038_809_825_042) },
    TurningTerm { size: 14, phase: Turns64(12_446_428_154_177_916_909), rate: Rate80(-408_403_349_215_540_935_781) },
    TurningTerm { size: 13, phase: Turns64(5_902_958_103_587_056_517), rate: Rate80(9_929_383_272_833_762_010_697) },
    TurningTerm { size: 13, phase: Turns64(7_778_377_084_414_194_264), rate: Rate80(10_946_989_249_238_378_379) },
    TurningTerm { size: 13, phase: Turns64(14_619_044_678_414_819_655), rate: Rate80(1_550_031_654_621_357_205_494) },
    TurningTerm { size: 12, phase: Turns64(2_731_142_942_024_219_725), rate: Rate80(-420_903_673_450_130_989) },
    TurningTerm { size: 10, phase: Turns64(6_487_104_999_254_525_651), rate: Rate80(2_472_766_972_764_071_726_020) },
    TurningTerm { size: 10, phase: Turns64(10_540_264_599_894_596_576), rate: Rate80(-3_597_356_494_338_854_341) },
    TurningTerm { size: 10, phase: Turns64(4_401_598_099_810_140_232), rate: Rate80(1_130_641_781_735_524_252_992) },
    TurningTerm { size: 10, phase: Turns64(7_486_303_636_580_459_697), rate: Rate80(8_281_429_454_288_246_546_110) },
];

/// A 57th of the sum of their sizes times their rates a day in degrees, in 2⁻³², rounded up: how far the sum moves in a day at most.
const SUN_SLOPE: u64 = 33_364_602_334_325;

/// The sum of their sizes.
const SUN_SIZES: u64 = 842_879;

/// The slope of the greatest periodic terms alone.
const GREATEST_SLOPE: u64 = 31_714_473_147_842;

/// The sum of their sizes.
const GREATEST_SIZES: u64 = 830_438;

/// The slope of the others.
const OTHER_SLOPE: u64 = 1_650_129_186_484;

/// The sum of their sizes.
const OTHER_SIZES: u64 = 12_441;

/// The sum of the periodic terms by the days from noon of 1 January 2000.
pub(crate) fn sun_terms<E: Enclosure>(days: E) -> E
    ensures holds { Holds1 E.shown (λ x. periodic_terms_of SUN_TERMS (in_centuries x)) days result }
    ensures measured { (v : ℕ) → E.BITS ≡ 56 → v ≤ 2 ^ 70 → IsAbout (2 ^ 52) v (E.shown days)
        → IsAbout (SUN_SIZES * 2 ^ 32) (width_of_sum SUN_SLOPE SUN_SIZES v) (E.shown result) }
{
    sum_of_periodic_terms(&SUN_TURNS, SUN_SLOPE, SUN_SIZES, days)
}

/// The sum of the greatest of them.
pub(crate) fn greatest_sun_terms<E: Enclosure>(days: E) -> E
    ensures holds { Holds1 E.shown greatest_sun_terms_of days result }
{
    sum_of_periodic_terms(
        &SUN_TURNS[..GREATEST_SUN_TERMS],
        GREATEST_SLOPE,
        GREATEST_SIZES,
        days,
    )
}

/// The sum of the others.
pub(crate) fn other_sun_terms<E: Enclosure>(days: E) -> E
    ensures holds { Holds1 E.shown other_sun_terms_of days result }
{
    sum_of_periodic_terms(
        &SUN_TURNS[GREATEST_SUN_TERMS..],
        OTHER_SLOPE,
        OTHER_SIZES,
        days,
    )
}
