//! Formulas over fine enclosures: each holds the value of an independent implementation and is narrow, also in the years from -499
//! to 499, in which no fact is asked.
use super::formulas::{Formula, counted};
use super::measures::is_fine;
use book_model::Location;
use book_model::location_tables::{CAIRO, TEHRAN, UJJAIN};
use encl_core::Trail;
use fix_fine::Fine;
use rise_set::sunset;

/// The greatest widths that are promised of a moment without width, in 2⁻⁵⁶.
const WIDEST_SUN: i128 = 1 << 24;

const WIDEST_MOON: i128 = 1 << 28;

const WIDEST_PHASE: i128 = 1 << 29;

const WIDEST_LATITUDE: i128 = 1 << 28;

const WIDEST_EQUATION: i128 = 1 << 22;

const WIDEST_NEW_MOON: i128 = 1 << 22;

const WIDEST_SUNSET: i128 = 1 << 25;

/// Formulas, quarters of a day (R.D.) in each of the years -499, -300, 200, 1802, 1958, 2024 and 2048, the values there, in 2⁻⁵⁶ of
/// a degree or a day, and how wide the answers are at most.
#[rattlefmt::skip]
const VALUES: [(Formula, i128, i128, i128); 42] = [
    (Formula::Sun, -730_000, 2_852_384_546_873_358_153, WIDEST_SUN),
    (Formula::Moon, -730_000, 17_866_811_725_978_441_143, WIDEST_MOON),
    (Formula::Phase, -730_000, 15_014_427_179_105_082_990, WIDEST_PHASE),
    (Formula::Latitude, -730_000, 216_624_986_402_237_564, WIDEST_LATITUDE),
    (Formula::EquationOfTime, -730_000, 349_046_024_715_743, WIDEST_EQUATION),
    (Formula::MoonBefore, -730_000, -13_151_783_042_174_993_320_746, WIDEST_NEW_MOON),
    (Formula::Sun, -439_599, 22_985_117_412_548_134_680, WIDEST_SUN),
    (Formula::Moon, -439_599, 24_131_657_614_204_502_145, WIDEST_MOON),
    (Formula::Phase, -439_599, 1_146_540_201_656_367_464, WIDEST_PHASE),
    (Formula::Latitude, -439_599, 48_753_814_694_784_264, WIDEST_LATITUDE),
    (Formula::EquationOfTime, -439_599, -890_535_333_646_460, WIDEST_EQUATION),
    (Formula::MoonBefore, -439_599, -7_919_213_301_615_197_465_367, WIDEST_NEW_MOON),
    (Formula::Sun, 291_601, 9_476_971_760_830_537_233, WIDEST_SUN),
    (Formula::Moon, 291_601, 15_640_485_800_265_372_818, WIDEST_MOON),
    (Formula::Phase, 291_601, 6_163_514_039_434_835_585, WIDEST_PHASE),
    (Formula::Latitude, 291_601, -186_963_366_019_691_267, WIDEST_LATITUDE),
    (Formula::EquationOfTime, 291_601, -155_866_801_936_291, WIDEST_EQUATION),
    (Formula::MoonBefore, 291_601, 5_252_467_261_350_300_435_899, WIDEST_NEW_MOON),
    (Formula::Sun, 2_631_208, 20_171_547_371_918_901_360, WIDEST_SUN),
    (Formula::Moon, 2_631_208, 16_872_735_075_328_964_686, WIDEST_MOON),
    (Formula::Phase, 2_631_208, 22_641_921_557_064_120_285, WIDEST_PHASE),
    (Formula::Latitude, 2_631_208, -315_287_488_471_349_708, WIDEST_LATITUDE),
    (Formula::EquationOfTime, 2_631_208, -177_770_470_664_802, WIDEST_EQUATION),
    (Formula::MoonBefore, 2_631_208, 47_397_747_358_441_379_810_681, WIDEST_NEW_MOON),
    (Formula::Sun, 2_860_000, 9_793_166_220_508_033_271, WIDEST_SUN),
    (Formula::Moon, 2_860_000, 4_313_556_125_897_577_110, WIDEST_MOON),
    (Formula::Phase, 2_860_000, 20_461_123_759_043_600_798, WIDEST_PHASE),
    (Formula::Latitude, 2_860_000, -209_791_576_690_289_733, WIDEST_LATITUDE),
    (Formula::EquationOfTime, 2_860_000, -277_443_971_757_258, WIDEST_EQUATION),
    (Formula::MoonBefore, 2_860_000, 51_519_506_065_161_895_658_325, WIDEST_NEW_MOON),
    (Formula::Sun, 2_955_705, 23_128_950_733_080_271_394, WIDEST_SUN),
    (Formula::Moon, 2_955_705, 23_427_346_421_281_255_798, WIDEST_MOON),
    (Formula::Phase, 2_955_705, 298_395_688_200_984_404, WIDEST_PHASE),
    (Formula::Latitude, 2_955_705, -289_186_024_736_834_904, WIDEST_LATITUDE),
    (Formula::EquationOfTime, 2_955_705, -711_129_732_369_496, WIDEST_EQUATION),
    (Formula::MoonBefore, 2_955_705, 53_245_226_681_151_288_226_603, WIDEST_NEW_MOON),
    (Formula::Sun, 2_992_068, 20_174_252_291_754_489_851, WIDEST_SUN),
    (Formula::Moon, 2_992_068, 16_083_778_521_643_813_578, WIDEST_MOON),
    (Formula::Phase, 2_992_068, 21_850_260_083_543_380_686, WIDEST_PHASE),
    (Formula::Latitude, 2_992_068, -219_446_679_040_734_599, WIDEST_LATITUDE),
    (Formula::EquationOfTime, 2_992_068, -150_267_489_888_622, WIDEST_EQUATION),
    (Formula::MoonBefore, 2_992_068, 53_898_478_358_527_885_164_620, WIDEST_NEW_MOON),
];

#[test]
fn fine_values_are_those_of_the_reference(rt: HostRuntime) {
    for (formula, quarters, there, most) in VALUES {
        let (found, _) = counted::<Fine>(formula, quarters, 4);
        assert!(rt;
            is_fine(found, there, most),
            "{formula:?} at {quarters} / 4"
        );
    }
}

/// Places, days (R.D.) and sunset there, in 2⁻⁵⁶ of a day.
const SUNSETS: [(&Location, i64, i128); 6] = [
    (&CAIRO, 657_802, 47_399_674_938_981_930_689_250),
    (&TEHRAN, 657_802, 47_399_670_085_727_520_133_135),
    (&UJJAIN, 700_000, 50_440_357_136_330_582_208_018),
    (&CAIRO, 738_927, 53_245_348_938_577_702_369_018),
    (&TEHRAN, 748_017, 53_900_345_910_326_049_974_478),
    (&UJJAIN, 748_017, 53_900_342_464_580_806_560_881),
];

#[test]
fn fine_sunsets_are_those_of_the_reference(rt: HostRuntime) {
    for (location, day, there) in SUNSETS {
        let found = sunset::<Fine>(location, day, &mut Trail::new());
        assert!(rt; is_fine(found, there, WIDEST_SUNSET), "sunset on {day}");
    }
}
