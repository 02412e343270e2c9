//! What the planets add to a new moon.
ghost use Rattle.std.specs.Prelude.{◌≡◌, ◌^◌, pos, negsuc, ◌≤ℤ◌};
ghost use Rattle.book_model.specs.numbers.Fractions.{fraction_of};
ghost use Rattle.book_model.specs.programs.Calls.{Holds};
ghost use Rattle.book_model.specs.programs.Widths.{IsAbout};
ghost use Rattle.book_model.specs.sky.NewMoons as spec;
ghost use Rattle.new_moons.specs.Widths.{IsNearMonth};

use book_model::Frac;
use encl_core::Enclosure;
use periodic_terms::{Rate80, TurningTerm, Turns64, sum_of_periodic_terms};

/// The terms of the planets as they are summed: those of `PLANET_TERMS`, in the same order, by turns and months, which stand for days.
#[rattlefmt::skip]
pub const PLANET_TURNS: [TurningTerm; 13] = [
    TurningTerm { size: 165, phase: Turns64(12_906_571_936_905_449_613), rate: Rate80(54_807_995_283_139_896_556) },
    TurningTerm { size: 164, phase: Turns64(12_904_009_889_117_434_398), rate: Rate80(89_500_425_352_293_501_934_841) },
    TurningTerm { size: 126, phase: Turns64(17_904_614_761_765_532_015), rate: Rate80(122_277_735_584_304_592_505_963) },
    TurningTerm { size: 110, phase: Turns64(4_338_059_314_667_362_888), rate: Rate80(61_138_867_792_152_296_252_981) },
    TurningTerm { size: 62, phase: Turns64(7_262_893_069_465_532_905), rate: Rate80(179_000_847_346_459_727_162_380) },
    TurningTerm { size: 60, phase: Turns64(10_614_051_576_189_434_782), rate: Rate80(8_239_944_358_929_564_650_305) },
    TurningTerm { size: 56, phase: Turns64(7_934_149_589_925_519_367), rate: Rate80(24_537_365_873_081_525_920_815) },
    TurningTerm { size: 47, phase: Turns64(1_768_837_792_845_704_782), rate: Rate80(91_546_710_282_736_927_300_105) },
    TurningTerm { size: 42, phase: Turns64(10_616_613_623_977_449_998), rate: Rate80(409_100_497_357_590_512_720) },
    TurningTerm { size: 40, phase: Turns64(14_928_540_051_207_057_688), rate: Rate80(6_193_659_428_486_139_285_042) },
    TurningTerm { size: 37, phase: Turns64(8_286_687_365_556_413_020), rate: Rate80(81_260_480_993_363_937_284_535) },
    TurningTerm { size: 35, phase: Turns64(12_275_283_361_938_500_514), rate: Rate80(85_676_233_665_233_822_173_797) },
    TurningTerm { size: 23, phase: Turns64(16_988_938_882_328_893_995), rate: Rate80(12_064_132_687_861_967_704_047) },
];

/// A 57th of the sum of their sizes times their rates a month in degrees, in 2⁻³², rounded up: how far the sum moves in that at most.
const PLANET_SLOPE: u64 = 1_360_569_591_854;

/// The sum of their sizes, which count millionths of a day.
const PLANET_SIZES: u64 = 967;

/// A millionth.
#[inline(always)]
fn millionth() -> Frac
    ensures value { fraction_of result ≡ spec.millionths (pos 1) }
{
    Frac::new(1, 1_000_000).unwrap()
}

/// What the planets add by the number of the new moon, counted from that of January 2000, in days.
pub(crate) fn planet_terms<E: Enclosure>(number: i64) -> E
    requires low { negsuc 40049999 ≤ℤ number }
    requires high { number ≤ℤ pos 40050000 }
    ensures holds { Holds E.shown (spec.planet_terms_of number) result }
    ensures measured { E.BITS ≡ 56 → IsNearMonth number → IsAbout (2 ^ 40) (2 ^ 18) (E.shown result) }
{
    let months = E::from_int(number);
    sum_of_periodic_terms(&PLANET_TURNS, PLANET_SLOPE, PLANET_SIZES, months).mul_frac(millionth())
}
