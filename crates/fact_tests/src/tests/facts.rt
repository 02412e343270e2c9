//! The evaluator against an independent implementation of the formulas.
use super::answers::{assert_facts, is_void};
use book_model::{Fact, Kind, Place, Site};
use fact_eval::Staged;
use oracle_core::{Asking, Oracle, Stop};
use std::test::Fail;

/// Facts and their values.
#[rattlefmt::skip]
const VALUES: [(Kind, Place, i64, i64); 187] = [
    // Values of ΔT, in milliseconds.
    (Kind::Dt, Place::None, 620_729, 8_119),
    (Kind::Dt, Place::None, 621_278, 8_122),
    (Kind::Dt, Place::None, 638_961, 12_873),
    (Kind::Dt, Place::None, 657_071, 14_455),
    (Kind::Dt, Place::None, 657_072, 13_623),
    (Kind::Dt, Place::None, 657_802, 12_874),
    (Kind::Dt, Place::None, 693_595, -2_277),
    (Kind::Dt, Place::None, 693_596, -1_549),
    (Kind::Dt, Place::None, 725_371, 55_553),
    (Kind::Dt, Place::None, 725_372, 55_316),
    (Kind::Dt, Place::None, 730_272, 63_860),
    (Kind::Dt, Place::None, 732_311, 64_721),
    (Kind::Dt, Place::None, 732_312, 65_054),
    (Kind::Dt, Place::None, 738_926, 73_871),
    (Kind::Dt, Place::None, 748_017, 91_261),
    (Kind::Dt, Place::None, 748_382, 92_126),
    (Kind::Dt, Place::None, 748_747, 93_001),
    (Kind::Dt, Place::None, 748_748, 95_038),
    (Kind::Dt, Place::None, 766_645, 202_740),
    (Kind::Dt, Place::None, 784_541, 323_143),
    (Kind::Dt, Place::None, 784_906, 325_808),
    // Longitudes of the sun, in thousandths of a degree.
    (Kind::Sun, Place::None, 620_729, 98_980),
    (Kind::Sun, Place::None, 657_802, 279_936),
    (Kind::Sun, Place::None, 738_965, 359_871),
    (Kind::Sun, Place::None, 738_966, 864),
    (Kind::Sun, Place::None, 748_017, 279_973),
    (Kind::Sun, Place::None, 784_906, 279_446),
    // New years of Persia.
    (Kind::Nowruz, Place::None, 620_729, 620_627),
    (Kind::Nowruz, Place::None, 621_278, 620_992),
    (Kind::Nowruz, Place::None, 657_253, 657_151),
    (Kind::Nowruz, Place::None, 657_880, 657_516),
    (Kind::Nowruz, Place::None, 657_881, 657_881),
    (Kind::Nowruz, Place::None, 658_246, 657_881),
    (Kind::Nowruz, Place::None, 658_247, 658_247),
    (Kind::Nowruz, Place::None, 664_455, 664_091),
    (Kind::Nowruz, Place::None, 664_456, 664_456),
    (Kind::Nowruz, Place::None, 682_352, 681_987),
    (Kind::Nowruz, Place::None, 682_353, 682_353),
    (Kind::Nowruz, Place::None, 693_674, 693_310),
    (Kind::Nowruz, Place::None, 693_675, 693_675),
    (Kind::Nowruz, Place::None, 702_805, 702_441),
    (Kind::Nowruz, Place::None, 702_806, 702_806),
    (Kind::Nowruz, Place::None, 711_936, 711_572),
    (Kind::Nowruz, Place::None, 711_938, 711_937),
    (Kind::Nowruz, Place::None, 728_737, 728_373),
    (Kind::Nowruz, Place::None, 728_738, 728_738),
    (Kind::Nowruz, Place::None, 730_198, 729_834),
    (Kind::Nowruz, Place::None, 730_399, 730_199),
    (Kind::Nowruz, Place::None, 738_599, 738_235),
    (Kind::Nowruz, Place::None, 738_600, 738_600),
    (Kind::Nowruz, Place::None, 738_964, 738_600),
    (Kind::Nowruz, Place::None, 738_965, 738_965),
    (Kind::Nowruz, Place::None, 739_330, 738_965),
    (Kind::Nowruz, Place::None, 739_331, 739_331),
    (Kind::Nowruz, Place::None, 740_790, 740_426),
    (Kind::Nowruz, Place::None, 740_791, 740_791),
    (Kind::Nowruz, Place::None, 747_730, 747_366),
    (Kind::Nowruz, Place::None, 747_731, 747_731),
    (Kind::Nowruz, Place::None, 748_382, 748_096),
    (Kind::Nowruz, Place::None, 784_541, 784_255),
    (Kind::Nowruz, Place::None, 784_906, 784_621),
    // New moons.
    (Kind::NewMoonFrom, Place::Beijing, 738_877, 738_896),
    (Kind::NewMoonBefore, Place::Beijing, 620_729, 620_715),
    (Kind::NewMoonBefore, Place::Beijing, 738_927, 738_926),
    (Kind::NewMoonBefore, Place::Beijing, 739_242, 739_221),
    (Kind::NewMoonBefore, Place::Beijing, 784_906, 784_905),
    // Solstices and terms.
    (Kind::Solstice, Place::Beijing, 620_903, 620_903),
    (Kind::Solstice, Place::Beijing, 693_961, 693_951),
    (Kind::Solstice, Place::Beijing, 704_187, 704_178),
    (Kind::Solstice, Place::Beijing, 738_875, 738_511),
    (Kind::Solstice, Place::Beijing, 738_876, 738_876),
    (Kind::Solstice, Place::Beijing, 739_240, 738_876),
    (Kind::Solstice, Place::Beijing, 739_241, 739_241),
    (Kind::Solstice, Place::Beijing, 748_382, 748_372),
    (Kind::Solstice, Place::Beijing, 784_906, 784_897),
    (Kind::Major, Place::Beijing, 620_729, 5),
    (Kind::Major, Place::Beijing, 657_253, 5),
    (Kind::Major, Place::Beijing, 738_926, 12),
    (Kind::Major, Place::Beijing, 738_955, 1),
    (Kind::Major, Place::Beijing, 739_014, 3),
    (Kind::Major, Place::Beijing, 742_529, 11),
    (Kind::Major, Place::Beijing, 742_558, 11),
    (Kind::Major, Place::Beijing, 748_382, 11),
    (Kind::Major, Place::Beijing, 784_906, 11),
    (Kind::MajorTerm, Place::Beijing, 738_886, 738_905),
    (Kind::MajorTerm, Place::Beijing, 738_977, 738_995),
    (Kind::MajorTerm, Place::Beijing, 739_221, 739_241),
    (Kind::MinorTerm, Place::Beijing, 738_886, 738_891),
    (Kind::MinorTerm, Place::Beijing, 738_977, 738_980),
    (Kind::MinorTerm, Place::Beijing, 739_221, 739_226),
    // The days of the moon, and first visibilities.
    (Kind::NewMoon, Place::None, 739_004, 738_984),
    (Kind::FirstQuarter, Place::None, 738_973, 738_962),
    (Kind::FullMoon, Place::None, 738_973, 738_970),
    (Kind::LastQuarter, Place::None, 738_973, 738_948),
    (Kind::Phasis, Place::Cairo, 738_956, 738_927),
    (Kind::Phasis, Place::Cairo, 738_957, 738_957),
    // Distances of the moon, in kilometres.
    (Kind::Distance, Place::None, 620_729, 400_285),
    (Kind::Distance, Place::None, 621_278, 388_039),
    (Kind::Distance, Place::None, 638_961, 365_506),
    (Kind::Distance, Place::None, 657_802, 372_688),
    (Kind::Distance, Place::None, 690_925, 363_245),
    (Kind::Distance, Place::None, 693_595, 372_858),
    (Kind::Distance, Place::None, 727_300, 368_409),
    (Kind::Distance, Place::None, 738_926, 358_680),
    (Kind::Distance, Place::None, 748_017, 369_830),
    (Kind::Distance, Place::None, 784_906, 400_347),
    // Risings and settings of the moon, in minutes; -1 where it doesn't rise or set.
    (Kind::Moonrise, Place::Cairo, 620_729, 1141),
    (Kind::Moonrise, Place::Cairo, 657_802, 217),
    (Kind::Moonrise, Place::Cairo, 725_336, 37),
    (Kind::Moonrise, Place::Cairo, 738_984, 315),
    (Kind::Moonrise, Place::Cairo, 738_990, 582),
    (Kind::Moonrise, Place::Cairo, 739_006, -1),
    (Kind::Moonrise, Place::Cairo, 784_906, 468),
    (Kind::Moonrise, Place::Tehran, 620_729, 1162),
    (Kind::Moonrise, Place::Tehran, 657_802, 240),
    (Kind::Moonrise, Place::Tehran, 725_336, 42),
    (Kind::Moonrise, Place::Tehran, 738_886, 1326),
    (Kind::Moonrise, Place::Tehran, 738_989, 515),
    (Kind::Moonrise, Place::Tehran, 739_005, -1),
    (Kind::Moonrise, Place::Tehran, 784_906, 492),
    (Kind::Moonrise, Place::Ujjain, 620_729, 1131),
    (Kind::Moonrise, Place::Ujjain, 657_802, 201),
    (Kind::Moonrise, Place::Ujjain, 725_336, 43),
    (Kind::Moonrise, Place::Ujjain, 738_886, 1329),
    (Kind::Moonrise, Place::Ujjain, 738_990, 603),
    (Kind::Moonrise, Place::Ujjain, 739_006, -1),
    (Kind::Moonrise, Place::Ujjain, 784_906, 454),
    (Kind::Moonset, Place::Cairo, 620_729, 307),
    (Kind::Moonset, Place::Cairo, 657_802, 845),
    (Kind::Moonset, Place::Cairo, 725_336, 810),
    (Kind::Moonset, Place::Cairo, 738_984, 1090),
    (Kind::Moonset, Place::Cairo, 738_990, -1),
    (Kind::Moonset, Place::Cairo, 739_006, 612),
    (Kind::Moonset, Place::Cairo, 784_906, 1106),
    (Kind::Moonset, Place::Tehran, 620_729, 300),
    (Kind::Moonset, Place::Tehran, 657_802, 833),
    (Kind::Moonset, Place::Tehran, 725_336, 818),
    (Kind::Moonset, Place::Tehran, 738_886, 645),
    (Kind::Moonset, Place::Tehran, 738_989, -1),
    (Kind::Moonset, Place::Tehran, 739_005, 531),
    (Kind::Moonset, Place::Tehran, 784_906, 1095),
    (Kind::Moonset, Place::Ujjain, 620_729, 316),
    (Kind::Moonset, Place::Ujjain, 657_802, 858),
    (Kind::Moonset, Place::Ujjain, 725_336, 807),
    (Kind::Moonset, Place::Ujjain, 738_886, 624),
    (Kind::Moonset, Place::Ujjain, 738_990, -1),
    (Kind::Moonset, Place::Ujjain, 739_006, 625),
    (Kind::Moonset, Place::Ujjain, 784_906, 1116),
    // French years.
    (Kind::FrenchYear, Place::None, 621_278, 621_178),
    (Kind::FrenchYear, Place::None, 654_414, 654_050),
    (Kind::FrenchYear, Place::None, 654_415, 654_415),
    (Kind::FrenchYear, Place::None, 654_779, 654_415),
    (Kind::FrenchYear, Place::None, 654_780, 654_780),
    (Kind::FrenchYear, Place::None, 655_510, 655_145),
    (Kind::FrenchYear, Place::None, 655_511, 655_511),
    (Kind::FrenchYear, Place::None, 690_574, 690_574),
    (Kind::FrenchYear, Place::None, 720_623, 720_524),
    (Kind::FrenchYear, Place::None, 739_150, 738_786),
    (Kind::FrenchYear, Place::None, 739_151, 739_151),
    (Kind::FrenchYear, Place::None, 745_359, 744_995),
    (Kind::FrenchYear, Place::None, 745_360, 745_360),
    (Kind::FrenchYear, Place::None, 774_580, 774_579),
    (Kind::FrenchYear, Place::None, 784_441, 784_441),
    (Kind::FrenchYear, Place::None, 784_541, 784_441),
    (Kind::FrenchYear, Place::None, 784_906, 784_806),
    // Months of Haifa.
    (Kind::Phasis, Place::Haifa, 620_729, 620_717),
    (Kind::Phasis, Place::Haifa, 621_278, 621_277),
    (Kind::Phasis, Place::Haifa, 657_802, 657_778),
    (Kind::Phasis, Place::Haifa, 690_925, 690_910),
    (Kind::Phasis, Place::Haifa, 738_957, 738_957),
    (Kind::Phasis, Place::Haifa, 738_986, 738_986),
    (Kind::Phasis, Place::Haifa, 738_987, 738_986),
    (Kind::Phasis, Place::Haifa, 748_017, 747_993),
    (Kind::Phasis, Place::Haifa, 784_541, 784_523),
    (Kind::Phasis, Place::Haifa, 784_906, 784_877),
    (Kind::Nisan, Place::Haifa, 620_729, 620_983),
    (Kind::Nisan, Place::Haifa, 621_278, 621_366),
    (Kind::Nisan, Place::Haifa, 654_516, 654_588),
    (Kind::Nisan, Place::Haifa, 690_925, 691_118),
    (Kind::Nisan, Place::Haifa, 720_259, 720_324),
    (Kind::Nisan, Place::Haifa, 730_120, 730_187),
    (Kind::Nisan, Place::Haifa, 738_521, 738_602),
    (Kind::Nisan, Place::Haifa, 738_886, 738_957),
    (Kind::Nisan, Place::Haifa, 739_252, 739_341),
    (Kind::Nisan, Place::Haifa, 783_811, 783_902),
    (Kind::Nisan, Place::Haifa, 784_176, 784_257),
    (Kind::Nisan, Place::Haifa, 784_541, 784_611),
];

/// Facts of years of which ΔT is not known. The last winter solstice before the days that are told here fell in 1699.
#[rattlefmt::skip]
const VOID: [(Kind, Place, i64); 21] = [
    (Kind::NewMoonBefore, Place::Beijing, 620_728),
    (Kind::Solstice, Place::Beijing, 620_729),
    (Kind::Solstice, Place::Beijing, 620_902),
    (Kind::Distance, Place::None, 784_907),
    (Kind::Moonset, Place::Ujjain, 784_907),
    (Kind::FrenchYear, Place::None, 620_729),
    (Kind::Dt, Place::None, -40_000_000),
    (Kind::Sun, Place::None, -40_000_000),
    (Kind::Nowruz, Place::None, -40_000_000),
    (Kind::Dt, Place::None, 0),
    (Kind::Sun, Place::None, 0),
    (Kind::Nowruz, Place::None, 0),
    (Kind::Dt, Place::None, 620_728),
    (Kind::Sun, Place::None, 620_728),
    (Kind::Nowruz, Place::None, 620_728),
    (Kind::Dt, Place::None, 784_907),
    (Kind::Sun, Place::None, 784_907),
    (Kind::Nowruz, Place::None, 784_907),
    (Kind::Dt, Place::None, 40_000_000),
    (Kind::Sun, Place::None, 40_000_000),
    (Kind::Nowruz, Place::None, 40_000_000),
];

#[test]
fn facts_are_those_of_the_reference(rt: HostRuntime) {
    let staged = Staged::new();
    assert_facts(&rt, &staged, &VALUES);
    for (kind, place, day) in VOID {
        assert!(rt;
            is_void(&staged, kind, place, day),
            "{} {} {day}",
            kind.name(),
            place.name()
        );
    }
}

#[test]
fn asked_facts_are_stored_once(rt: HostRuntime) -> Result<(), Fail> {
    let alloc = rt.alloc();
    let staged = Staged::new();
    let mut asking = Asking::new(alloc, &staged);
    let fact = Fact::new(Kind::Dt, Place::None, 738_926).ok_or("no fact")?;
    let other = Fact::new(Kind::Dt, Place::None, 0).ok_or("no fact")?;
    assert_eq!(rt; asking.ask(fact), Ok(73_871));
    assert_eq!(rt; asking.ask(other), Err(Stop::Void(other, Site::Year)));
    assert_eq!(rt; asking.ask(fact), Ok(73_871));
    assert_eq!(rt; asking.asked().len(), 1);
    let stored = asking.finish();
    assert_eq!(rt; stored.len(), 1);
    assert_eq!(rt; *stored.item(0), (fact, 73_871));
    Ok(())
}
