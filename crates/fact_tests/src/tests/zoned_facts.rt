//! Facts of places whose time changed, which go by the hours of their day. Values and numbers of tests are those of an independent
//! implementation.
use book_model::{Fact, Kind, Place};
use encl_core::{Coarse, Trail};
use fact_eval::evaluate;
use std::process::Abort;

/// Facts on the last day before each change and on that day, and on days near it whose facts would have another value by the hours of
/// the other side: the value of each, and how many tests it makes.
#[rattlefmt::skip]
const FACTS: [(Kind, Place, i64, i64, u32); 113] = [
    (Kind::Solstice, Place::Hanoi, 711_117, 710_752, 13),
    (Kind::Solstice, Place::Hanoi, 711_482, 711_118, 16),
    (Kind::Solstice, Place::Hanoi, 718_431, 718_422, 13),
    (Kind::Solstice, Place::Hanoi, 718_432, 718_422, 13),
    (Kind::Solstice, Place::Hanoi, 723_170, 723_170, 13),
    (Kind::Solstice, Place::Hanoi, 723_171, 723_170, 13),
    (Kind::Major, Place::Hanoi, 714_587, 4, 3),
    (Kind::Major, Place::Hanoi, 714_711, 8, 3),
    (Kind::Major, Place::Hanoi, 718_431, 11, 3),
    (Kind::Major, Place::Hanoi, 718_432, 11, 3),
    (Kind::Major, Place::Hanoi, 719_794, 8, 3),
    (Kind::Major, Place::Hanoi, 720_950, 10, 3),
    (Kind::NewMoonBefore, Place::Hanoi, 718_402, 718_372, 21),
    (Kind::NewMoonBefore, Place::Hanoi, 718_403, 718_402, 21),
    (Kind::NewMoonBefore, Place::Hanoi, 718_431, 718_402, 21),
    (Kind::NewMoonBefore, Place::Hanoi, 718_432, 718_431, 21),
    (Kind::NewMoonBefore, Place::Hanoi, 718_461, 718_460, 21),
    (Kind::NewMoonFrom, Place::Hanoi, 718_401, 718_402, 19),
    (Kind::NewMoonFrom, Place::Hanoi, 718_402, 718_402, 19),
    (Kind::NewMoonFrom, Place::Hanoi, 718_431, 718_431, 19),
    (Kind::NewMoonFrom, Place::Hanoi, 718_432, 718_460, 19),
    (Kind::NewMoonFrom, Place::Hanoi, 718_459, 718_460, 19),
    (Kind::NewMoonFrom, Place::Hanoi, 718_460, 718_460, 19),
    (Kind::Solstice, Place::Seoul, 696_607, 696_508, 13),
    (Kind::Solstice, Place::Seoul, 696_608, 696_508, 13),
    (Kind::Solstice, Place::Seoul, 697_977, 697_969, 16),
    (Kind::Solstice, Place::Seoul, 697_978, 697_969, 16),
    (Kind::Solstice, Place::Seoul, 713_397, 713_309, 13),
    (Kind::Solstice, Place::Seoul, 713_398, 713_309, 13),
    (Kind::Solstice, Place::Seoul, 714_039, 714_039, 13),
    (Kind::Solstice, Place::Seoul, 714_040, 714_039, 13),
    (Kind::Solstice, Place::Seoul, 714_404, 714_039, 13),
    (Kind::Solstice, Place::Seoul, 716_096, 715_866, 16),
    (Kind::Solstice, Place::Seoul, 716_097, 715_866, 16),
    (Kind::Solstice, Place::Seoul, 726_092, 725_727, 13),
    (Kind::Solstice, Place::Seoul, 726_093, 726_093, 16),
    (Kind::Major, Place::Seoul, 686_252, 10, 3),
    (Kind::Major, Place::Seoul, 696_607, 2, 3),
    (Kind::Major, Place::Seoul, 696_608, 2, 3),
    (Kind::Major, Place::Seoul, 697_977, 11, 3),
    (Kind::Major, Place::Seoul, 697_978, 11, 3),
    (Kind::Major, Place::Seoul, 698_364, 11, 3),
    (Kind::Major, Place::Seoul, 701_407, 3, 3),
    (Kind::Major, Place::Seoul, 711_819, 9, 3),
    (Kind::Major, Place::Seoul, 711_999, 3, 3),
    (Kind::Major, Place::Seoul, 713_397, 1, 3),
    (Kind::Major, Place::Seoul, 713_398, 1, 3),
    (Kind::Major, Place::Seoul, 713_429, 3, 3),
    (Kind::Major, Place::Seoul, 713_888, 6, 3),
    (Kind::Major, Place::Seoul, 715_560, 1, 3),
    (Kind::Major, Place::Seoul, 716_048, 5, 3),
    (Kind::Major, Place::Seoul, 716_096, 6, 3),
    (Kind::Major, Place::Seoul, 716_097, 6, 3),
    (Kind::Major, Place::Seoul, 716_476, 6, 3),
    (Kind::Major, Place::Seoul, 717_633, 8, 3),
    (Kind::NewMoonBefore, Place::Seoul, 695_012, 694_983, 21),
    (Kind::NewMoonBefore, Place::Seoul, 695_013, 694_983, 21),
    (Kind::NewMoonBefore, Place::Seoul, 696_607, 696_579, 21),
    (Kind::NewMoonBefore, Place::Seoul, 696_608, 696_579, 21),
    (Kind::NewMoonBefore, Place::Seoul, 697_168, 697_139, 22),
    (Kind::NewMoonBefore, Place::Seoul, 697_169, 697_139, 22),
    (Kind::NewMoonBefore, Place::Seoul, 697_977, 697_967, 22),
    (Kind::NewMoonBefore, Place::Seoul, 697_978, 697_967, 22),
    (Kind::NewMoonBefore, Place::Seoul, 700_507, 700_477, 23),
    (Kind::NewMoonBefore, Place::Seoul, 700_508, 700_507, 23),
    (Kind::NewMoonBefore, Place::Seoul, 712_849, 712_821, 23),
    (Kind::NewMoonBefore, Place::Seoul, 712_850, 712_821, 23),
    (Kind::NewMoonBefore, Place::Seoul, 713_397, 713_382, 23),
    (Kind::NewMoonBefore, Place::Seoul, 713_398, 713_382, 23),
    (Kind::NewMoonBefore, Place::Seoul, 716_096, 716_069, 24),
    (Kind::NewMoonBefore, Place::Seoul, 716_097, 716_069, 24),
    (Kind::NewMoonBefore, Place::Seoul, 718_550, 718_520, 24),
    (Kind::NewMoonBefore, Place::Seoul, 718_551, 718_550, 24),
    (Kind::NewMoonFrom, Place::Seoul, 694_982, 694_983, 19),
    (Kind::NewMoonFrom, Place::Seoul, 694_983, 694_983, 19),
    (Kind::NewMoonFrom, Place::Seoul, 696_607, 696_608, 20),
    (Kind::NewMoonFrom, Place::Seoul, 696_608, 696_608, 20),
    (Kind::NewMoonFrom, Place::Seoul, 697_138, 697_139, 20),
    (Kind::NewMoonFrom, Place::Seoul, 697_139, 697_139, 20),
    (Kind::NewMoonFrom, Place::Seoul, 697_977, 697_996, 21),
    (Kind::NewMoonFrom, Place::Seoul, 697_978, 697_996, 21),
    (Kind::NewMoonFrom, Place::Seoul, 700_478, 700_507, 21),
    (Kind::NewMoonFrom, Place::Seoul, 700_506, 700_507, 21),
    (Kind::NewMoonFrom, Place::Seoul, 712_820, 712_821, 21),
    (Kind::NewMoonFrom, Place::Seoul, 712_821, 712_821, 21),
    (Kind::NewMoonFrom, Place::Seoul, 713_397, 713_411, 22),
    (Kind::NewMoonFrom, Place::Seoul, 713_398, 713_411, 22),
    (Kind::NewMoonFrom, Place::Seoul, 716_096, 716_098, 22),
    (Kind::NewMoonFrom, Place::Seoul, 716_097, 716_098, 22),
    (Kind::NewMoonFrom, Place::Seoul, 718_521, 718_550, 22),
    (Kind::NewMoonFrom, Place::Seoul, 718_549, 718_550, 22),
    (Kind::Solstice, Place::Tokyo, 689_212, 689_203, 13),
    (Kind::Solstice, Place::Tokyo, 689_213, 689_203, 13),
    (Kind::Solstice, Place::Tokyo, 689_933, 689_933, 13),
    (Kind::Solstice, Place::Tokyo, 689_934, 689_933, 13),
    (Kind::Major, Place::Tokyo, 679_431, 1, 3),
    (Kind::Major, Place::Tokyo, 687_713, 9, 3),
    (Kind::Major, Place::Tokyo, 689_212, 11, 3),
    (Kind::Major, Place::Tokyo, 689_213, 11, 3),
    (Kind::Major, Place::Tokyo, 689_479, 8, 3),
    (Kind::Major, Place::Tokyo, 689_934, 11, 3),
    (Kind::NewMoonBefore, Place::Tokyo, 687_896, 687_868, 21),
    (Kind::NewMoonBefore, Place::Tokyo, 687_897, 687_868, 21),
    (Kind::NewMoonBefore, Place::Tokyo, 689_212, 689_196, 21),
    (Kind::NewMoonBefore, Place::Tokyo, 689_213, 689_196, 21),
    (Kind::NewMoonBefore, Place::Tokyo, 691_530, 691_529, 21),
    (Kind::NewMoonBefore, Place::Tokyo, 691_558, 691_529, 21),
    (Kind::NewMoonFrom, Place::Tokyo, 687_867, 687_868, 19),
    (Kind::NewMoonFrom, Place::Tokyo, 687_868, 687_868, 19),
    (Kind::NewMoonFrom, Place::Tokyo, 689_212, 689_225, 19),
    (Kind::NewMoonFrom, Place::Tokyo, 689_213, 689_225, 19),
    (Kind::NewMoonFrom, Place::Tokyo, 691_501, 691_529, 19),
    (Kind::NewMoonFrom, Place::Tokyo, 691_528, 691_529, 19),
];

/// Whether the formula of a fact has a value, by so many tests.
fn is_counted(kind: Kind, place: Place, day: i64, value: i64, tests: u32) -> bool {
    let Some(fact) = Fact::new(kind, place, day) else {
        return false;
    };
    let mut trail = Trail::new();
    match evaluate::<Coarse>(fact, &mut trail) {
        Ok(found) => found == value && trail.count() == tests,
        Err(_) => false,
    }
}

/// Asserts values of facts, and how many tests each makes.
fn assert_counted(rt: &impl Abort, rows: &[(Kind, Place, i64, i64, u32)]) {
    for (kind, place, day, value, tests) in rows {
        assert!(rt;
            is_counted(*kind, *place, *day, *value, *tests),
            "{} {} {day}",
            kind.name(),
            place.name()
        );
    }
}

#[test]
fn facts_go_by_the_time_of_their_place(rt: HostRuntime) {
    assert_counted(&rt, &FACTS);
}
