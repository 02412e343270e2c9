//! The values of the definitions' types, each call once.
use book_model::{Fact, Frac, Kind, Place, Site, plain};
use std::process::Abort;
use std::test::Fail;

#[test]
fn fractions_keep_what_they_were_given(rt: HostRuntime) -> Result<(), Fail> {
    let half = Frac::new(-6, 12).ok_or("no fraction")?;
    assert_eq!(rt; (half.num(), half.den()), (-6, 12));
    assert_eq!(rt; Frac::new(1, 0), None);
    Ok(())
}

/// Kinds, places and days, and whether there is a fact of them.
#[rattlefmt::skip]
const FACTS: [(Kind, Place, i64, bool); 21] = [
    (Kind::Dt, Place::None, 738_926, true),
    (Kind::Dt, Place::None, -40_000_000, true),
    (Kind::Dt, Place::None, 40_000_001, false),
    (Kind::Dt, Place::Cairo, 738_926, false),
    (Kind::Sun, Place::None, 738_926, true),
    (Kind::NewMoonFrom, Place::None, 738_877, false),
    (Kind::NewMoonBefore, Place::None, 620_729, false),
    (Kind::NewMoonBefore, Place::None, 738_927, false),
    (Kind::NewMoonBefore, Place::None, 739_242, false),
    (Kind::NewMoonBefore, Place::None, 784_906, false),
    (Kind::Distance, Place::Cairo, 620_729, false),
    (Kind::Distance, Place::Cairo, 621_278, false),
    (Kind::Distance, Place::Cairo, 638_961, false),
    (Kind::Distance, Place::Cairo, 657_802, false),
    (Kind::Distance, Place::Cairo, 690_925, false),
    (Kind::Distance, Place::Cairo, 693_595, false),
    (Kind::Distance, Place::Cairo, 727_300, false),
    (Kind::Distance, Place::Cairo, 738_926, false),
    (Kind::Distance, Place::Cairo, 748_017, false),
    (Kind::Distance, Place::Cairo, 784_906, false),
    (Kind::Moonrise, Place::Haifa, 738_984, false),
];

/// Asserts whether there are facts.
fn assert_facts(rt: &impl Abort, rows: &[(Kind, Place, i64, bool)]) {
    for (kind, place, day, is_fact) in rows {
        let found = Fact::new(*kind, *place, *day);
        assert!(rt; found.is_some() == *is_fact, "{kind:?} {place:?} {day}");
    }
}

#[test]
fn facts_have_a_place_of_their_kind(rt: HostRuntime) -> Result<(), Fail> {
    assert_facts(&rt, &FACTS);
    let fact = Fact::new(Kind::Dt, Place::None, 738_926).ok_or("no fact")?;
    assert_eq!(rt;
        (fact.kind().name(), fact.place().name(), fact.day()),
        ("dt", "-", 738_926)
    );
    assert_eq!(rt; Kind::Sun.name(), "sun");
    Ok(())
}

#[test]
fn sites_are_numbered_and_named(rt: HostRuntime) {
    for (site, number, name) in [
        (Site::Year, 1, "year"),
        (Site::Search, 14, "search"),
        (Site::BisectEnd, 15, "bisect-end"),
        (Site::Sidereal, 21, "sidereal"),
        (Site::Rise, 22, "rise"),
    ] {
        assert_eq!(rt; (site.number(), site.name()), (number, name));
    }
}

/// Years, and their ΔT, where it is exact.
#[rattlefmt::skip]
const CORRECTIONS: [(i64, Option<i128>); 17] = [
    (1700, Some(811_878_084_200)),
    (1742, Some(1_181_550_166_280)),
    (1799, Some(1_445_506_483_340)),
    (1987, Some(5_531_642_921_893)),
    (2000, Some(6_386_000_000_000)),
    (2024, Some(7_387_134_400_000)),
    (2048, Some(9_126_121_600_000)),
    (2051, Some(9_503_800_000_000)),
    (2100, Some(20_274_000_000_000)),
    (2150, Some(32_848_000_000_000)),
    (-499, None),
    (0, None),
    (500, None),
    (1699, None),
    (1800, None),
    (1986, None),
    (2151, None),
];

/// Asserts values of ΔT that are exact.
fn assert_corrections(rt: &impl Abort, rows: &[(i64, Option<i128>)]) {
    for (year, units) in rows {
        assert_eq!(rt; plain::exact_correction(*year), *units, "year {year}");
    }
}

#[test]
fn corrections_are_exact(rt: HostRuntime) {
    assert_corrections(&rt, &CORRECTIONS);
}
