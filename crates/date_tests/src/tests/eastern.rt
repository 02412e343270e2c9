//! Vietnamese, Korean and Japanese dates over tables in memory, each compared with an independent implementation, and the words
//! for them by version.
use super::facts::{major_term, moon_before, moon_from, nowruz_on, solstice_on};
use super::lines::{assert_breaks, resolved, resolved_over};
use book_model::{Place, Resolved, Rule, ToWord};
use line_core::Version;
use moved_oracle::Moved;
use oracle_core::{Listed, Oracle};
use std::alloc::Global;
use std::test::Fail;

/// The result of a line over facts of January 1985 in Hanoi and of February 1985 in Beijing, and how many of them are asked: the
/// year of Hanoi began a month before that of Beijing.
fn in_1985(alloc: Global, line: &str) -> Result<(Resolved, usize), Fail> {
    let facts = [
        solstice_on(724_662).at(Place::Hanoi),
        solstice_on(725_001).at(Place::Hanoi),
        moon_from(724_632).at(Place::Hanoi),
        moon_before(724_998).at(Place::Hanoi),
        moon_before(724_663).at(Place::Hanoi),
        moon_before(724_662).at(Place::Hanoi),
        moon_before(724_632).at(Place::Hanoi),
        major_term(724_632).at(Place::Hanoi),
        moon_from(724_633).at(Place::Hanoi),
        major_term(724_662).at(Place::Hanoi),
        moon_from(724_663).at(Place::Hanoi),
        major_term(724_692).at(Place::Hanoi),
        solstice_on(724_692),
        solstice_on(725_002),
        moon_from(724_633),
        moon_before(724_998),
        moon_before(724_693),
    ];
    let values = [
        724_631, 724_997, 724_632, 724_987, 724_662, 724_632, 724_603, 11, 724_662, 12, 724_692, 1,
        724_632, 724_997, 724_662, 724_987, 724_692,
    ];
    resolved_over(alloc, line, Version::Two, &facts, &values)
}

/// The same over facts of the new year of 2007 in Hanoi.
fn in_2007(alloc: Global, line: &str) -> Result<(Resolved, usize), Fail> {
    let facts = [
        solstice_on(732_903).at(Place::Hanoi),
        solstice_on(733_037).at(Place::Hanoi),
        moon_from(732_668).at(Place::Hanoi),
        moon_from(732_696).at(Place::Hanoi),
        moon_before(733_033).at(Place::Hanoi),
        moon_from(732_724).at(Place::Hanoi),
        solstice_on(732_724).at(Place::Hanoi),
        moon_before(732_725).at(Place::Hanoi),
    ];
    let values = [
        732_667, 733_032, 732_695, 732_724, 733_020, 732_724, 732_667, 732_724,
    ];
    resolved_over(alloc, line, Version::Two, &facts, &values)
}

/// The same over facts of the new year of 1997 in Seoul, and in Tokyo.
fn in_1997(alloc: Global, line: &str) -> Result<(Resolved, usize), Fail> {
    let facts = [
        solstice_on(729_250).at(Place::Seoul),
        solstice_on(729_384).at(Place::Seoul),
        moon_from(729_015).at(Place::Seoul),
        moon_from(729_034).at(Place::Seoul),
        moon_before(729_381).at(Place::Seoul),
        moon_from(729_063).at(Place::Seoul),
        solstice_on(729_063).at(Place::Seoul),
        moon_before(729_064).at(Place::Seoul),
        solstice_on(729_250).at(Place::Tokyo),
        solstice_on(729_384).at(Place::Tokyo),
        moon_from(729_015).at(Place::Tokyo),
        moon_from(729_034).at(Place::Tokyo),
        moon_before(729_381).at(Place::Tokyo),
        moon_from(729_063).at(Place::Tokyo),
        solstice_on(729_063).at(Place::Tokyo),
        moon_before(729_064).at(Place::Tokyo),
    ];
    let values = [
        729_014, 729_380, 729_033, 729_063, 729_358, 729_063, 729_014, 729_063, 729_014, 729_380,
        729_033, 729_063, 729_358, 729_063, 729_014, 729_063,
    ];
    resolved_over(alloc, line, Version::Two, &facts, &values)
}

#[test]
fn dates_go_by_the_sky_of_their_place(rt: HostRuntime) -> Result<(), Fail> {
    let alloc = rt.alloc();
    let new_year = [78, 2, 1, 0, 1];
    let vietnamese = (resolved(ToWord::Vietnamese, 5, new_year), 12);
    assert!(rt; in_1985(alloc, "gregorian 1985-01-21 vietnamese")? == vietnamese);
    let chinese = (resolved(ToWord::Chinese, 5, new_year), 5);
    assert!(rt; in_1985(alloc, "gregorian 1985-02-20 chinese")? == chinese);
    let day = (resolved(ToWord::Gregorian, 3, [2007, 2, 17, 0, 0]), 8);
    assert!(rt; in_2007(alloc, "vietnamese 78-24-1-0-1 gregorian")? == day);
    let day = (resolved(ToWord::Gregorian, 3, [1997, 2, 8, 0, 0]), 8);
    for line in [
        "korean 78-14-1-0-1 gregorian",
        "japanese 78-14-1-0-1 gregorian",
    ] {
        assert!(rt; in_1997(alloc, line)? == day, "{line}");
    }
    Ok(())
}

#[test]
fn facts_of_beijing_alone_are_moved(rt: HostRuntime) {
    let (fact, hanoi) = (solstice_on(738_926), Place::Hanoi);
    let facts = [
        fact.at(hanoi),
        fact.at(Place::Seoul),
        fact,
        nowruz_on(738_926),
    ];
    let mut table = Listed::new(rt.alloc(), &facts, &[1, 2, 3, 4]);
    let mut moved = Moved::new(&mut table, hanoi);
    let values = (
        moved.ask(fact),
        moved.ask(fact.at(Place::Seoul)),
        moved.ask(nowruz_on(738_926)),
    );
    assert!(rt; values == (Ok(1), Ok(2), Ok(4)));
    assert!(rt; table.asked().len() == 3);
}

/// Dates of each of the eastern calendars, and the rule that they break in a file of version 2.
const DATES: [(&str, Option<Rule>); 5] = [
    ("73-17-1-0-1", Some(Rule::Range)),
    ("73-18-1-0-1", None),
    ("80-45-1-0-1", None),
    ("80-46-1-0-1", Some(Rule::Range)),
    ("78-41-13-0-1", Some(Rule::Field)),
];

#[test]
fn version_1_has_none_of_the_words(rt: HostRuntime) -> Result<(), Fail> {
    let none = Some(Rule::Calendar);
    for word in ["vietnamese", "korean", "japanese"] {
        for (date, by_two) in DATES {
            let line = format!(in rt.alloc(); "{word} {date} gregorian")?;
            assert_breaks(&rt, &line, none, by_two);
        }
        let line = format!(in rt.alloc(); "gregorian 2024-02-10 {word}")?;
        assert_breaks(&rt, &line, none, None);
    }
    Ok(())
}
