//! Lines of an input, what they ask, and the results over oracles with small lists. The rows under `tests/rows` have many
//! lines more, for each rule.
ghost use Rattle.std.specs.Prelude.{◌≡◌, IsTrue, length};
ghost use Rattle.oracle_core.specs.Pairs.{are_distinct, AreFactValues};

use super::facts::{french_year_on, nowruz_on};
use book_model::{Fact, Fields, FromWord, Kind, Place, Request, Resolved, Rule, ToWord};
use line_core::{
    ThreeWords, Version, checked_request, read_line, read_words, resolve, spaced_words,
    split_lines, three_words,
};
use oracle_core::{Listed, Oracle, Stop};
use std::alloc::Global;
use std::process::Abort;
use std::test::Fail;

#[test]
fn lines_end_with_line_feeds(rt: HostRuntime) -> Result<(), Fail> {
    let alloc = rt.alloc();
    let want: [&[u8]; 5] = [b"a", b"", b"\r", b"b\rc", b"d"];
    let lines = split_lines(alloc, b"a\r\n\n\r\r\nb\rc\nd\r")?;
    assert!(rt; lines.as_slice() == want.as_slice());
    let counts = (
        split_lines(alloc, b"")?.len(),
        split_lines(alloc, b"\n")?.len(),
    );
    assert!(rt; counts == (0, 1));
    Ok(())
}

/// ΔT of a date.
fn on(from: FromWord, count: u8, values: [i32; 5]) -> Request {
    Request {
        from,
        date: Fields { count, values },
        to: ToWord::Dt,
    }
}

/// Lines, with the calendar and the fields of a date whose ΔT they ask.
const LINES: [(&str, FromWord, u8, [i32; 5]); 3] = [
    (
        " \tgregorian\t 02024-002-0029\t\tdt \t",
        FromWord::Gregorian,
        3,
        [2024, 2, 29, 0, 0],
    ),
    (
        "fixed 0738926 dt",
        FromWord::Fixed,
        1,
        [738_926, 0, 0, 0, 0],
    ),
    (
        "persian 1402-12-31 dt",
        FromWord::Persian,
        3,
        [1402, 12, 31, 0, 0],
    ),
];

/// Lines, and the rule that they break.
const REFUSED: [(&str, Rule); 4] = [
    ("gregorian dt", Rule::Syntax),
    ("gregorian 2024-13-1 du", Rule::Calendar),
    ("gregorian 2023-2-29 dt", Rule::Field),
    ("gregorian 1801-12-31 dt", Rule::Range),
];

#[test]
fn a_line_is_a_request_or_breaks_a_rule(rt: HostRuntime) {
    for (line, from, count, values) in LINES {
        let want = Ok(on(from, count, values));
        assert!(rt; read_line(line.as_bytes(), Version::One) == want, "{line}");
    }
    for (line, rule) in REFUSED {
        assert!(rt;
            read_line(line.as_bytes(), Version::One) == Err(rule),
            "{line}"
        );
    }
    let (from, date) = (b"gregorian", b"2024-02-29");
    let words = ThreeWords {
        from,
        date,
        to: b"dt",
    };
    let unknown = ThreeWords {
        from,
        date,
        to: b"du",
    };
    let want = Ok(on(FromWord::Gregorian, 3, [2024, 2, 29, 0, 0]));
    assert!(rt; read_words(words, Version::One) == want);
    assert!(rt; read_words(unknown, Version::One) == Err(Rule::Calendar));
}

/// Requests of ΔT, and the rule of a version that they break.
#[rattlefmt::skip]
const REQUESTS: [(FromWord, [i32; 5], Version, Option<Rule>); 10] = [
    (FromWord::Gregorian, [2024, 2, 29, 0, 0], Version::One, None),
    (FromWord::Gregorian, [2023, 2, 29, 0, 0], Version::Two, Some(Rule::Field)),
    (FromWord::Gregorian, [1801, 12, 31, 0, 0], Version::One, Some(Rule::Range)),
    (FromWord::Gregorian, [1801, 12, 31, 0, 0], Version::Two, None),
    (FromWord::Gregorian, [1701, 12, 31, 0, 0], Version::Two, Some(Rule::Range)),
    (FromWord::Persian, [1428, 1, 1, 0, 0], Version::One, Some(Rule::Range)),
    (FromWord::Persian, [1428, 1, 1, 0, 0], Version::Two, None),
    (FromWord::Persian, [1528, 1, 1, 0, 0], Version::Two, Some(Rule::Range)),
    (FromWord::Korean, [1528, 1, 1, 0, 0], Version::One, Some(Rule::Calendar)),
    (FromWord::Korean, [1528, 1, 1, 0, 0], Version::Two, Some(Rule::Field)),
];

#[test]
fn a_request_breaks_the_rule_of_its_line(rt: HostRuntime) {
    for (from, values, version, rule) in REQUESTS {
        let request = on(from, 3, values);
        let want = match rule {
            Some(rule) => Err(rule),
            None => Ok(request),
        };
        assert!(rt; checked_request(&request, version) == want, "at {values:?}");
    }
}

/// Dates just outside and at the bounds of what each version answers: of version 2 the first date without an answer before its
/// range, and its first date; the same of version 1, whose range lies within; then the last ones likewise.
#[rattlefmt::skip]
const BOUNDS: [(&str, [&str; 8]); 9] = [
    ("gregorian", ["1701-12-31", "1702-01-01", "1801-12-31", "1802-01-01", "2048-12-31", "2049-01-01", "2148-12-31", "2149-01-01"]),
    ("fixed", ["621277", "621278", "657801", "657802", "748017", "748018", "784541", "784542"]),
    ("persian", ["1079-1-1", "1080-1-1", "1179-1-1", "1180-1-1", "1427-1-1", "1428-1-1", "1527-1-1", "1528-1-1"]),
    ("bahai", ["0-12-9-1-1", "0-12-10-1-1", "0-17-14-1-1", "0-17-15-1-1", "1-11-15-1-1", "1-11-16-1-1", "1-17-1-1-1", "1-17-2-1-1"]),
    ("chinese", ["73-17-1-0-1", "73-18-1-0-1", "74-57-1-0-1", "74-58-1-0-1", "79-5-1-0-1", "79-6-1-0-1", "80-45-1-0-1", "80-46-1-0-1"]),
    ("islamic", ["1112-1-1", "1113-1-1", "1215-1-1", "1216-1-1", "1471-1-1", "1472-1-1", "1574-1-1", "1575-1-1"]),
    ("hindu-solar", ["1622-1-1", "1623-1-1", "1722-1-1", "1723-1-1", "1970-1-1", "1971-1-1", "2070-1-1", "2071-1-1"]),
    ("hindu-lunar", ["1757-1-0-1-0", "1758-1-0-1-0", "1857-1-0-1-0", "1858-1-0-1-0", "2105-1-0-1-0", "2106-1-0-1-0", "2205-1-0-1-0", "2206-1-0-1-0"]),
    ("full-moon", ["1701-12-31", "1702-01-01", "1801-12-31", "1802-01-01", "2048-12-31", "2049-01-01", "2148-12-31", "2149-01-01"]),
];

/// At which of these dates version 1 and version 2 answer.
const ANSWERED: [(bool, bool); 8] = [
    (false, false),
    (false, true),
    (false, true),
    (true, true),
    (true, true),
    (false, true),
    (false, true),
    (false, false),
];

/// Dates at the bounds of what version 2 answers in the calendars that it alone has, each with whether it is answered.
#[rattlefmt::skip]
const LATER_BOUNDS: [(&str, bool); 12] = [
    ("french 1-1-1", true),
    ("french 357-13-6", true),
    ("french 358-1-1", false),
    ("french 9999-13-30", false),
    ("hebrew-observed 5461-13-30", false),
    ("hebrew-observed 5462-1-1", true),
    ("hebrew-observed 5909-13-30", true),
    ("hebrew-observed 5910-1-1", false),
    ("fixed 621278", true),
    ("fixed 654414", true),
    ("new-moon 1702-01-01", true),
    ("new-moon 1701-12-31", false),
];

/// Lines with a word that version 2 alone has, whose days lie before the French calendar or in it, and the rule that they break
/// in a file of version 2.
const FRENCH: [(&str, Option<Rule>); 9] = [
    ("gregorian 1792-09-21 french", Some(Rule::Range)),
    ("gregorian 1792-09-22 french", None),
    ("gregorian 1750-01-01 french", Some(Rule::Range)),
    ("gregorian 1750-01-01 hebrew-observed", None),
    ("fixed 654414 french", Some(Rule::Range)),
    ("fixed 654415 french", None),
    ("full-moon 1792-09-21 french", Some(Rule::Range)),
    ("full-moon 1792-09-22 french", None),
    ("persian 1100-1-1 french", None),
];

/// The rule of a version that a line breaks, if it breaks one.
fn broken(line: &str, version: Version) -> Option<Rule> {
    match read_line(line.as_bytes(), version) {
        Ok(_) => None,
        Err(rule) => Some(rule),
    }
}

/// The rules of version 1 and of version 2 that a line breaks are these.
pub fn assert_breaks(rt: &impl Abort, line: &str, by_one: Option<Rule>, by_two: Option<Rule>) {
    let found = (broken(line, Version::One), broken(line, Version::Two));
    assert!(rt; found == (by_one, by_two), "{line}");
}

/// What a line breaks that is answered, or isn't.
fn range_unless(is_answered: bool) -> Option<Rule> {
    if is_answered { None } else { Some(Rule::Range) }
}

#[test]
fn each_version_answers_its_own_years(rt: HostRuntime) -> Result<(), Fail> {
    for (from, dates) in BOUNDS {
        for place in 0..ANSWERED.len() {
            let (by_one, by_two) = ANSWERED[place];
            let line = format!(in rt.alloc(); "{from} {} dt", dates[place])?;
            assert_breaks(&rt, &line, range_unless(by_one), range_unless(by_two));
        }
    }
    Ok(())
}

#[test]
fn words_of_version_2_are_read_by_it_alone(rt: HostRuntime) -> Result<(), Fail> {
    let none = Some(Rule::Calendar);
    for (date, is_answered) in LATER_BOUNDS {
        let line = format!(in rt.alloc(); "{date} hebrew-observed")?;
        assert_breaks(&rt, &line, none, range_unless(is_answered));
    }
    for (line, by_two) in FRENCH {
        assert_breaks(&rt, line, none, by_two);
    }
    Ok(())
}

/// Lines, and whether they have three words and these with single spaces between them. Of other lines `spaced_words` says
/// nothing, though they may have three words.
const WORDS: [(&[u8], bool, bool); 5] = [
    (b" gregorian  2024-01-1\tdt", true, false),
    (b"gregorian 2024-01-1 dt", true, true),
    (b"gregorian\t2024-01-1 dt", true, false),
    (b"gregorian 2024-01-1 dt ", true, false),
    (b"gregorian dt", false, false),
];

/// Whether these are three words, and the right ones.
fn are_cut_out(rt: &impl Abort, words: Option<ThreeWords<'_>>) -> bool {
    let Some(words) = words else {
        return false;
    };
    let found = (words.from, words.date, words.to);
    let want = (
        b"gregorian".as_slice(),
        b"2024-01-1".as_slice(),
        b"dt".as_slice(),
    );
    assert!(rt; found == want);
    true
}

#[test]
fn words_are_cut_out(rt: HostRuntime) {
    for (line, three, spaced) in WORDS {
        let cut = (
            are_cut_out(&rt, three_words(line)),
            are_cut_out(&rt, spaced_words(line)),
        );
        assert!(rt; cut == (three, spaced), "{line:?}");
    }
}

/// A date that is shown.
pub fn resolved(to: ToWord, count: u8, values: [i32; 5]) -> Resolved {
    Resolved::Shown(to, Fields { count, values })
}

/// The result of a line over these facts, and how many of them are asked.
pub fn resolved_over(
    alloc: Global,
    line: &str,
    version: Version,
    facts: &[Fact],
    values: &[i64],
) -> Result<(Resolved, usize), Fail>
    requires same { length facts.now ≡ length values.now }
    requires distinct { IsTrue (are_distinct facts.now) }
    requires known { AreFactValues values.now }
{
    let mut oracle = Listed::new(alloc, facts, values);
    let request = read_line(line.as_bytes(), version).map_err(|_| "a line is refused")?;
    let resolved = resolve(&mut oracle, &request, version).map_err(|_| "a fact is missing")?;
    Ok((resolved, oracle.asked().len()))
}

#[test]
fn lines_ask_the_facts_that_they_need(rt: HostRuntime) -> Result<(), Fail> {
    let (alloc, one) = (rt.alloc(), Version::One);
    let day = (resolved(ToWord::Gregorian, 3, [2024, 2, 10, 0, 0]), 0);
    assert!(rt; resolved_over(alloc, "fixed 738926 gregorian", one, &[], &[])? == day);
    let number = (resolved(ToWord::Fixed, 1, [730_179, 0, 0, 0, 0]), 0);
    assert!(rt; resolved_over(alloc, "gregorian 2000-2-29 fixed", one, &[], &[])? == number);
    let fact = Fact::new(Kind::Dt, Place::None, 738_926).ok_or("no fact")?;
    let (facts, values) = ([fact], [73_871]);
    let correction = (resolved(ToWord::Dt, 1, [73_871, 0, 0, 0, 0]), 1);
    let found = resolved_over(alloc, "gregorian 2024-02-10 dt", one, &facts, &values)?;
    assert!(rt; found == correction);
    // At a missing fact a call returns early.
    let mut oracle = Listed::new(alloc, &[], &[]);
    let request = read_line(b"fixed 738926 dt", one).map_err(|_| "a line is refused")?;
    let asked = (resolve(&mut oracle, &request, one), oracle.ask(fact));
    assert!(rt; asked == (Err(Stop::Missing(fact)), Err(Stop::Missing(fact))));
    Ok(())
}

#[test]
fn a_day_is_too_far_by_its_version(rt: HostRuntime) -> Result<(), Fail> {
    let alloc = rt.alloc();
    let line = "persian 1427-10-12 gregorian";
    let (facts, values) = ([nowruz_on(747_911), nowruz_on(748_018)], [747_731, 747_731]);
    let by_one = resolved_over(alloc, line, Version::One, &facts, &values)?;
    assert!(rt; by_one == (Resolved::TooFar { day: 748_018 }, 1));
    let by_two = resolved_over(alloc, line, Version::Two, &facts, &values)?;
    let new_year = resolved(ToWord::Gregorian, 3, [2049, 1, 1, 0, 0]);
    assert!(rt; by_two == (new_year, 2));
    let line = "persian 1080-10-10 gregorian";
    let by_two = resolved_over(alloc, line, Version::Two, &[nowruz_on(621_172)], &[620_992])?;
    assert!(rt; by_two == (Resolved::TooFar { day: 621_277 }, 1));
    Ok(())
}

#[test]
fn a_day_before_the_french_calendar_is_too_far(rt: HostRuntime) -> Result<(), Fail> {
    let (alloc, two) = (rt.alloc(), Version::Two);
    let line = "persian 1100-1-1 french";
    let earlier = resolved_over(alloc, line, two, &[nowruz_on(628_477)], &[628_297])?;
    assert!(rt; earlier == (Resolved::TooFar { day: 628_297 }, 1));
    let line = "french 357-4-12 gregorian";
    let late = resolved_over(alloc, line, two, &[french_year_on(784_621)], &[784_441])?;
    assert!(rt; late == (Resolved::TooFar { day: 784_542 }, 1));
    let line = "french 4-13-6 gregorian";
    let facts = [french_year_on(655_690), french_year_on(655_876)];
    let no_date = resolved_over(alloc, line, two, &facts, &[655_511, 655_876])?;
    let back = Fields {
        count: 3,
        values: [5, 1, 1, 0, 0],
    };
    assert!(rt; no_date == (Resolved::NoDate { back }, 2));
    Ok(())
}
