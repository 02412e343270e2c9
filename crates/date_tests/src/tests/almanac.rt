//! Lines of an almanac and of a year in the eastern calendars as they are given elsewhere, and all lines of these and of a sample
//! in their order.
ghost use Rattle.std.specs.Prelude.{◌≤◌};

use almanac_core::{
    almanac_line, almanac_requests, east_line, east_requests, sample_line, sample_requests,
};
use book_model::{Fields, FromWord, Request, ToWord};
use std::process::Abort;
use std::test::Fail;

fn request(from: FromWord, count: u8, values: [i32; 5], to: ToWord) -> Request {
    Request {
        from,
        date: Fields { count, values },
        to,
    }
}

/// Lines of the almanac of 2024, by their numbers.
#[rattlefmt::skip]
const ALMANAC: [(u32, FromWord, u8, [i32; 5], ToWord); 11] = [
    (1, FromWord::Chinese, 5, [78, 41, 1, 0, 1], ToWord::Gregorian),
    (2, FromWord::Chinese, 5, [78, 41, 5, 0, 5], ToWord::Gregorian),
    (3, FromWord::MinorTerm, 3, [2024, 3, 30, 0, 0], ToWord::Gregorian),
    (5, FromWord::Bahai, 5, [1, 10, 10, 1, 1], ToWord::Gregorian),
    (7, FromWord::HinduLunar, 5, [2081, 1, 0, 1, 0], ToWord::Gregorian),
    (8, FromWord::Islamic, 3, [1445, 6, 1, 0, 0], ToWord::Gregorian),
    (20, FromWord::Islamic, 3, [1446, 6, 1, 0, 0], ToWord::Gregorian),
    (44, FromWord::MajorTerm, 3, [2024, 12, 15, 0, 0], ToWord::Gregorian),
    (47, FromWord::FullMoon, 3, [2024, 1, 28, 0, 0], ToWord::Gregorian),
    (92, FromWord::LastQuarter, 3, [2024, 12, 28, 0, 0], ToWord::Gregorian),
    (104, FromWord::Gregorian, 3, [2024, 12, 1, 0, 0], ToWord::SunsetCairo),
];

/// Lines of 2007 in the eastern calendars, by their numbers.
#[rattlefmt::skip]
const EAST: [(u32, FromWord, u8, [i32; 5], ToWord); 8] = [
    (1, FromWord::Chinese, 5, [78, 24, 1, 0, 1], ToWord::Gregorian),
    (2, FromWord::Vietnamese, 5, [78, 24, 1, 0, 1], ToWord::Gregorian),
    (3, FromWord::Korean, 5, [78, 24, 1, 0, 1], ToWord::Gregorian),
    (4, FromWord::Japanese, 5, [78, 24, 1, 0, 1], ToWord::Gregorian),
    (5, FromWord::Gregorian, 3, [2007, 1, 15, 0, 0], ToWord::Chinese),
    (6, FromWord::Gregorian, 3, [2007, 1, 15, 0, 0], ToWord::Vietnamese),
    (11, FromWord::Gregorian, 3, [2007, 2, 15, 0, 0], ToWord::Korean),
    (52, FromWord::Gregorian, 3, [2007, 12, 15, 0, 0], ToWord::Japanese),
];

/// The number of a line, of so many lines.
fn numbered(rt: &impl Abort, index: u32, count: u32) -> u32
    ensures from { 1 ≤ result }
    ensures to { result ≤ count }
{
    assert!(rt; 1 <= index);
    assert!(rt; index <= count);
    index
}

#[test]
fn lines_of_an_almanac_and_of_the_east(rt: HostRuntime) {
    for (index, from, count, values, to) in ALMANAC {
        let want = request(from, count, values, to);
        let found = almanac_line(2024, numbered(&rt, index, 104));
        assert!(rt; found == want, "line {index}");
    }
    for (index, from, count, values, to) in EAST {
        let want = request(from, count, values, to);
        let found = east_line(2007, numbered(&rt, index, 52));
        assert!(rt; found == want, "line {index}");
    }
    let want = request(FromWord::Japanese, 5, [73, 20, 1, 0, 1], ToWord::Gregorian);
    assert!(rt; east_line(1703, 4) == want);
}

/// The first of some requests, the last, and how many there are.
fn endpoints(requests: &[Request]) -> (Option<&Request>, Option<&Request>, usize) {
    (requests.first(), requests.last(), requests.len())
}

#[test]
fn requests_stand_in_their_order(rt: HostRuntime) -> Result<(), Fail> {
    let almanac = almanac_requests(rt.alloc(), 2024)?;
    let (first, last) = (almanac_line(2024, 1), almanac_line(2024, 104));
    assert!(rt; endpoints(&almanac) == (Some(&first), Some(&last), 104));
    let east = east_requests(rt.alloc(), 2007)?;
    let (first, last) = (east_line(2007, 1), east_line(2007, 52));
    assert!(rt; endpoints(&east) == (Some(&first), Some(&last), 52));
    let sample = sample_requests(rt.alloc(), 2, 1)?;
    let (first, state) = sample_line(1, 0);
    let (second, _) = sample_line(state, 1);
    assert!(rt; sample.as_slice() == [first, second].as_slice());
    let sample = sample_requests(rt.alloc(), 2, 0)?;
    let first = request(FromWord::Fixed, 1, [717_633, 0, 0, 0, 0], ToWord::Dt);
    assert!(rt; (sample.first(), sample.len()) == (Some(&first), 2));
    Ok(())
}
