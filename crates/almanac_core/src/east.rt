//! The lines of a year in the Chinese, the Vietnamese, the Korean and the Japanese calendar.
ghost use Rattle.std.specs.Prelude.{◌≡◌, ◌≤◌, ◌<◌, IfOk};
ghost use Rattle.almanac_core.specs.East as spec;
ghost use Rattle.book_model.specs.calendars.Versions.{IsAlmanacYear};
ghost use Rattle.book_model.specs.lines.Requests.{AreSpelled};

use crate::almanac::chinese_day;
use crate::numbers::three_fields;
use book_model::{FromWord, Request, ToWord};
use std::alloc::{AllocError, Global};

/// How many lines a year has.
const LINES: u32 = 52;

/// The word before a date of one of the four calendars, by its index from 0.
#[tactic(auto, unfolding(crate::specs::East::dated_at))]
fn dated_at(index: u32) -> FromWord
    ensures word { result ≡ spec.dated_at index }
{
    match index {
        0 => FromWord::Chinese,
        1 => FromWord::Vietnamese,
        2 => FromWord::Korean,
        _ => FromWord::Japanese,
    }
}

/// The word for what is shown in one of the four calendars, by its index from 0.
#[tactic(auto, unfolding(crate::specs::East::shown_at))]
fn shown_at(index: u32) -> ToWord
    ensures word { result ≡ spec.shown_at index }
{
    match index {
        0 => ToWord::Chinese,
        1 => ToWord::Vietnamese,
        2 => ToWord::Korean,
        _ => ToWord::Japanese,
    }
}

/// The line of the 15th of a month in one of the four calendars, by its index from 0 to 47.
#[tactic(auto, unfolding(crate::specs::East::month_middle_of))]
fn month_middle(year: u32, index: u32) -> Request
    requires year { IsAlmanacYear year }
    requires few { index < 48 }
    ensures request { result ≡ spec.month_middle_of year index }
{
    Request {
        from: FromWord::Gregorian,
        date: three_fields(year, index / 4 + 1, 15),
        to: shown_at(index % 4),
    }
}

/// A line of a Gregorian year, 1703 to 2147, in the eastern calendars, by its index, 1 to 52: from 1 the Chinese, the Vietnamese, the
/// Korean and the Japanese new year, and from 5 the dates of the 15th of each month in these four. It takes no memory.
#[tactic(auto, unfolding(crate::specs::East::east_line_of))]
pub fn east_line(year: u32, index: u32) -> Request
    requires year { IsAlmanacYear year }
    requires index_from { 1 ≤ index }
    requires index_to { index ≤ 52 }
    ensures request { result ≡ spec.east_line_of year index }
{
    if index < 5 {
        chinese_day(dated_at(index - 1), year, 1, 1)
    } else {
        month_middle(year, index - 5)
    }
}

/// The 52 lines of a Gregorian year, 1703 to 2147, in the eastern calendars, in their order. The error comes where memory runs out.
pub fn east_requests(alloc: Global, year: u32) -> Result<Vec<Request>, AllocError>
    requires year { IsAlmanacYear year }
    ensures requests { IfOk result (λ requests. requests.items ≡ spec.east_requests year) }
    ensures spelled { IfOk result (λ requests. AreSpelled requests.items) }
{
    let mut requests = Vec::with_capacity(alloc, LINES as usize)?;
    for passed in 0..LINES {
        requests.push(east_line(year, passed + 1))?;
    }
    Ok(requests)
}
