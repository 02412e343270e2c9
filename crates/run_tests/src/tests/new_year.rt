//! An example for programs that stand on the crates, which docs/LIBRARY.md shows: the day of a Chinese new year.
ghost use Rattle.std.specs.Prelude.{pos};
ghost use Rattle.book_model.specs.calendars.Chinese.{chinese_day};
ghost use Rattle.oracle_core.specs.Asking.{Asks};

use chinese_cal::{ChineseDate, to_fixed};
use fact_eval::Staged;
use oracle_core::{Asking, Oracle, Stop};
use std::test::Fail;

/// The day (R.D.) with which the year 44 of the cycle 78 begins, in 2027, by what an oracle answers.
#[tactic(auto, unfolding(book_model::specs::calendars::Dates::may_have, book_model::specs::calendars::Dates::has_some_year, book_model::specs::calendars::Dates::year_number))]
fn new_year<O: Oracle>(oracle: &mut O) -> Result<i64, Stop>
    ensures day { Asks O.Oracle (chinese_day (pos 78) (pos 44) (pos 1) (pos 0) (pos 1)) oracle.old
        oracle.new result }
{
    let first = ChineseDate {
        cycle: 78,
        year: 44,
        month: 1,
        leap: false,
        day: 1,
    };
    to_fixed(oracle, first)
}

#[test]
fn the_year_begins_on_6_february(rt: HostRuntime) -> Result<(), Fail> {
    let evaluator = Staged::new();
    let mut oracle = Asking::new(rt.alloc(), &evaluator);
    let day = new_year(&mut oracle);
    assert!(rt; matches!(day, Ok(740_018)));
    Ok(())
}
