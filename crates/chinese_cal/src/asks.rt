//! A fact asked of an oracle beside what is cached.
ghost use Rattle.std.specs.Prelude.{IfOk};
ghost use Rattle.book_model.specs.calendars.Inquiries.{ask_once};
ghost use Rattle.book_model.specs.sky.Facts.{IsFactValue};
ghost use Rattle.chinese_cal.specs.Keeping.{Keeps};
ghost use Rattle.oracle_core.specs.Asking.{Asks};

use crate::kept::Kept;
use book_model::Fact;
use oracle_core::{Oracle, Stop};

/// The value of a fact: the cached one, or else the oracle's, which is then cached. Where there is no room for it, the oracle
/// is asked each time. It returns early where the oracle does.
pub(crate) fn ask_kept<O: Oracle>(oracle: &mut O, kept: &mut Kept, fact: Fact) -> Result<i64, Stop>
    requires kept { Keeps O.Oracle oracle.old kept.old }
    ensures asks { Asks O.Oracle (ask_once fact) oracle.old oracle.new result }
    ensures kept { Keeps O.Oracle oracle.new kept.new }
    ensures value { IfOk result IsFactValue }
{
    if let Some(value) = kept.find(fact) {
        return Ok(value);
    }
    let value = oracle.ask(fact)?;
    kept.keep(fact, value);
    Ok(value)
}
