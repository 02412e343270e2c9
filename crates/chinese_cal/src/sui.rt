//! The sui of a day: the months from one winter solstice to the next. Days are R.D.
ghost use Rattle.std.specs.Prelude.{◌≡◌, ◌≤ℤ◌, pos, negsuc, IfOk};
ghost use Rattle.std.specs.Ordering.{int_eq};
ghost use Rattle.book_model.specs.calendars.Chinese.{months_between, sui_of as sui_on, is_leap_sui as is_leap};
ghost use Rattle.chinese_cal.specs.Days.{IsNearDay, IsNearSui};
ghost use Rattle.chinese_cal.specs.Keeping.{Keeps};
ghost use Rattle.oracle_core.specs.Asking.{Asks};

use crate::asks::ask_kept;
use crate::facts::{moon_after, moon_until, next_solstice, solstice_on};
use crate::kept::Kept;
use book_model::Sui;
use calendar_math::months_of_days;
use oracle_core::{Oracle, Stop};

/// The number of synodic months that is nearest to the days from one day to another.
#[tactic(auto, unfolding(book_model::specs::calendars::Chinese::months_between))]
pub(crate) fn months_from_to(from: i64, to: i64) -> i64
    requires from_near { IsNearDay from }
    requires to_near { IsNearDay to }
    ensures months { result ≡ months_between from to }
    ensures low { negsuc 999999 ≤ℤ result }
    ensures high { result ≤ℤ pos 1000000 }
{
    months_of_days(to - from)
}

/// Whether twelve months lie between two days.
fn are_twelve_apart(from: i64, to: i64) -> bool
    requires from_near { IsNearDay from }
    requires to_near { IsNearDay to }
    ensures twelve { result ≡ int_eq (months_between from to) (pos 12) }
{
    months_from_to(from, to) == 12
}

/// The sui in which a day falls. It returns early where the oracle does, at one of the two solstices or at the new moon
/// after the first.
pub(crate) fn sui_of<O: Oracle>(oracle: &mut O, kept: &mut Kept, day: i64) -> Result<Sui, Stop>
    requires kept { Keeps O.Oracle oracle.old kept.old }
    requires near { IsNearDay day }
    ensures sui { Asks O.Oracle (sui_on day) oracle.old oracle.new result }
    ensures near { IfOk result IsNearSui }
    ensures kept { Keeps O.Oracle oracle.new kept.new }
{
    let solstice = ask_kept(oracle, kept, solstice_on(day))?;
    let next = ask_kept(oracle, kept, next_solstice(solstice))?;
    let first = ask_kept(oracle, kept, moon_after(solstice))?;
    Ok(Sui {
        first_month: first,
        next_solstice: next,
    })
}

/// Whether a sui has thirteen months, the two of its solstices counted as one. It returns early where the oracle does, at
/// the month of the second solstice.
pub(crate) fn is_leap_sui<O: Oracle>(
    oracle: &mut O,
    kept: &mut Kept,
    sui: Sui,
) -> Result<bool, Stop>
    requires kept { Keeps O.Oracle oracle.old kept.old }
    requires near { IsNearSui sui }
    ensures leap { Asks O.Oracle (is_leap sui) oracle.old oracle.new result }
    ensures kept { Keeps O.Oracle oracle.new kept.new }
{
    let eleventh = ask_kept(oracle, kept, moon_until(sui.next_solstice))?;
    Ok(are_twelve_apart(sui.first_month, eleventh))
}
