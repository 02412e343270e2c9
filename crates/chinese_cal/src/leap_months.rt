//! The leap month of a sui. Months are named by the day on which they begin (R.D.).
ghost use Rattle.book_model.specs.calendars.Chinese as spec;
ghost use Rattle.chinese_cal.specs.Days.{IsNearDay};
ghost use Rattle.chinese_cal.specs.Keeping.{Keeps};
ghost use Rattle.oracle_core.specs.Asking.{Asks};

use crate::asks::ask_kept;
use crate::facts::moon_before;
use crate::kept::Kept;
use crate::walk::{is_bare, prior};
use oracle_core::{Oracle, Stop};

/// Whether a month of a sui is its leap month or comes after it, given whether the sui has one. It returns early where
/// the oracle does.
#[tactic(auto, using(oracle_core::proofs::Inquiring::asking), unfolding(book_model::specs::calendars::Chinese::is_from_leap_month))]
pub(crate) fn is_from_leap_month<O: Oracle>(
    oracle: &mut O,
    kept: &mut Kept,
    leap_sui: bool,
    first: i64,
    month: i64,
) -> Result<bool, Stop>
    requires kept { Keeps O.Oracle oracle.old kept.old }
    requires first_near { IsNearDay first }
    requires near { IsNearDay month }
    ensures from { Asks O.Oracle (spec.is_from_leap_month leap_sui first month)
        oracle.old oracle.new result }
    ensures kept { Keeps O.Oracle oracle.new kept.new }
{
    if leap_sui {
        prior(oracle, kept, first, month)
    } else {
        Ok(false)
    }
}

/// Whether a month of a sui is its leap month, given whether the sui has one: it has no major term, and each before it
/// has one. It returns early where the oracle does.
pub(crate) fn is_leap_month<O: Oracle>(
    oracle: &mut O,
    kept: &mut Kept,
    leap_sui: bool,
    first: i64,
    month: i64,
) -> Result<bool, Stop>
    requires kept { Keeps O.Oracle oracle.old kept.old }
    requires first_near { IsNearDay first }
    requires near { IsNearDay month }
    ensures leap { Asks O.Oracle (spec.is_leap_month leap_sui first month)
        oracle.old oracle.new result }
    ensures kept { Keeps O.Oracle oracle.new kept.new }
{
    if !leap_sui {
        return Ok(false);
    }
    if !is_bare(oracle, kept, month)? {
        return Ok(false);
    }
    let before = ask_kept(oracle, kept, moon_before(month))?;
    // It walks anew, over cached facts alone: this walk and the first would agree on one list of
    // months only where the first ended before its fifteenth call.
    let found = prior(oracle, kept, first, before)?;
    Ok(!found)
}
