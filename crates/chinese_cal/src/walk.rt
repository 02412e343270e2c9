//! The walk over the months of a sui: back from a month to the first, and forwards as far as one without a major term. Months
//! are named by the day on which they begin (R.D.).
//!
//! The definition is the plain recursion, where a fact that it names twice stands twice. A lemma (`prior_is_walk`) says
//! that the two are one inquiry, whatever the values: so nothing is asked of the gaps between months, which are 29 or
//! 30 days in the sky, and any number in a false table.
ghost use Rattle.std.specs.Prelude.{◌≡◌, ◌≤◌, ◌+◌, All, length};
ghost use Rattle.std.specs.Ordering.{int_eq};
ghost use Rattle.book_model.specs.calendars.Chinese as spec;
ghost use Rattle.chinese_cal.specs.Days.{IsNearDay};
ghost use Rattle.chinese_cal.specs.Keeping.{Keeps};
ghost use Rattle.chinese_cal.specs.Walks.{months_back, one_bare};
ghost use Rattle.oracle_core.specs.Asking.{Asks};

use crate::asks::ask_kept;
use crate::facts::{major_term, moon_after, moon_before};
use crate::kept::Kept;
use crate::months_back::{MOST_MONTHS, Months};
use oracle_core::{Oracle, Stop};

/// Whether two numbers of terms are the same.
fn is_same_term(term: i64, next_term: i64) -> bool
    ensures same { result ≡ int_eq term next_term }
{
    term == next_term
}

/// Whether a month has no major solar term: the sun is at the same one when the next month begins. It returns early where the
/// oracle does, at one of the two terms or at the next month.
pub(crate) fn is_bare<O: Oracle>(oracle: &mut O, kept: &mut Kept, month: i64) -> Result<bool, Stop>
    requires kept { Keeps O.Oracle oracle.old kept.old }
    requires near { IsNearDay month }
    ensures bare { Asks O.Oracle (spec.bare month) oracle.old oracle.new result }
    ensures kept { Keeps O.Oracle oracle.new kept.new }
{
    let term = ask_kept(oracle, kept, major_term(month))?;
    let next = ask_kept(oracle, kept, moon_after(month))?;
    let next_term = ask_kept(oracle, kept, major_term(next))?;
    Ok(is_same_term(term, next_term))
}

/// A month, and those before it as far as the first of its sui, put before the months after it; so many at most. It returns
/// early where the oracle does.
fn walk_back<O: Oracle>(
    oracle: &mut O,
    kept: &mut Kept,
    calls: u32,
    first: i64,
    month: i64,
    later: Months,
) -> Result<Months, Stop>
    requires kept { Keeps O.Oracle oracle.old kept.old }
    requires first_near { IsNearDay first }
    requires near { IsNearDay month }
    requires room { calls + length later ≤ 15 }
    ensures back { Asks O.Oracle (months_back calls first month later)
        oracle.old oracle.new result }
    ensures kept { Keeps O.Oracle oracle.new kept.new }
{
    if calls == 0 {
        return Ok(later);
    }
    if month < first {
        return Ok(later);
    }
    let before = ask_kept(oracle, kept, moon_before(month))?;
    walk_back(
        oracle,
        kept,
        calls - 1,
        first,
        before,
        later.with_earlier(month),
    )
}

/// Whether one of the months has no major term: they are looked at from the first on, as far as one without. It returns early
/// where the oracle does.
fn is_one_bare<O: Oracle>(oracle: &mut O, kept: &mut Kept, months: &[i64]) -> Result<bool, Stop>
    requires kept { Keeps O.Oracle oracle.old kept.old }
    requires near { All IsNearDay months.now }
    ensures bare { Asks O.Oracle (one_bare months.now) oracle.old oracle.new result }
    ensures kept { Keeps O.Oracle oracle.new kept.new }
{
    match months {
        [] => Ok(false),
        [month, later @ ..] => {
            if is_bare(oracle, kept, *month)? {
                return Ok(true);
            }
            is_one_bare(oracle, kept, later)
        }
    }
}

/// Whether a month, or one of those before it as far as the first of its sui, has no major term. The months are walked back
/// over first, and then looked at from the earliest on. It returns early where the oracle does.
pub(crate) fn prior<O: Oracle>(
    oracle: &mut O,
    kept: &mut Kept,
    first: i64,
    month: i64,
) -> Result<bool, Stop>
    requires kept { Keeps O.Oracle oracle.old kept.old }
    requires first_near { IsNearDay first }
    requires near { IsNearDay month }
    ensures prior { Asks O.Oracle (spec.prior 15 first month) oracle.old oracle.new result }
    ensures kept { Keeps O.Oracle oracle.new kept.new }
{
    let months = walk_back(
        oracle,
        kept,
        MOST_MONTHS as u32,
        first,
        month,
        Months::new(),
    )?;
    is_one_bare(oracle, kept, months.days())
}
