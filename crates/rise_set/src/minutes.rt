//! The floor of a number to which a whole number is added, and moments rounded to minutes.
ghost use Rattle.book_model.specs.programs.Calls.{Decides1, Holds1};
ghost use Rattle.book_model.specs.programs.Widths.{IsAbout, IsClose, most_apart};
ghost use Rattle.std.specs.Int.{w128};
ghost use Rattle.std.specs.Prelude.{◌≡◌, ◌≤◌, ◌^◌, ◌*ℤ◌, ◌+ℤ◌, ◌-ℤ◌, ◌≤ℤ◌, ℕ, pos, neg_ℤ, FitsSigned, IfOk, IfErr, IfSome, IsSome};
ghost use Rattle.book_model.specs.numbers.Expressions.{add, integer};
ghost use Rattle.book_model.specs.sky.Horizon as spec;
ghost use Rattle.book_model.specs.programs.Programs.{answer, cell, integers};
ghost use Rattle.encl_core.specs.parts.TheConstants.{ONE};
ghost use Rattle.rise_set.specs.Moved.{AreMoved, AreOf128Bits, HasRoom, IsBeside, IsTooFar};
ghost use Rattle.rise_set.specs.Widths.{IsSettled};
ghost use Rattle.book_model.specs.sky.Facts.{IsFactDay};

use book_model::location_tables::{MINUTES, MINUTES_OF_DAY};
use book_model::tables::HALF;
use book_model::{Fail, Site, Undecided};
use encl_core::parts::ONE;
use encl_core::{Enclosure, Trail, floor_step};

/// A number in units of 2⁻⁵⁶ with a whole number added, where the sum fits 128 bits.
fn shifted_bound(end: i128, whole: i64) -> Option<i128>
    ensures end { IfSome result (λ e. e ≡ end +ℤ whole *ℤ ONE) }
    ensures found { FitsSigned w128 (end +ℤ whole *ℤ ONE) → IsSome result }
{
    end.checked_add(i128::from(whole) * ONE)
}

// The test is one of the sum, and so are its bounds.
/// The undecided test of a number, where a whole number is added to it; where a bound doesn't fit 128 bits any more, it is
/// an unbounded test.
fn shifted_by(at: Undecided, whole: i64) -> Undecided
    ensures turn { result.turn ≡ at.turn }
    ensures site { result.site ≡ at.site }
    ensures moved { AreMoved whole at.lo at.hi result.lo result.hi }
    ensures apart { HasRoom whole (Fail.Undecided at)
        → (result.hi -ℤ result.lo) ≡ at.hi -ℤ at.lo }
{
    let mut moved = Undecided {
        turn: at.turn,
        site: at.site,
        lo: i128::MIN,
        hi: i128::MAX,
    };
    if let Some(lo) = shifted_bound(at.lo, whole) {
        if let Some(hi) = shifted_bound(at.hi, whole) {
            moved.lo = lo;
            moved.hi = hi;
        }
    }
    moved
}

/// The failure of the test of a number, where a whole number is added to it.
fn shifted_failure(fail: Fail, whole: i64) -> Fail
    ensures beside { IsBeside whole fail result }
    ensures bits { AreOf128Bits result }
    ensures close { HasRoom whole fail → IsClose fail → IsClose result }
{
    match fail {
        Fail::Undecided(at) => Fail::Undecided(shifted_by(at, whole)),
        Fail::Void(site) => Fail::Void(site),
    }
}

/// The sum of two whole numbers; where it has more than 64 bits, the test of this number is undecided.
fn sum(whole: i64, floor: i64, site: Site, turn: u32) -> Result<i64, Fail>
    ensures decided { IfOk result (λ q. q ≡ whole +ℤ floor) }
    ensures far { IfErr result (IsTooFar site turn (whole +ℤ floor)) }
{
    match whole.checked_add(floor) {
        Some(sum) => Ok(sum),
        None => Err(Fail::Undecided(Undecided {
            turn,
            site,
            lo: i128::MIN,
            hi: i128::MAX,
        })),
    }
}

/// The floor of a whole number and an enclosed one, as one test of both: what is enclosed stays small, so that it is narrow.
#[tactic(auto)]
fn floor_of_shifted<E: Enclosure>(
    whole: i64,
    x: E,
    site: Site,
    trail: &mut Trail,
) -> Result<i64, Fail>
    ensures leads { Decides1 E.shown (λ e. cell site integers (add (integer whole) e) answer) x
        trail.old.count trail.new.count result }
    ensures close { (v : ℕ) → v ≤ most_apart site → IsAbout (2 ^ 90) v (E.shown x)
        → neg_ℤ (pos (2 ^ 40)) ≤ℤ whole → whole ≤ℤ pos (2 ^ 40) → IfErr result IsClose }
{
    match floor_step(x, site, trail) {
        Ok(floor) => sum(whole, floor, site, trail.count()),
        Err(fail) => Err(shifted_failure(fail, whole)),
    }
}

/// The minutes from the beginning of a day (R.D.) to a moment of it, and a half.
fn minutes_after<E: Enclosure>(day: i64, t: E) -> E
    ensures holds { Holds1 E.shown (spec.minutes_after_of day) t result }
    ensures measured { E.BITS ≡ 56 → IsFactDay day
        → IsSettled (E.shown t) → IsAbout (2 ^ 90) (2 ^ 43) (E.shown result) }
{
    t.sub(E::from_int(day))
        .mul_frac(MINUTES_OF_DAY)
        .add(E::from_frac(HALF))
}

// By the minutes of the day: 1440 times a moment (R.D.) doesn't fit a coarse enclosure, whose numbers are below
// 134,000,000.
/// The minutes from the day of R.D. 0 to a moment of a day, rounded: one test, at `round`.
#[tactic(auto, unfolding(book_model::specs::sky::Horizon::rounded_minutes_of))]
pub(crate) fn rounded_minutes<E: Enclosure>(day: i64, t: E, trail: &mut Trail) -> Result<i64, Fail>
    requires day { IsFactDay day }
    ensures leads { Decides1 E.shown (spec.rounded_minutes_of day) t trail.old.count trail.new.count
        result }
    ensures close { E.BITS ≡ 56 → IsSettled (E.shown t) → IfErr result IsClose }
{
    floor_of_shifted(
        i64::from(MINUTES) * day,
        minutes_after(day, t),
        Site::Round,
        trail,
    )
}
