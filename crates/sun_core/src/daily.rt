//! Rates a century times the time, by days, so that the rounding of the centuries isn't multiplied by a rate.
//!
//! The two units of rounding of a quotient would else be multiplied by some 36,000, or 480,000 for the moon. The
//! definitions keep the centuries; a law that scaling by two numbers in turn is scaling by their product (`Scalings`)
//! joins the two.
ghost use Rattle.book_model.specs.programs.Calls.{Encloses1, Holds1, Narrows1};
ghost use Rattle.std.specs.Prelude.{◌≡◌, ◌*◌, ◌<◌, MatchOption, true, false};
ghost use Rattle.sun_core.specs.Daily.{has_daily, by_days, by_centuries};

use book_model::Frac;
use book_model::time_tables::DAY_IN_CENTURIES;
use encl_core::Enclosure;

// No table has a greater one; with it the centuries would be taken.
/// The greatest denominator of a rate a century whose rate a day has one in 64 bits, in round figures: 36,525 times it is 1.83 · 10¹⁹, and
/// 2⁶⁴ is 1.84 · 10¹⁹.
const GREATEST_DENOMINATOR: u64 = 500_000_000_000_000;

/// A rate a century as a rate a day, where its denominator fits.
#[inline(always)]
#[tactic(auto, unfolding(crate::specs::Daily::has_daily))]
fn daily(rate: Frac) -> Option<Frac>
    ensures daily { MatchOption result (has_daily rate ≡ false)
        (λ f. (has_daily rate ≡ true) × (0 < rate.den) × (f.num ≡ rate.num)
        × (f.den ≡ rate.den * 36525)) }
{
    if 0 < rate.den() && rate.den() <= GREATEST_DENOMINATOR {
        Frac::new(rate.num(), rate.den() * 36_525)
    } else {
        None
    }
}

// By itself and never inlined: with its two products `times_rate` would grow so large that the compiler drops its hint without a word,
// and then no denominator there is known.
/// A rate a century times the days in centuries, as of a rate whose denominator a day doesn't fit.
#[inline(never)]
#[tactic(auto, unfolding(crate::specs::Daily::by_centuries, crate::specs::Daily::in_centuries))]
fn rate_by_centuries<E: Enclosure>(days: E, rate: Frac) -> E
    ensures encloses { Encloses1 E.shown E.BITS (by_centuries rate) days result }
{
    days.mul_frac(DAY_IN_CENTURIES).mul_frac(rate)
}

/// A rate a century times the days from noon of 1 January 2000.
#[inline(always)]
pub fn times_rate<E: Enclosure>(days: E, rate: Frac) -> E
    ensures holds { Holds1 E.shown (by_centuries rate) days result }
    ensures narrow { Narrows1 E.shown E.BITS (by_days rate) days result }
{
    match daily(rate) {
        Some(rate) => days.mul_frac(rate),
        None => rate_by_centuries(days, rate),
    }
}
