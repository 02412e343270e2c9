//! The moments of a day at which the moon is looked at.
ghost use Rattle.book_model.specs.numbers.Fractions.{fraction_of};
ghost use Rattle.book_model.specs.programs.Calls.{Encloses, Holds, Narrows};
ghost use Rattle.book_model.specs.sky.Facts.{IsValueDay};
ghost use Rattle.book_model.specs.sky.Time.{zone_on as zone_of_day};
ghost use Rattle.moon_rise.specs.Computed as computed;
ghost use Rattle.book_model.specs.sky.Moonrise.{moment_of};
ghost use Rattle.moon_rise.specs.Moments.{AreHours, HasOneYear};
ghost use Rattle.moon_rise.specs.Widths.{IsExact};
ghost use Rattle.std.specs.Prelude.{◌≡◌, ◌≤◌, ℕ};

use book_model::{Frac, Place};
use encl_core::Enclosure;
use time_scales::zone_on;

/// The sixteenths of a quarter of an hour of a day, and of an hour.
const SIXTEENTHS_OF_DAY: u64 = 1536;

const SIXTEENTHS_OF_HOUR: i128 = 64;

/// How far the moment of a number of a day is from the day's number, in days, as one fraction: so many sixteenths of a quarter of an
/// hour, less the hours of the zone.
fn shift(zone: Frac, moment: u32) -> Frac
    requires few { moment ≤ 1536 }
    requires hours { AreHours zone }
    ensures shift { fraction_of result ≡ computed.shift_of zone moment }
{
    let sixteenths = i128::from(moment) * i128::from(zone.den());
    Frac::new(
        sixteenths - SIXTEENTHS_OF_HOUR * zone.num(),
        SIXTEENTHS_OF_DAY * zone.den(),
    )
    .unwrap()
}

/// The moment of a number of a day (R.D.) by the hours of the zone, in universal time: 1536 are a day.
#[tactic(auto, unfolding(crate::specs::Computed::computed_moment_of))]
fn moment_by<E: Enclosure>(zone: Frac, day: i64, moment: u32) -> E
    requires few { moment ≤ 1536 }
    requires hours { AreHours zone }
    ensures encloses { Encloses E.shown E.BITS (computed.computed_moment_of zone day moment) result }
{
    E::from_int(day).add(E::from_frac(shift(zone, moment)))
}

/// The moment of a number of a day (R.D.) at a place, in universal time. Where it is the day's number itself, the enclosure is exactly
/// that; any other lies inside one day. So the year of a moment is never undecided.
#[tactic(auto, using(crate::proofs::DayMoments::hours_small))]
pub(crate) fn moment_at<E: Enclosure>(place: Place, day: i64, moment: u32) -> E
    requires few { moment ≤ 1536 }
    ensures holds { Holds E.shown (moment_of place day moment) result }
    ensures narrow { Narrows E.shown E.BITS
        (computed.computed_moment_of (zone_of_day place day) day moment) result }
    ensures measured { E.BITS ≡ 56 → IsValueDay day → IsExact (E.shown result) }
    ensures in_year { 36 ≤ E.BITS → E.BITS ≤ 56 → IsValueDay day → HasOneYear (E.shown result) }
{
    moment_by::<E>(zone_on(place, day), day, moment)
}

/// The moments of a day (R.D.) at a place, in universal time, from the one of a number to the one of another.
#[tactic(auto, using(crate::proofs::DayMoments::hours_small))]
pub(crate) fn moments_over<E: Enclosure>(place: Place, day: i64, from: u32, to: u32) -> E
    requires order { from ≤ to }
    requires few { to ≤ 1536 }
    ensures holds { (i : ℕ) → from ≤ i → i ≤ to → Holds E.shown (moment_of place day i) result }
{
    let zone = zone_on(place, day);
    moment_by::<E>(zone, day, from).hull(moment_by::<E>(zone, day, to))
}
