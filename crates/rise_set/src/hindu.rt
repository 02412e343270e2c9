//! Sunrise and sunset as the Hindu calendars take them, at Ujjain.
ghost use Rattle.book_model.specs.programs.Calls.{Encloses, Follows};
ghost use Rattle.book_model.specs.programs.Widths.{IsMoment, Measured, IsSince};
ghost use Rattle.std.specs.Prelude.{◌≡◌, ◌*◌, ◌^◌, ◌≤ℤ◌, pos};
ghost use Rattle.book_model.specs.numbers.Expressions.{constant};
ghost use Rattle.book_model.specs.numbers.Fractions.{fraction_of};
ghost use Rattle.book_model.specs.sky.Horizon as spec;
ghost use Rattle.book_model.specs.sky.Facts.{IsFactDay};
ghost use Rattle.book_model.specs.declared.fact.TheConstants.{LAST_FACT_DAY};
ghost use Rattle.book_model.specs.declared.time_tables.TheConstants.{RECENT_START};

use crate::declinations::universal;
use crate::depression::{dawn, dusk_at};
use crate::minutes::rounded_minutes;
use crate::skyline::{Horizon, horizon_at};
use book_model::location_tables::{HINDU_SUNRISE_DEPRESSION, MINUTES, UJJAIN};
use book_model::{Fail, Frac};
use encl_core::{Enclosure, Trail};
use std::marker::Model;

/// The day (R.D.), of the year 1700, from which on sunrises and sunsets of the Hindu calendars are promised to be narrow, and what
/// is found by them close.
pub const FIRST_HINDU_DAY: i64 = 620_600;

/// A number of minutes, in days.
fn in_days(minutes: i64) -> Frac
    ensures days { fraction_of result ≡ spec.minutes_in_days minutes }
{
    Frac::new(i128::from(minutes), u64::from(MINUTES)).unwrap()
}

/// A number of minutes as an enclosure of days.
fn days<E: Enclosure>(minutes: i64) -> E
    ensures encloses { Encloses E.shown E.BITS (constant (spec.minutes_in_days minutes)) result }
{
    E::from_frac(in_days(minutes))
}

/// When the sun rises on a day (R.D.) at Ujjain, in universal time: dawn with a depression of 47 minutes of arc, rounded to a
/// minute of local mean time (Reingold and Dershowitz, Calendrical Calculations, chapter 20). 133 tests at most (`hindu_sky`'s
/// `sunrise_few`), those of dawn and one at `round`. It is void where dawn is.
#[tactic(auto, using(book_model::proofs::Leads::leading), unfolding(book_model::specs::sky::Horizon::sunrise_of))]
pub fn sunrise<E: Enclosure>(day: i64, trail: &mut Trail) -> Result<E, Fail>
    requires day { IsFactDay day }
    ensures leads { Follows E.shown (spec.sunrise_of day) trail.old.count trail.new.count result }
    ensures measured { Measured E.BITS E.shown (IsMoment (5 * 2 ^ 8)) result }
    ensures recent { FIRST_HINDU_DAY ≤ℤ day
        → Measured E.BITS E.shown (IsSince RECENT_START (5 * 2 ^ 8)) result }
{
    let rising = dawn(&UJJAIN, E::from_frac(HINDU_SUNRISE_DEPRESSION), day, trail)?;
    let minutes = rounded_minutes(day, rising, trail)?;
    Ok(universal(UJJAIN.longitude, days::<E>(minutes)))
}

/// The sunsets of the Hindu calendars: the horizon of Ujjain, which is the same on each day. Contracts see nothing of it.
#[derive(Drop)]
pub struct HinduSunsets<E: Enclosure> {
    horizon: Horizon<E>,
}

impl<E: Enclosure> Model for HinduSunsets<E> {
    ghost use Rattle.std.specs.Prelude.{◌≡◌, pos};
    ghost use Rattle.book_model.specs.declared.location_tables.TheConstants.{UJJAIN as ujjain};
    ghost use Rattle.book_model.specs.numbers.Expressions.{integer};
    ghost use Rattle.rise_set.specs.Horizons.{IsHorizonOf};

    ghost Value = { Unit {0} };

    ghost view = { λ s. tt };

    ghost invariant = { λ s. (s.horizon.location ≡ ujjain) × IsHorizonOf E.shown E.BITS
        (integer (pos 0)) s.horizon };
}

impl<E: Enclosure> HinduSunsets<E> {
    /// The sunsets of the Hindu calendars. It makes no test.
    pub fn new() -> Self {
        HinduSunsets {
            horizon: horizon_at(&UJJAIN, E::from_int(0)),
        }
    }

    /// When the sun's middle sets on a day (R.D.), in universal time: 132 tests at most (`day_facts`'s `sunset_few`). It is void
    /// where dusk is.
    #[tactic(auto, using(book_model::proofs::Leads::leading), unfolding(book_model::specs::sky::Horizon::hindu_sunset_of))]
    pub fn on(&self, day: i64, trail: &mut Trail) -> Result<E, Fail>
        ensures leads { Follows E.shown (spec.hindu_sunset_of day) trail.old.count trail.new.count
            result }
        ensures measured { IsFactDay day
            → Measured E.BITS E.shown (IsMoment (9 * 2 ^ 29)) result }
        ensures recent { FIRST_HINDU_DAY ≤ℤ day → day ≤ℤ LAST_FACT_DAY
            → Measured E.BITS E.shown (IsSince RECENT_START (9 * 2 ^ 29)) result }
    {
        let t = dusk_at(&self.horizon, day, trail)?;
        Ok(universal(self.horizon.location.longitude, t))
    }
}

/// When the sun's middle sets on a day (R.D.) at Ujjain, the air left out, in universal time (Reingold and Dershowitz, Calendrical
/// Calculations, chapter 20): 132 tests at most (`day_facts`'s `sunset_few`). It is void where dusk is.
pub fn hsunset<E: Enclosure>(day: i64, trail: &mut Trail) -> Result<E, Fail>
    ensures leads { Follows E.shown (spec.hindu_sunset_of day) trail.old.count trail.new.count
        result }
    ensures measured { IsFactDay day
        → Measured E.BITS E.shown (IsMoment (9 * 2 ^ 29)) result }
    ensures recent { FIRST_HINDU_DAY ≤ℤ day → day ≤ℤ LAST_FACT_DAY
        → Measured E.BITS E.shown (IsSince RECENT_START (9 * 2 ^ 29)) result }
{
    let sunsets = HinduSunsets::<E>::new();
    sunsets.on(day, trail)
}
