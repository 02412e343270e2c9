//! One approximation of dawn or dusk, from a moment near to it.
ghost use Rattle.book_model.specs.programs.Calls.{Encloses, Encloses1, Holds1};
ghost use Rattle.book_model.specs.programs.Programs.{cell_at, integers};
ghost use Rattle.book_model.specs.programs.Widths.{IsAbout, Measured1};
ghost use Rattle.std.specs.Prelude.{◌≡◌, ◌+◌, ◌*◌, ◌/◌, ◌^◌, ℕ, Some};
ghost use Rattle.encl_core.specs.declared.greatest_widths.TheConstants.{TWILIGHT};
ghost use Rattle.encl_core.specs.GreatestWidths.{greatest_of};
ghost use Rattle.sun_core.specs.Widths.{IsLocalMoment};
ghost use Rattle.rise_set.specs.Widths.{IsMeanMoment, IsNarrowHorizon, IsOffset};
ghost use Rattle.rise_set.specs.Horizons.{FollowsHorizon};
ghost use Rattle.book_model.specs.sky.Horizon as spec;
ghost use Rattle.book_model.specs.sky.Facts.{IsFactDay};

use crate::offsets::offset_near;
use crate::skyline::Horizon;
use book_model::location_tables::{QUARTER, THREE_QUARTERS};
use book_model::sun_tables::DEGREE_IN_DAYS;
use book_model::{Fail, Site, Twilight};
use encl_core::{Enclosure, Trail, floor_step};
use sun_core::{arcsin_deg, from_apparent};

// Sums of enclosures and not of numbers: they can't overflow, whatever day a floor
// gives.
/// When the sun rises or sets on a day (R.D.) at the equinox, in apparent time: at 6 or at 18 hours.
#[tactic(auto, unfolding(book_model::specs::sky::Horizon::quarter_of))]
pub(crate) fn quarter<E: Enclosure>(twilight: Twilight, day: i64) -> E
    ensures encloses { Encloses E.shown E.BITS (spec.quarter_of twilight day) result }
    ensures measured { E.BITS ≡ 56 → IsFactDay day
        → IsAbout (40000001 * 2 ^ 32) (2 ^ 8) (E.shown result) }
{
    match twilight {
        Twilight::Dawn => E::from_int(day).add(E::from_frac(QUARTER)),
        Twilight::Dusk => E::from_int(day).add(E::from_frac(THREE_QUARTERS)),
    }
}

/// The angle of an offset, as a part of a day.
fn part_of_day<E: Enclosure>(offset: E) -> E
    ensures encloses { Encloses1 E.shown E.BITS spec.part_of offset result }
{
    arcsin_deg(offset).mul_frac(DEGREE_IN_DAYS)
}

/// The apparent time of a day (R.D.) at which the sun has a depression, by the offset.
#[tactic(auto, unfolding(book_model::specs::sky::Horizon::apparent_by))]
fn apparent<E: Enclosure>(twilight: Twilight, day: i64, offset: E) -> E
    ensures holds { Holds1 E.shown (spec.apparent_by twilight day) offset result }
    ensures measured { (v : ℕ) → E.BITS ≡ 56 → IsFactDay day
        → IsOffset v (E.shown offset) → IsLocalMoment (v / 5 + 2 ^ 11) (E.shown result) }
{
    match twilight {
        Twilight::Dawn => quarter::<E>(Twilight::Dawn, day).sub(part_of_day(offset)),
        Twilight::Dusk => quarter::<E>(Twilight::Dusk, day).add(part_of_day(offset)),
    }
}

/// The moment of a day (R.D.) at which the sun has a depression, from one near to it.
#[tactic(auto, using(book_model::proofs::Leads::leading), unfolding(book_model::specs::sky::Horizon::approximation_on))]
fn approximation_on<E: Enclosure>(
    horizon: &Horizon<E>,
    twilight: Twilight,
    t: E,
    day: i64,
    trail: &mut Trail,
) -> Result<E, Fail>
    ensures leads { FollowsHorizon E.shown
        (λ a x. spec.approximation_on horizon.now.location twilight a x day) horizon.now t
        trail.old.count trail.new.count result }
    ensures measured { IsNarrowHorizon E.shown horizon.now → cell_at integers (E.shown t) ≡ Some day
        → Measured1 E.BITS E.shown (2 ^ 41) IsMeanMoment
        (λ v. IsMeanMoment (greatest_of TWILIGHT v)) t result }
{
    let offset = offset_near(horizon, twilight, day, t, trail)?;
    from_apparent(
        horizon.location.longitude,
        apparent(twilight, day, offset),
        trail,
    )
}

/// The moment at which the sun has a depression, from one near to it, both in local mean time (Reingold and Dershowitz, Calendrical
/// Calculations, chapter 14): ten tests at most (`approximation_few`). It is void at `offset` where the sun doesn't reach it, and
/// at `year` in a year without ΔT.
#[tactic(auto, using(book_model::proofs::Leads::leading), unfolding(book_model::specs::sky::Horizon::approximation_of))]
pub(crate) fn approximation<E: Enclosure>(
    horizon: &Horizon<E>,
    twilight: Twilight,
    t: E,
    trail: &mut Trail,
) -> Result<E, Fail>
    ensures leads { FollowsHorizon E.shown (spec.approximation_of horizon.now.location twilight)
        horizon.now t trail.old.count trail.new.count result }
    ensures measured { IsNarrowHorizon E.shown horizon.now → Measured1 E.BITS E.shown (2 ^ 41)
        IsMeanMoment (λ v. IsMeanMoment (greatest_of TWILIGHT v)) t result }
{
    let day = floor_step(t, Site::DayFloor, trail)?;
    approximation_on(horizon, twilight, t, day, trail)
}
