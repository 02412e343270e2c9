//! Dawn and dusk: approximations until two of them are less than half a minute apart.
ghost use Rattle.book_model.specs.programs.Calls.{Decides2, Follows1};
ghost use Rattle.rise_set.specs.Horizons.{FollowsAt, FollowsHorizon};
ghost use Rattle.book_model.specs.programs.Widths.{IsClose, Measured};
ghost use Rattle.rise_set.specs.Widths.{IsDepression, IsNarrowHorizon, IsNarrowLocation, IsSettled};
ghost use Rattle.std.specs.Prelude.{◌≡◌, IfErr};
ghost use Rattle.book_model.specs.sky.Horizon as spec;
ghost use Rattle.book_model.specs.sky.Facts.{IsFactDay};

use crate::approximation::{approximation, quarter};
use crate::offsets::size;
use crate::skyline::{Horizon, horizon_at};
use book_model::location_tables::HALF_MINUTE;
use book_model::{Fail, Location, Site, Twilight};
use encl_core::{Enclosure, Trail, less_step};

/// How many approximations are made at most.
const APPROXIMATIONS: u32 = 12;

/// Whether two moments are less than half a minute apart: one test.
#[tactic(auto, using(book_model::proofs::Leads::leading), unfolding(book_model::specs::sky::Horizon::has_settled_of, book_model::specs::programs::Leading::next_turn))]
fn has_settled<E: Enclosure>(old: E, new: E, trail: &mut Trail) -> Result<bool, Fail>
    ensures leads { Decides2 E.shown spec.has_settled_of old new trail.old.count trail.new.count
        result }
    ensures close { E.BITS ≡ 56 → IsSettled (E.shown old) → IsSettled (E.shown new)
        → IfErr result IsClose }
{
    less_step(
        size(new.sub(old)),
        E::from_frac(HALF_MINUTE),
        Site::Settle,
        trail,
    )
}

// The first approximation is compared with the moment from which it was made, like each later one.
/// Approximations, so many at most, from a moment on until two are less than half a minute apart: eleven tests at most for each
/// (`settled_few`). It is void at `settle` where none are, and where an approximation is.
#[tactic(auto, using(book_model::proofs::Leads::leading, crate::proofs::Settling::settling), unfolding(book_model::specs::programs::Leading::next_turn))]
fn settled<E: Enclosure>(
    more: u32,
    horizon: &Horizon<E>,
    twilight: Twilight,
    t: E,
    trail: &mut Trail,
) -> Result<E, Fail>
    ensures leads { FollowsHorizon E.shown (spec.settled_of more horizon.now.location twilight)
        horizon.now t trail.old.count trail.new.count result }
    ensures measured { IsNarrowHorizon E.shown horizon.now → IsSettled (E.shown t)
        → Measured E.BITS E.shown IsSettled result }
{
    if more == 0 {
        return Err(Fail::Void(Site::Settle));
    }
    let new = approximation(horizon, twilight, t, trail)?;
    if has_settled(t, new, trail)? {
        return Ok(new);
    }
    settled(more - 1, horizon, twilight, new, trail)
}

/// The local mean time of a day (R.D.) at which the sun has the depression of a horizon.
#[tactic(auto, using(book_model::proofs::Leads::leading), unfolding(book_model::specs::sky::Horizon::depression_of))]
fn moment_of_depression<E: Enclosure>(
    horizon: &Horizon<E>,
    twilight: Twilight,
    day: i64,
    trail: &mut Trail,
) -> Result<E, Fail>
    ensures leads { FollowsAt E.shown
        (λ a. spec.depression_of horizon.now.location twilight a day) horizon.now trail.old.count
        trail.new.count result }
    ensures measured { IsNarrowHorizon E.shown horizon.now → IsFactDay day
        → Measured E.BITS E.shown IsSettled result }
{
    settled(
        APPROXIMATIONS,
        horizon,
        twilight,
        quarter(twilight, day),
        trail,
    )
}

/// Dawn of a day (R.D.), when the sun before rising has a depression, in degrees; in local mean time (Reingold and Dershowitz,
/// Calendrical Calculations, chapter 14). It is void at `offset` where the sun doesn't reach the depression, at
/// `settle` where twelve approximations don't settle, and at `year` in a year without ΔT.
#[tactic(auto, unfolding(book_model::specs::sky::Horizon::dawn_of))]
pub fn dawn<E: Enclosure>(
    location: &Location,
    depression: E,
    day: i64,
    trail: &mut Trail,
) -> Result<E, Fail>
    ensures leads { Follows1 E.shown (λ a. spec.dawn_of location.now a day) depression
        trail.old.count trail.new.count result }
    ensures measured { IsNarrowLocation location.now → IsDepression (E.shown depression)
        → IsFactDay day → Measured E.BITS E.shown IsSettled result }
{
    let horizon = horizon_at(location, depression);
    moment_of_depression(&horizon, Twilight::Dawn, day, trail)
}

/// Dusk of a day (R.D.) at a horizon, when the sun after setting has its depression, in the same sense.
#[tactic(auto, unfolding(book_model::specs::sky::Horizon::dusk_of))]
pub fn dusk_at<E: Enclosure>(horizon: &Horizon<E>, day: i64, trail: &mut Trail) -> Result<E, Fail>
    ensures leads { FollowsAt E.shown (λ a. spec.dusk_of horizon.now.location a day) horizon.now
        trail.old.count trail.new.count result }
    ensures measured { IsNarrowHorizon E.shown horizon.now → IsFactDay day
        → Measured E.BITS E.shown IsSettled result }
{
    moment_of_depression(horizon, Twilight::Dusk, day, trail)
}

/// Dusk of a day (R.D.) at a location, when the sun has a depression, in degrees: that at the horizon of the two.
pub fn dusk<E: Enclosure>(
    location: &Location,
    depression: E,
    day: i64,
    trail: &mut Trail,
) -> Result<E, Fail>
    ensures leads { Follows1 E.shown (λ a. spec.dusk_of location.now a day) depression
        trail.old.count trail.new.count result }
    ensures measured { IsNarrowLocation location.now → IsDepression (E.shown depression)
        → IsFactDay day → Measured E.BITS E.shown IsSettled result }
{
    let horizon = horizon_at(location, depression);
    dusk_at(&horizon, day, trail)
}
