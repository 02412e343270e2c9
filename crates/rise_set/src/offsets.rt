//! How far the sun is from the horizon: the sine of the hour angle at which it has a depression, less a quarter of a turn.
//!
//! The calls of this crate take a location and no place, so that they hold of every one; a place is turned into its
//! location once, where a fact is evaluated. What stays the same comes first among their arguments, and of the day they
//! ask nothing.
ghost use Rattle.book_model.specs.programs.Calls.{Decides1, Encloses1, Encloses2, Encloses3, Follows1, Follows2, Holds, Narrows4};
ghost use Rattle.book_model.specs.programs.Widths.{Measured1, Measures};
ghost use Rattle.std.specs.Prelude.{◌≡◌, ◌≤◌, ◌+◌, ◌/◌, ◌^◌, ℕ, false, IfOk};
ghost use Rattle.book_model.specs.numbers.Expressions.{Expression, World};
ghost use Rattle.book_model.specs.numbers.Fractions.{fraction_of};
ghost use Rattle.book_model.specs.sky.Horizon as spec;
ghost use Rattle.book_model.specs.sky.Phases.{size_of};
ghost use Rattle.book_model.specs.numbers.Relations.{Within};
ghost use Rattle.sun_core.specs.Widths.{IsNarrowPlace};
ghost use Rattle.rise_set.specs.Widths.{IsDepression, IsMeanMoment, IsNarrowHorizon, IsNarrowLocation, IsOffset};
ghost use Rattle.rise_set.specs.Horizons.{FollowsHorizon, IsHorizon, by_tangent, by_sine, offset_by_parts};
ghost use Rattle.book_model.specs.numbers.Ranges.{IsNearTable};

use crate::declinations::{declination, universal};
use crate::skyline::{Horizon, horizon_at};
use book_model::{Fail, Location, Site, Twilight};
use encl_core::{Enclosure, Trail, less_step};
use sun_core::{cos_deg, tan_deg};

/// The size of a number.
#[tactic(auto, unfolding(book_model::specs::sky::Phases::size_of))]
pub(crate) fn size<E: Enclosure>(x: E) -> E
    ensures encloses { Encloses1 E.shown E.BITS size_of x result }
{
    x.max(x.neg())
}

/// The first term of the offset: the tangent of the latitude times that of the declination.
fn by_declination<E: Enclosure>(tangent: E, declination: E) -> E
    ensures encloses { Encloses2 E.shown E.BITS by_tangent tangent declination result }
{
    tangent.mul(tan_deg(declination))
}

/// The second term: the sine of the depression over the cosines of the latitude and of the declination.
fn by_depression<E: Enclosure>(sine: E, cosine: E, declination: E) -> E
    ensures encloses { Encloses3 E.shown E.BITS by_sine sine cosine declination result }
{
    sine.div(cos_deg(declination).mul(cosine))
}

/// The offset at a horizon by the declination, in degrees.
#[tactic(auto, unfolding(book_model::specs::sky::Horizon::offset_by, crate::specs::Horizons::offset_by_parts))]
fn offset_by<E: Enclosure>(horizon: &Horizon<E>, declination: E) -> E
    ensures holds { (w : World) (a d : Expression) → IsHorizon E.shown w a horizon.now
        → Within E.shown w d declination → Within E.shown w
        (spec.offset_by (fraction_of horizon.now.location.latitude) a d) result }
    ensures narrow { Narrows4 E.shown E.BITS offset_by_parts horizon.now.tangent horizon.now.cosine
        horizon.now.sine declination result }
{
    by_declination(horizon.tangent, declination).add(by_depression(
        horizon.sine,
        horizon.cosine,
        declination,
    ))
}

/// The offset at a horizon at a moment of local mean time: three tests at most (`offset_few`).
#[tactic(auto, using(book_model::proofs::Leads::leading), unfolding(book_model::specs::sky::Horizon::offset_of))]
fn offset_at<E: Enclosure>(horizon: &Horizon<E>, t: E, trail: &mut Trail) -> Result<E, Fail>
    ensures leads { FollowsHorizon E.shown (spec.offset_of horizon.now.location) horizon.now t
        trail.old.count trail.new.count result }
    ensures dated { IfOk result (λ s. IsNarrowPlace horizon.now.location.longitude → (v : ℕ)
        → E.BITS ≡ 56 → IsMeanMoment v (E.shown t) → IsNearTable 1 (E.shown t)) }
    ensures measured { IsNarrowHorizon E.shown horizon.now → Measured1 E.BITS E.shown (2 ^ 41)
        IsMeanMoment (λ v. IsOffset (v / 16 + 2 ^ 28)) t result }
{
    let angle = declination(universal(horizon.location.longitude, t), trail)?;
    Ok(offset_by(horizon, angle))
}

/// The sine of the hour angle at which the sun has a depression, in degrees, less a quarter of a turn, by the declination of the
/// sun at a moment of local mean time (Reingold and Dershowitz, Calendrical Calculations, chapter 14): three tests at most
/// (`offset_few`). It is void at `year` in a year without ΔT.
pub fn offset<E: Enclosure>(
    location: &Location,
    depression: E,
    t: E,
    trail: &mut Trail,
) -> Result<E, Fail>
    ensures leads { Follows2 E.shown (spec.offset_of location.now) depression t trail.old.count
        trail.new.count result }
    ensures measured { IsNarrowLocation location.now → IsDepression (E.shown depression)
        → Measured1 E.BITS E.shown (2 ^ 41) IsMeanMoment
        (λ v. IsOffset (v / 16 + 2 ^ 28)) t result }
{
    let horizon = horizon_at(location, depression);
    offset_at(&horizon, t, trail)
}

/// Whether an offset is no sine, so that the sun doesn't reach the depression: one test.
#[tactic(auto, using(book_model::proofs::Leads::leading), unfolding(book_model::specs::sky::Horizon::is_out_of_reach, book_model::specs::programs::Leading::next_turn))]
fn is_out_of_reach<E: Enclosure>(offset: E, trail: &mut Trail) -> Result<bool, Fail>
    ensures leads { Decides1 E.shown spec.is_out_of_reach offset trail.old.count trail.new.count
        result }
    ensures measured { (v : ℕ) → E.BITS ≡ 56 → IsOffset v (E.shown offset)
        → Measures (λ out. out ≡ false) result }
{
    less_step(E::from_int(1), size(offset), Site::Offset, trail)
}

/// An offset that is reached; void at `offset` where it isn't.
#[tactic(auto, using(book_model::proofs::Leads::leading), unfolding(book_model::specs::sky::Horizon::if_reached))]
fn if_reached<E: Enclosure>(offset: E, out: bool, trail: &mut Trail) -> Result<E, Fail>
    ensures leads { Follows1 E.shown (λ s. spec.if_reached s out) offset trail.old.count
        trail.new.count result }
    ensures counted { trail.new.count ≡ trail.old.count }
{
    if out {
        Err(Fail::Void(Site::Offset))
    } else {
        Ok(offset)
    }
}

/// The offset at a moment of local mean time: four tests at most (`reached_few`). It is void at `offset` where the sun doesn't
/// reach the depression.
#[tactic(auto, using(book_model::proofs::Leads::leading), unfolding(book_model::specs::sky::Horizon::reached_offset_of))]
fn reached_offset<E: Enclosure>(horizon: &Horizon<E>, t: E, trail: &mut Trail) -> Result<E, Fail>
    ensures leads { FollowsHorizon E.shown (spec.reached_offset_of horizon.now.location) horizon.now
        t
        trail.old.count trail.new.count result }
{
    let there = offset_at(horizon, t, trail)?;
    let out = is_out_of_reach(there, trail)?;
    if_reached(there, out, trail)
}

/// Where the offset is taken anew: as a day (R.D.) begins, for dawn, and as it ends, for dusk.
#[tactic(auto, unfolding(book_model::specs::sky::Horizon::edge_of))]
fn edge_of_day<E: Enclosure>(twilight: Twilight, day: i64) -> E
    ensures holds { Holds E.shown (spec.edge_of twilight day) result }
{
    match twilight {
        Twilight::Dawn => E::from_int(day),
        Twilight::Dusk => E::from_int(day).add(E::from_int(1)),
    }
}

/// An offset, or, where the sun doesn't reach the depression, that at the edge of the day: four tests at most (`edge_few`).
#[tactic(auto, using(book_model::proofs::Leads::leading), unfolding(book_model::specs::sky::Horizon::or_at_edge))]
fn offset_or_at_edge<E: Enclosure>(
    horizon: &Horizon<E>,
    twilight: Twilight,
    day: i64,
    offset: E,
    out: bool,
    trail: &mut Trail,
) -> Result<E, Fail>
    ensures leads { FollowsHorizon E.shown
        (λ a s. spec.or_at_edge horizon.now.location twilight a day s out) horizon.now offset
        trail.old.count trail.new.count result }
    ensures inside { out ≡ false → result ≡ Ok offset }
{
    if out {
        reached_offset(horizon, edge_of_day(twilight, day), trail)
    } else {
        Ok(offset)
    }
}

/// The offset at a moment of local mean time of a day (R.D.), or at the edge of the day where the sun doesn't reach the
/// depression then: eight tests at most (`near_few`). It is void at `offset` where it doesn't reach it there either.
#[tactic(auto, using(book_model::proofs::Leads::leading), unfolding(book_model::specs::sky::Horizon::near_offset_of))]
pub(crate) fn offset_near<E: Enclosure>(
    horizon: &Horizon<E>,
    twilight: Twilight,
    day: i64,
    t: E,
    trail: &mut Trail,
) -> Result<E, Fail>
    ensures leads { FollowsHorizon E.shown
        (λ a x. spec.near_offset_of horizon.now.location twilight a day x) horizon.now t
        trail.old.count trail.new.count result }
    ensures measured { IsNarrowHorizon E.shown horizon.now → Measured1 E.BITS E.shown (2 ^ 41)
        IsMeanMoment (λ v. IsOffset (v / 16 + 2 ^ 28)) t result }
    ensures dated { IsNarrowHorizon E.shown horizon.now → (v : ℕ) → E.BITS ≡ 56 → v ≤ 2 ^ 41
        → IsMeanMoment v (E.shown t) → IfOk result (λ s. IsNearTable 1 (E.shown t)) }
{
    let there = offset_at(horizon, t, trail)?;
    let out = is_out_of_reach(there, trail)?;
    offset_or_at_edge(horizon, twilight, day, there, out, trail)
}
