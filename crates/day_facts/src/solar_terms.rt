//! The days at a place of the next major and minor solar terms.
ghost use Rattle.book_model.specs.numbers.Expressions.{World};
ghost use Rattle.book_model.specs.numbers.Ranges.{IsInTable};
ghost use Rattle.book_model.specs.numbers.Relations.{Within};
ghost use Rattle.book_model.specs.programs.Calls.{Decides, Follows};
ghost use Rattle.book_model.specs.programs.Leading.{Exact, Leads};
ghost use Rattle.book_model.specs.programs.Widths.{IsClose, IsMoment, IsSmall, IsUpTo};
ghost use Rattle.std.specs.Prelude.{◌≡◌, ◌^◌, ◌*◌, ℕ, ℤ, Ok, pos, ◌≤ℤ◌, IfOk, IfErr};
ghost use Rattle.book_model.specs.sky.Facts.{IsFactValue, IsValueDay};
ghost use Rattle.book_model.specs.sky.Kinds as spec;
ghost use Rattle.book_model.specs.sky.Time.{midnight_of};
ghost use Rattle.encl_core.specs.declared.greatest_widths.TheConstants.{SUN};
ghost use Rattle.encl_core.specs.GreatestWidths.{greatest_of};
ghost use Rattle.moon_core.specs.Longitudes.{IsLongitudeOf};
ghost use Rattle.day_facts.specs.Spans.{IsTermCount};

use crate::midnights::day_at;
use book_model::sun_tables::DEGREE_IN_TERMS;
use book_model::{Fail, Place, Site};
use encl_core::{Enclosure, Trail, floor_step, modulo};
use moon_core::{SunLinearModel, sun, sun_from_again};
use time_scales::midnight;

/// How many degrees the sun moves from one major solar term to the next, and from one minor term to the next.
const TERM_DEGREES: i64 = 30;

/// The whole spans of 30 degrees, rounded down, from the sun to the first longitude of the terms, in degrees, at midnight at the
/// beginning of a day (R.D.) at a place, by the longitude there: from -12 to 12. One test, after those of the longitude.
#[tactic(auto, using(book_model::proofs::Leads::leading), unfolding(book_model::specs::sky::Kinds::spans_short_of))]
fn spans_short<E: Enclosure>(
    place: Place,
    first: i64,
    day: i64,
    there: E,
    trail: &mut Trail,
) -> Result<i64, Fail>
    requires from { pos 0 ≤ℤ first }
    requires to { first ≤ℤ pos 15 }
    ensures leads { (w : World) (b : ℕ) → Leads w (Within E.shown w) (spec.longitude_at_midnight_of place day)
        b trail.old.count (Ok there)
        → Leads w Exact (spec.spans_short_of place first day) b trail.new.count result }
    ensures near { (b : ℕ) → Follows E.shown (spec.longitude_at_midnight_of place day) b
        trail.old.count (Ok there) → IfOk result IsTermCount }
    ensures close { E.BITS ≡ 56 → IsUpTo 360 (greatest_of SUN (3 * 2 ^ 8)) (E.shown there)
        → IfErr result IsClose }
{
    let spans = E::from_int(first).sub(there).mul_frac(DEGREE_IN_TERMS);
    floor_step(spans, Site::TermFloor, trail)
}

/// The longitude, from 0 to 359 degrees, that lies so many spans of 30 degrees before the first.
#[tactic(auto, unfolding(book_model::specs::sky::Kinds::term_longitude))]
fn term_longitude(first: i64, spans: i64) -> i64
    requires from { pos 0 ≤ℤ first }
    requires to { first ≤ℤ pos 15 }
    requires span { IsTermCount spans }
    ensures longitude { result ≡ spec.term_longitude first spans }
    ensures from { pos 0 ≤ℤ result }
    ensures to { result ≤ℤ pos 359 }
{
    modulo(first - TERM_DEGREES * spans, 360)
}

/// The day (R.D.) at a place on which the sun is next at a longitude, in degrees, once a day has begun there: by midnight at its
/// beginning, in universal time, and the longitude there.
#[tactic(auto, using(book_model::proofs::Leads::leading), unfolding(book_model::specs::sky::Kinds::longitude_day_of))]
fn longitude_day<E: Enclosure>(
    linear_model: &SunLinearModel<E>,
    place: Place,
    longitude: i64,
    t: E,
    there: E,
    trail: &mut Trail,
) -> Result<i64, Fail>
    ensures leads { (w : World) (d : ℤ) → Within E.shown w (midnight_of place d) t
        → IsLongitudeOf E.shown w (midnight_of place d) there
        → Leads w Exact (spec.longitude_day_of place longitude d) trail.old.count trail.new.count
        result }
    ensures close { E.BITS ≡ 56 → IsSmall longitude → IsMoment (3 * 2 ^ 8) (E.shown t)
        → IsInTable (E.shown t) → IsUpTo 360 (greatest_of SUN (3 * 2 ^ 8)) (E.shown there)
        → IfErr result IsClose }
{
    let moment = sun_from_again(linear_model, E::from_int(longitude), t, there, trail)?;
    day_at(place, moment, trail)
}

// A floor gives the longitude, a whole number of degrees, which the bisection takes as its angle:
// so one formula serves both kinds. The definition asks the sun at midnight twice, first of which term is next and then of how far
// it is: the second time its tests are counted alone.
/// The day (R.D.) at a place on which the sun reaches the first of the longitudes of the terms once a day has begun there: those
/// 30 degrees apart, the least of which is `first`, 0 for the major terms and 15 for the minor. 328 tests at most, and those of the
/// zone (`term_day_few`).
#[tactic(auto, using(book_model::proofs::Leads::leading), unfolding(book_model::specs::sky::Kinds::term_day_of))]
pub(crate) fn term_day<E: Enclosure>(
    linear_model: &SunLinearModel<E>,
    place: Place,
    first: i64,
    day: i64,
    trail: &mut Trail,
) -> Result<i64, Fail>
    requires from { pos 0 ≤ℤ first }
    requires to { first ≤ℤ pos 15 }
    requires day { IsValueDay day }
    ensures leads { Decides (spec.term_day_of place first day) trail.old.count trail.new.count
        result }
    ensures value { IfOk result IsFactValue }
    ensures close { E.BITS ≡ 56 → IfErr result IsClose }
{
    let t = midnight::<E>(place, day);
    let there = sun(t, trail)?;
    let spans = spans_short::<E>(place, first, day, there, trail)?;
    longitude_day::<E>(
        linear_model,
        place,
        term_longitude(first, spans),
        t,
        there,
        trail,
    )
}
