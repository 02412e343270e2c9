//! The sign of the zodiac in which the sun stands, and the year of the Kali Yuga, at a moment.
ghost use Rattle.book_model.specs.programs.Calls.{Decides1, Encloses2};
ghost use Rattle.std.specs.Prelude.{◌≡◌, ◌≤◌, ◌+◌, ◌^◌, pos, ◌≤ℤ◌, Ok, IfOk, IfErr};
ghost use Rattle.book_model.specs.sky.HinduFacts.{whole_degrees_of};
ghost use Rattle.book_model.specs.sky.Sidereal as spec;
ghost use Rattle.day_facts.specs.Counts.{IsDegree, IsSign, whole_signs_of};
ghost use Rattle.time_scales.specs.Steps.{IsYearUndecidedFor};
ghost use Rattle.book_model.specs.programs.Widths.{Closes1, IsSince, IsUpTo};
ghost use Rattle.book_model.specs.declared.time_tables.TheConstants.{RECENT_START};

use book_model::calendar_tables::HINDU_EPOCH;
use book_model::sun_tables::{DAY_IN_SIDEREAL_YEARS, DEGREE_IN_SIGNS, DEGREE_IN_TURNS};
use book_model::tables::HALF;
use book_model::{Fail, Site};
use encl_core::{Enclosure, Trail, floor_step};
use moon_core::{SunLinearModel, sidereal_sun, sidereal_sun_by};

/// The whole signs in a longitude among the stars, as one test.
#[tactic(auto, using(book_model::proofs::Leads::leading))]
fn whole_signs<E: Enclosure>(longitude: E, trail: &mut Trail) -> Result<i64, Fail>
    ensures leads { Decides1 E.shown whole_signs_of longitude trail.old.count trail.new.count
        result }
    ensures close { Closes1 E.BITS E.shown (2 ^ 43) (IsUpTo 360) longitude result }
{
    floor_step(longitude.mul_frac(DEGREE_IN_SIGNS), Site::Sidereal, trail)
}

/// The whole signs that the sun has passed, by its longitude at the moment.
#[tactic(auto, using(book_model::proofs::Leads::leading), unfolding(book_model::specs::sky::Sidereal::signs_passed_of))]
fn signs_passed_at<E: Enclosure>(t: E, trail: &mut Trail) -> Result<i64, Fail>
    ensures leads { Decides1 E.shown spec.signs_passed_of t trail.old.count trail.new.count result }
    ensures close { Closes1 E.BITS E.shown (2 ^ 41) (IsSince RECENT_START) t result }
{
    let longitude = sidereal_sun(t, trail)?;
    whole_signs(longitude, trail)
}

/// The same by the linear model of the sun over all days. Where it answers it has made the tests of `signs_passed_at`; a failure says
/// nothing.
fn signs_passed_near<E: Enclosure>(
    linear_model: &SunLinearModel<E>,
    t: E,
    trail: &mut Trail,
) -> Result<i64, Fail>
    ensures leads { IfOk result (λ n. Decides1 E.shown spec.signs_passed_of t trail.old.count
        trail.new.count (Ok n)) }
{
    let longitude = sidereal_sun_by(linear_model, t, trail)?;
    whole_signs(longitude, trail)
}

/// The same, as a try: where it fails, no test has been made.
fn signs_passed_tried<E: Enclosure>(
    linear_model: &SunLinearModel<E>,
    t: E,
    trail: &mut Trail,
) -> Result<i64, Fail>
    ensures leads { IfOk result (λ n. Decides1 E.shown spec.signs_passed_of t trail.old.count
        trail.new.count (Ok n)) }
    ensures back { IfErr result (λ z. trail.new.count ≡ trail.old.count) }
{
    trail.attempt(
        |inner: &mut Trail| -> Result<i64, Fail>
            ensures { IfOk result (λ n. Decides1 E.shown spec.signs_passed_of t inner.old.count
                inner.new.count (Ok n)) }
        { signs_passed_near(linear_model, t, inner) },
    )
}

/// The whole signs that the sun has passed, from 0 to 12: by its linear model where that decides it, as it does but within hours of
/// its coming into a sign, and else by its longitude at the moment.
fn signs_passed<E: Enclosure>(
    linear_model: &SunLinearModel<E>,
    t: E,
    trail: &mut Trail,
) -> Result<i64, Fail>
    ensures leads { Decides1 E.shown spec.signs_passed_of t trail.old.count trail.new.count result }
    ensures near { IfOk result IsSign }
    ensures close { Closes1 E.BITS E.shown (2 ^ 41) (IsSince RECENT_START) t result }
{
    match signs_passed_tried(linear_model, t, trail) {
        Ok(passed) => Ok(passed),
        Err(_) => signs_passed_at(t, trail),
    }
}

/// The sign of the zodiac, from 1 on, in which the sun stands at a moment of universal time (Reingold and Dershowitz, Calendrical
/// Calculations, chapter 20): five tests at most (`sign_few`).
#[tactic(auto, using(book_model::proofs::Leads::leading), unfolding(book_model::specs::sky::Sidereal::sign_of))]
pub(crate) fn sign<E: Enclosure>(
    linear_model: &SunLinearModel<E>,
    t: E,
    trail: &mut Trail,
) -> Result<i64, Fail>
    ensures leads { Decides1 E.shown spec.sign_of t trail.old.count trail.new.count result }
    ensures from { IfOk result (λ g. pos 1 ≤ℤ g) }
    ensures to { IfOk result (λ g. g ≤ℤ pos 13) }
    ensures close { Closes1 E.BITS E.shown (2 ^ 41) (IsSince RECENT_START) t result }
{
    let passed = signs_passed(linear_model, t, trail)?;
    Ok(passed + 1)
}

/// The whole degrees of the longitude of the sun among the stars, from 0 to 360: five tests at most (`degrees_few`).
#[tactic(auto, using(book_model::proofs::Leads::leading), unfolding(book_model::specs::sky::HinduFacts::whole_degrees_of))]
pub(crate) fn whole_degrees<E: Enclosure>(t: E, trail: &mut Trail) -> Result<i64, Fail>
    ensures leads { Decides1 E.shown whole_degrees_of t trail.old.count trail.new.count result }
    ensures near { IfOk result IsDegree }
    ensures close { Closes1 E.BITS E.shown (2 ^ 41) (IsSince RECENT_START) t result }
{
    let longitude = sidereal_sun(t, trail)?;
    floor_step(longitude, Site::Sidereal, trail)
}

/// The sidereal years from the epoch to a moment, less what the sun has gone of the year.
#[tactic(auto, unfolding(book_model::specs::sky::Sidereal::years_gone_of))]
fn years_gone<E: Enclosure>(t: E, longitude: E) -> E
    ensures encloses { Encloses2 E.shown E.BITS spec.years_gone_of t longitude result }
{
    t.add(E::from_int(-HINDU_EPOCH))
        .mul_frac(DAY_IN_SIDEREAL_YEARS)
        .sub(longitude.mul_frac(DEGREE_IN_TURNS))
}

/// The year of the Kali Yuga at a moment of universal time (Reingold and Dershowitz, Calendrical Calculations, chapter 20): five
/// tests at most (`year_few`).
#[tactic(auto, using(book_model::proofs::Leads::leading, crate::proofs::UndecidedTests::opening), unfolding(book_model::specs::sky::Sidereal::hindu_year_of, book_model::specs::sky::Correction::rounded_of))]
pub(crate) fn hindu_year<E: Enclosure>(t: E, trail: &mut Trail) -> Result<i64, Fail>
    ensures leads { Decides1 E.shown spec.hindu_year_of t trail.old.count trail.new.count result }
    ensures open { IfErr result (IsYearUndecidedFor (E.shown t)) }
    ensures close { Closes1 E.BITS E.shown (2 ^ 41) (IsSince RECENT_START) t result }
{
    let longitude = sidereal_sun(t, trail)?;
    floor_step(
        years_gone(t, longitude).add(E::from_frac(HALF)),
        Site::Round,
        trail,
    )
}
