//! Universal time at a longitude, the obliquity of the ecliptic at a moment, and the declination of the sun.
ghost use Rattle.book_model.specs.programs.Calls.{Encloses2, Follows1, Holds1};
ghost use Rattle.book_model.specs.programs.Widths.{IsAbout, IsMoment, Measured1};
ghost use Rattle.std.specs.Prelude.{◌≡◌, ◌+◌, ◌-◌, ◌^◌, ℕ, IfOk, IfErr};
ghost use Rattle.book_model.specs.numbers.Fractions.{fraction_of};
ghost use Rattle.book_model.specs.numbers.Ranges.{IsInTable, IsNearTable};
ghost use Rattle.book_model.specs.sky.Crescent.{obliquity_at_of};
ghost use Rattle.book_model.specs.sky.Horizon as spec;
ghost use Rattle.sun_core.specs.Widths.{IsNarrowPlace};
ghost use Rattle.rise_set.specs.Altitudes.{IsTilt};
ghost use Rattle.rise_set.specs.Widths.{IsDeclination};
ghost use Rattle.time_scales.specs.Steps.{IsYearUndecidedFor};

use book_model::sun_tables::DEGREE_IN_DAYS;
use book_model::{Fail, Frac};
use encl_core::{Enclosure, Trail};
use sun_core::{arcsin_deg, obliquity, sin_deg, sun};
use time_scales::centuries;

/// The universal time of a moment of local mean time at a longitude east of Greenwich, in degrees.
#[tactic(auto, unfolding(book_model::specs::sky::Horizon::universal_of, book_model::specs::sky::Noon::ahead_of))]
pub fn universal<E: Enclosure>(longitude: Frac, t: E) -> E
    ensures holds { Holds1 E.shown (spec.universal_of (fraction_of longitude)) t result }
    ensures measured { IsNarrowPlace longitude → (v : ℕ) → E.BITS ≡ 56
        → IsAbout (2 ^ 58 - 2 ^ 32) v (E.shown t) → IsMoment (v + 2 ^ 10) (E.shown result) }
    ensures dated { IsNarrowPlace longitude → (v : ℕ) → E.BITS ≡ 56
        → IsMoment v (E.shown result) → IsInTable (E.shown result) → IsNearTable 1 (E.shown t) }
{
    t.sub(E::from_frac(longitude).mul_frac(DEGREE_IN_DAYS))
}

/// The obliquity of the ecliptic at a moment of universal time, in degrees (Reingold and Dershowitz, Calendrical Calculations, chapter
/// 14): one test, at `year`. It is void at `year` in a year without ΔT.
#[tactic(auto, using(book_model::proofs::Leads::leading), unfolding(book_model::specs::sky::Crescent::obliquity_at_of))]
pub fn obliquity_at<E: Enclosure>(t: E, trail: &mut Trail) -> Result<E, Fail>
    ensures leads { Follows1 E.shown obliquity_at_of t trail.old.count trail.new.count result }
    ensures in_table { IfOk result (λ o. IsInTable (E.shown t)) }
    ensures measured { Measured1 E.BITS E.shown (2 ^ 33) IsMoment (λ v. IsTilt) t result }
    ensures open { IfErr result (IsYearUndecidedFor (E.shown t)) }
{
    let c = centuries(t, trail)?;
    obliquity(c, trail)
}

/// The declination of the sun by the obliquity of the ecliptic and the longitude of the sun, in degrees.
#[tactic(auto, unfolding(book_model::specs::sky::Horizon::declination_by))]
fn declination_by<E: Enclosure>(obliquity: E, longitude: E) -> E
    ensures encloses { Encloses2 E.shown E.BITS spec.declination_by obliquity longitude result }
{
    arcsin_deg(sin_deg(obliquity).mul(sin_deg(longitude)))
}

/// The declination of the sun at a moment of universal time, in degrees (Reingold and Dershowitz, Calendrical Calculations, chapter
/// 14): three tests at most (`declination_few`), at `year` and those of the sun's longitude. It is void at `year` in a year without
/// ΔT.
#[tactic(auto, using(book_model::proofs::Leads::leading), unfolding(book_model::specs::sky::Horizon::declination_of))]
pub fn declination<E: Enclosure>(t: E, trail: &mut Trail) -> Result<E, Fail>
    ensures leads { Follows1 E.shown spec.declination_of t trail.old.count trail.new.count result }
    ensures in_table { IfOk result (λ d. IsInTable (E.shown t)) }
    ensures measured { Measured1 E.BITS E.shown (2 ^ 42) IsMoment
        (λ v. IsDeclination (v + 2 ^ 32)) t
        result }
{
    let c = centuries(t, trail)?;
    let tilt = obliquity(c, trail)?;
    let longitude = sun(t, trail)?;
    Ok(declination_by(tilt, longitude))
}
