//! Dynamical time, which flows evenly: what it is ahead of universal time in a year, and its centuries.
ghost use Rattle.book_model.specs.programs.Calls.{Encloses, Encloses1, Follows, Follows1, Holds, Narrows};
ghost use Rattle.book_model.specs.programs.Widths.{IsMoment, Measured, Measured1, IsCorrection, AreCenturies, IsDated, IsFrom, IsSince};
ghost use Rattle.std.specs.Prelude.{◌≡◌, ◌≤◌, ◌+◌, ◌/◌, ◌^◌, ℕ, ℤ, pos, ◌-ℤ◌, ◌≤ℤ◌, unsigned_abs, length, IfOk, IfErr, IfSome, ◌+ℤ◌};
ghost use Rattle.book_model.specs.numbers.Bounds.{Reach, limits_of, IsNarrow};
ghost use Rattle.book_model.specs.sky.Correction.{seconds_of};
ghost use Rattle.book_model.specs.numbers.Fractions.{fraction_of};
ghost use Rattle.book_model.specs.programs.Leading.{next_turn};
ghost use Rattle.book_model.specs.numbers.Ranges.{IsInTable};
ghost use Rattle.book_model.specs.numbers.Relations.{Narrow};
ghost use Rattle.book_model.specs.sky.Time.{hundreds_of, centuries_to_july, correction_by, correction_of_year, correction_at, dynamical_of, from_dynamical_of, in_centuries, centuries_of};
ghost use Rattle.encl_core.specs.declared.greatest_widths.TheConstants.{CORRECTION, CENTURIES};
ghost use Rattle.encl_core.specs.GreatestWidths.{greatest_of};
ghost use Rattle.time_scales.specs.Steps.{IsYearUndecidedFor};
ghost use Rattle.time_scales.specs.Widths.{AreRecentCenturies};
ghost use Rattle.time_scales.specs.Corrections.{IsFormYear, computed_by, computed_of, units_of_year, correction_bound};
ghost use Rattle.book_model.specs.declared.time_tables.TheConstants.{RECENT_START, TABLE_END};

use crate::moment::year;
use crate::polynomial::{at_fraction, at_whole};
use book_model::tables::SECOND;
use book_model::time_tables::{DAY_IN_CENTURIES, NOON_2000};
use book_model::{CorrectionForm, Fail, Frac, Site, row_of_year};
use civil_core::first_of_july;
use encl_core::{Asked, Enclosure, Trail};

/// The last day of 1899 (R.D.).
const LAST_DAY_OF_1899: i64 = 693_596;

/// A year in hundreds of years.
fn hundreds(year: i64) -> Frac
    ensures value { fraction_of result ≡ hundreds_of year }
{
    Frac::new(i128::from(year), 100).unwrap()
}

/// 1 July of a year, in centuries from the last day of 1899.
fn july(year: i64) -> Frac
    requires from { pos 1 ≤ℤ year }
    requires to { year ≤ℤ pos 9999 }
    ensures value { fraction_of result ≡ centuries_to_july year }
{
    Frac::new(i128::from(first_of_july(year) - LAST_DAY_OF_1899), 36_525).unwrap()
}

/// A polynomial of seconds in the years from one on, in days.
#[tactic(auto, unfolding(book_model::specs::sky::Correction::seconds_of))]
fn seconds<E: Enclosure>(coefficients: &[Frac], origin: i64, year: i64) -> E
    requires few { length coefficients.now ≤ 7 }
    requires small { unsigned_abs (year -ℤ origin) ≤ 256 }
    ensures encloses { Encloses E.shown E.BITS (seconds_of coefficients.now origin year) result }
{
    at_whole::<E>(coefficients, year - origin).mul_frac(SECOND)
}

/// ΔT of a year by the form and the coefficients of a row of the table, in days.
fn by_form<E: Enclosure>(form: CorrectionForm, coefficients: &[Frac], year: i64) -> E
    requires year { IsFormYear form (length coefficients.now) year }
    ensures holds { Holds E.shown (correction_by form coefficients.now year) result }
    ensures narrow { Narrows E.shown E.BITS (computed_by form coefficients.now year) result }
{
    match form {
        CorrectionForm::SecondsSince(origin) => seconds::<E>(coefficients, origin, year),
        CorrectionForm::SecondsByHundreds => {
            at_fraction::<E>(coefficients, hundreds(year)).mul_frac(SECOND)
        }
        CorrectionForm::DaysByCenturies => at_fraction::<E>(coefficients, july(year)),
    }
}

/// Dynamical time less universal time in a year, in days (Reingold and Dershowitz, Calendrical Calculations, chapter
/// 14, ephemeris correction). It makes no test, and is void at `year` where no row of the table has the year.
pub fn correction<E: Enclosure>(year: i64, trail: &mut Trail) -> Result<E, Fail>
    ensures leads { Follows E.shown (correction_of_year year) trail.old.count trail.new.count result }
    ensures narrow { IfOk result (λ e. (r : Reach) → Narrow E.shown (limits_of E.BITS) r
        (computed_of year) e) }
    ensures close { 36 ≤ E.BITS → E.BITS ≤ 56 → IfOk result (λ e. IfSome (units_of_year year)
        (λ units. IsNarrow 0 (correction_bound units E.BITS) (E.shown e))) }
    ensures measured { Measured E.BITS E.shown (IsCorrection (2 ^ 14)) result }
    ensures void { IfErr result (λ f. f ≡ Fail.Void Site.Year) }
    ensures counted { trail.new.count ≡ trail.old.count }
{
    // What is claimed of ΔT, its width, its bound and its milliseconds, is computed over
    // the rows and cited for the year at hand: no proof goes over years.
    match row_of_year(year) {
        Some(row) => Ok(by_form::<E>(row.2, row.3, year)),
        None => Err(Fail::Void(Site::Year)),
    }
}

/// ΔT of a year, which the trail caches from then on.
fn kept_correction<E: Enclosure>(year: i64, trail: &mut Trail) -> Result<E, Fail>
    ensures leads { Follows E.shown (correction_of_year year) trail.old.count trail.new.count result }
    ensures measured { Measured E.BITS E.shown (IsCorrection (2 ^ 14)) result }
    ensures void { IfErr result (λ f. f ≡ Fail.Void Site.Year) }
    ensures counted { trail.new.count ≡ trail.old.count }
{
    let days = correction::<E>(year, trail)?;
    trail.keep(Asked::Correction(year), E::BITS, days.span());
    Ok(days)
}

/// ΔT of a year, evaluated where the trail hasn't cached it.
fn correction_once<E: Enclosure>(year: i64, trail: &mut Trail) -> Result<E, Fail>
    ensures leads { Follows E.shown (correction_of_year year) trail.old.count trail.new.count result }
    ensures measured { Measured E.BITS E.shown (IsCorrection (greatest_of CORRECTION 0)) result }
    ensures void { IfErr result (λ f. f ≡ Fail.Void Site.Year) }
    ensures counted { trail.new.count ≡ trail.old.count }
{
    match trail.kept(Asked::Correction(year), E::BITS) {
        Some(days) => Ok(E::from_span(days)),
        None => kept_correction::<E>(year, trail),
    }
}

// A moment's year is tested for its ΔT alone.
/// ΔT of the year of a moment: one test, at `year`.
#[tactic(auto, using(book_model::proofs::Leads::leading, crate::proofs::Years::opening), unfolding(book_model::specs::sky::Time::correction_at))]
fn correction_of_moment<E: Enclosure>(t: E, trail: &mut Trail) -> Result<E, Fail>
    ensures leads { Follows1 E.shown correction_at t trail.old.count trail.new.count result }
    ensures in_table { IfOk result (λ e. IsInTable (E.shown t)) }
    ensures measured { Measured1 E.BITS E.shown (2 ^ 44) IsMoment
        (λ v. IsCorrection (greatest_of CORRECTION 0)) t result }
    ensures open { IfErr result (IsYearUndecidedFor (E.shown t)) }
    ensures counted { trail.new.count ≡ next_turn trail.old.count }
{
    let year = year(t, trail)?;
    correction_once::<E>(year, trail)
}

/// The dynamical time of a moment of universal time, by ΔT of that moment's year.
#[tactic(auto, using(book_model::proofs::Leads::leading, crate::proofs::Measured::measuring), unfolding(book_model::specs::sky::Time::dynamical_of))]
pub fn dynamical<E: Enclosure>(t: E, trail: &mut Trail) -> Result<E, Fail>
    ensures leads { Follows1 E.shown dynamical_of t trail.old.count trail.new.count result }
    ensures in_table { IfOk result (λ e. IsInTable (E.shown t)) }
    ensures measured { Measured1 E.BITS E.shown (2 ^ 44) IsMoment
        (λ v. IsDated 1 (v + 2 ^ 17)) t result }
    ensures recent { Measured1 E.BITS E.shown (2 ^ 44) (IsSince RECENT_START)
        (λ v. IsFrom (RECENT_START -ℤ pos 1) (TABLE_END +ℤ pos 1) (v + 2 ^ 17)) t result }
    ensures open { IfErr result (IsYearUndecidedFor (E.shown t)) }
    ensures counted { trail.new.count ≡ next_turn trail.old.count }
{
    let correction = correction_of_moment(t, trail)?;
    Ok(t.add(correction))
}

/// The universal time of a moment of dynamical time, by ΔT of the year in which that moment lies.
#[tactic(auto, using(book_model::proofs::Leads::leading, crate::proofs::Measured::measuring), unfolding(book_model::specs::sky::Time::from_dynamical_of))]
pub fn from_dynamical<E: Enclosure>(t: E, trail: &mut Trail) -> Result<E, Fail>
    ensures leads { Follows1 E.shown from_dynamical_of t trail.old.count trail.new.count result }
    ensures measured { Measured1 E.BITS E.shown (2 ^ 44) IsMoment
        (λ v. IsDated 1 (v + greatest_of CORRECTION 0)) t result }
    ensures recent { Measured1 E.BITS E.shown (2 ^ 44) (IsSince (RECENT_START +ℤ pos 1))
        (λ v. IsFrom RECENT_START (TABLE_END +ℤ pos 1) (v + greatest_of CORRECTION 0)) t result }
    ensures open { IfErr result (IsYearUndecidedFor (E.shown t)) }
    ensures counted { trail.new.count ≡ next_turn trail.old.count }
{
    let correction = correction_of_moment(t, trail)?;
    Ok(t.sub(correction))
}

/// A moment, in centuries from noon of 1 January 2000.
#[tactic(auto, unfolding(book_model::specs::sky::Time::in_centuries))]
pub(crate) fn to_centuries<E: Enclosure>(t: E) -> E
    ensures encloses { Encloses1 E.shown E.BITS in_centuries t result }
{
    t.sub(E::from_frac(NOON_2000)).mul_frac(DAY_IN_CENTURIES)
}

/// The centuries of dynamical time from noon of 1 January 2000 to a moment of universal time, by ΔT of
/// the year of universal time.
#[tactic(auto, using(book_model::proofs::Leads::leading, crate::proofs::Measured::measuring), unfolding(book_model::specs::sky::Time::centuries_of))]
pub fn centuries<E: Enclosure>(t: E, trail: &mut Trail) -> Result<E, Fail>
    ensures leads { Follows1 E.shown centuries_of t trail.old.count trail.new.count result }
    ensures in_table { IfOk result (λ e. IsInTable (E.shown t)) }
    ensures measured { Measured1 E.BITS E.shown (2 ^ 44) IsMoment
        (λ v. AreCenturies (greatest_of CENTURIES v)) t result }
    ensures recent { Measured1 E.BITS E.shown (2 ^ 44) (IsSince RECENT_START)
        (λ v. AreRecentCenturies (greatest_of CENTURIES v)) t result }
    ensures open { IfErr result (IsYearUndecidedFor (E.shown t)) }
    ensures counted { trail.new.count ≡ next_turn trail.old.count }
{
    let moment = dynamical(t, trail)?;
    Ok(to_centuries(moment))
}
