//! What the Hindu calendars ask of a day, by sunrise and sunset at Ujjain.
ghost use Rattle.book_model.specs.programs.Calls.{Decides, Decides1};
ghost use Rattle.std.specs.Prelude.{◌≡◌, ◌≤◌, ◌+◌, ◌^◌, ◌-ℤ◌, pos, ◌≤ℤ◌, IfOk, IfErr};
ghost use Rattle.std.specs.Ordering.{int_eq};
ghost use Rattle.book_model.specs.declared.fact.TheConstants.{LAST_FACT_DAY as last_fact_day};
ghost use Rattle.rise_set.specs.declared.hindu.TheConstants.{FIRST_HINDU_DAY};
ghost use Rattle.book_model.specs.sky.Facts.{IsFactValue, IsValueDay};
ghost use Rattle.book_model.specs.sky.HinduFacts as spec;
ghost use Rattle.book_model.specs.programs.Searches.{first_day_from};
ghost use Rattle.day_facts.specs.Counts.{IsDegree, IsLunarDay};
ghost use Rattle.book_model.specs.programs.Widths.{IsClose, IsMoment, Closes1, IsSince};
ghost use Rattle.time_scales.specs.Steps.{IsNoEarlyYear};
ghost use Rattle.book_model.specs.declared.time_tables.TheConstants.{RECENT_START};

use crate::zodiac::{hindu_year, sign, whole_degrees};
use book_model::sun_tables::DEGREE_IN_LUNAR_DAYS;
use book_model::{Fail, Site};
use encl_core::{DayTest, Enclosure, Trail, first_day, floor_step, modulo};
use moon_core::{PhaseLinearModel, SunLinearModel, moon_before_by, moon_from_by, phase};
use rise_set::{HinduSunsets, hsunset, sunrise};

/// The sign of the zodiac in which the sun stands at sunset on a day (R.D.): 137 tests at most (`sign_at_few`), those of
/// `sign_at_sunset`.
#[tactic(auto, using(book_model::proofs::Leads::leading), unfolding(book_model::specs::sky::HinduFacts::sign_at_sunset_of))]
fn sign_on<E: Enclosure>(
    sunsets: &HinduSunsets<E>,
    linear_model: &SunLinearModel<E>,
    day: i64,
    trail: &mut Trail,
) -> Result<i64, Fail>
    ensures leads { Decides (spec.sign_at_sunset_of day) trail.old.count trail.new.count result }
    ensures value { IfOk result IsFactValue }
    ensures close { FIRST_HINDU_DAY ≤ℤ day → day ≤ℤ last_fact_day → E.BITS ≡ 56
        → IfErr result IsClose }
{
    let t = sunsets.on(day, trail)?;
    sign(linear_model, t, trail)
}

/// The sign of the zodiac, from 1 to 12, in which the sun stands at sunset on a day (R.D.) at Ujjain (Reingold and Dershowitz,
/// Calendrical Calculations, chapter 20): 137 tests at most (`sign_at_few`). It is void at `year` where a moment that it takes lies
/// in a year of which ΔT is not known, at `offset` where the sun doesn't reach the horizon, and at `settle` where twelve
/// approximations of sunset don't settle.
///
/// ```
/// let sign = day_facts::sign_at_sunset::<Fine>(&SunLinearModel::always(), 738_990, &mut Trail::new())?; // 1, on 14 April 2024
/// ```
#[tactic(auto, using(book_model::proofs::Leads::leading))]
pub fn sign_at_sunset<E: Enclosure>(
    linear_model: &SunLinearModel<E>,
    day: i64,
    trail: &mut Trail,
) -> Result<i64, Fail>
    ensures leads { Decides (spec.sign_at_sunset_of day) trail.old.count trail.new.count result }
    ensures value { IfOk result IsFactValue }
    ensures close { FIRST_HINDU_DAY ≤ℤ day → day ≤ℤ last_fact_day → E.BITS ≡ 56
        → IfErr result IsClose }
{
    let sunsets = HinduSunsets::<E>::new();
    sign_on(&sunsets, linear_model, day, trail)
}

/// The year of the Kali Yuga at sunset on a day (R.D.) at Ujjain (Reingold and Dershowitz, Calendrical Calculations, chapter
/// 20): 137 tests at most (`year_at_sunset_few`). Void as `sign_at_sunset`.
///
/// ```
/// let year = day_facts::solar_year::<Fine>(738_990, &mut Trail::new())?; // 5125, on 14 April 2024
/// ```
#[tactic(auto, using(book_model::proofs::Leads::leading), unfolding(book_model::specs::sky::HinduFacts::year_at_sunset_of))]
pub fn solar_year<E: Enclosure>(day: i64, trail: &mut Trail) -> Result<i64, Fail>
    requires day { IsValueDay day }
    ensures leads { Decides (spec.year_at_sunset_of day) trail.old.count trail.new.count result }
    ensures value { IfOk result IsFactValue }
    ensures close { E.BITS ≡ 56 → IfErr result IsClose }
{
    let t = hsunset::<E>(day, trail)?;
    hindu_year(t, trail)
}

/// Whether two signs are the same.
fn is_sign(one: i64, other: i64) -> bool
    ensures same { result ≡ int_eq one other }
{
    one == other
}

/// Whether the sun stands in a sign at the sunset of a day (R.D.).
#[tactic(auto, using(book_model::proofs::Leads::leading), unfolding(book_model::specs::sky::HinduFacts::has_sign_at))]
fn has_sign<E: Enclosure>(
    sunsets: &HinduSunsets<E>,
    linear_model: &SunLinearModel<E>,
    sign: i64,
    day: i64,
    trail: &mut Trail,
) -> Result<bool, Fail>
    ensures leads { Decides (spec.has_sign_at sign day) trail.old.count trail.new.count result }
    ensures close { FIRST_HINDU_DAY ≤ℤ day → day ≤ℤ last_fact_day → E.BITS ≡ 56
        → IfErr result IsClose }
{
    let there = sign_on(sunsets, linear_model, day, trail)?;
    Ok(is_sign(there, sign))
}

/// Whether the sun stands in a sign at the sunset of a day.
#[derive(Drop)]
struct InSign<'a, E: Enclosure> {
    sign: i64,
    sunsets: HinduSunsets<E>,
    linear_model: &'a SunLinearModel<E>,
}

impl<E: Enclosure> DayTest<E> for InSign<'_, E> {
    ghost test_of = { λ s d. spec.has_sign_at s.sign d };

    ghost near_on = { λ s d. (FIRST_HINDU_DAY ≤ℤ d) × (d ≤ℤ last_fact_day) };

    fn holds(&self, day: i64, trail: &mut Trail) -> Result<bool, Fail> {
        has_sign(&self.sunsets, self.linear_model, self.sign, day, trail)
    }
}

/// The day from which a sankranti is sought, by the degrees of the sun.
fn start(day: i64, degrees: i64) -> i64
    requires day { IsValueDay day }
    requires near { IsDegree degrees }
    ensures start { result ≡ spec.before_sign day degrees }
    ensures low { (day -ℤ pos 40) ≤ℤ result }
    ensures high { result ≤ℤ day }
{
    day - 3 - modulo(degrees, 30)
}

/// The first day (R.D.) from a day on on whose sunset the sun stands in a sign.
#[tactic(auto, using(book_model::proofs::Leads::leading))]
fn first_in_sign<E: Enclosure>(
    sunsets: HinduSunsets<E>,
    linear_model: &SunLinearModel<E>,
    sign: i64,
    from: i64,
    trail: &mut Trail,
) -> Result<i64, Fail>
    requires low { pos 600000 ≤ℤ from }
    requires high { from ≤ℤ pos 800000 }
    ensures leads { Decides (first_day_from (spec.has_sign_at sign) from) trail.old.count
        trail.new.count result }
    ensures value { IfOk result IsFactValue }
    ensures close { FIRST_HINDU_DAY ≤ℤ from → E.BITS ≡ 56 → IfErr result IsClose }
{
    let test = InSign {
        sign,
        sunsets,
        linear_model,
    };
    first_day::<E, InSign<E>>(&test, from, trail)
}

/// The day (R.D.) on which the sun came into the sign in which it stands at a moment.
#[tactic(auto, using(book_model::proofs::Leads::leading), unfolding(book_model::specs::sky::HinduFacts::sign_entered_of))]
fn sign_entered<E: Enclosure>(
    sunsets: HinduSunsets<E>,
    linear_model: &SunLinearModel<E>,
    day: i64,
    t: E,
    trail: &mut Trail,
) -> Result<i64, Fail>
    requires day { IsValueDay day }
    ensures leads { Decides1 E.shown (spec.sign_entered_of day) t trail.old.count trail.new.count
        result }
    ensures value { IfOk result IsFactValue }
    ensures close { Closes1 E.BITS E.shown (2 ^ 41) (IsSince RECENT_START) t result }
{
    let there = sign(linear_model, t, trail)?;
    let degrees = whole_degrees(t, trail)?;
    first_in_sign(sunsets, linear_model, there, start(day, degrees), trail)
}

/// The first day (R.D.) of the solar month in which a day falls, by whose sunset at Ujjain the sun has come into its sign (Reingold
/// and Dershowitz, Calendrical Calculations, chapter 20): 6,444 tests at most (`sankranti_few`). Void as `sign_at_sunset`, of the
/// day or of one that is tried, and at `search` where none of 46 days is one.
///
/// ```
/// let first = day_facts::sankranti::<Fine>(&SunLinearModel::always(), 738_990, &mut Trail::new())?; // 738_990: the month begins on 14 April 2024
/// ```
#[tactic(auto, using(book_model::proofs::Leads::leading), unfolding(book_model::specs::sky::HinduFacts::sankranti_of))]
pub fn sankranti<E: Enclosure>(
    linear_model: &SunLinearModel<E>,
    day: i64,
    trail: &mut Trail,
) -> Result<i64, Fail>
    requires day { IsValueDay day }
    ensures leads { Decides (spec.sankranti_of day) trail.old.count trail.new.count result }
    ensures value { IfOk result IsFactValue }
    ensures close { E.BITS ≡ 56 → IfErr result IsClose }
{
    let sunsets = HinduSunsets::<E>::new();
    let t = sunsets.on(day, trail)?;
    sign_entered(sunsets, linear_model, day, t, trail)
}

/// The whole lunar days that have passed of a month at a moment, from 0 to 30.
#[tactic(auto, using(book_model::proofs::Leads::leading), unfolding(book_model::specs::sky::HinduFacts::lunar_days_passed_of))]
fn lunar_days_passed<E: Enclosure>(t: E, trail: &mut Trail) -> Result<i64, Fail>
    ensures leads { Decides1 E.shown spec.lunar_days_passed_of t trail.old.count trail.new.count
        result }
    ensures near { IfOk result IsLunarDay }
    ensures close { Closes1 E.BITS E.shown (2 ^ 38) IsMoment t result }
{
    let degrees = phase(t, trail)?;
    floor_step(degrees.mul_frac(DEGREE_IN_LUNAR_DAYS), Site::Round, trail)
}

// Sunrise is computed for each fact that asks it, three for one lunar date. To cache it from fact to fact would need a cell that
// threads share, as the shelf has for answers.
/// The lunar day, from 1 on, at sunrise on a day (R.D.) at Ujjain (Reingold and Dershowitz, Calendrical Calculations, chapter 20):
/// 144 tests at most (`tithi_few`). It is void at `year` where a moment that it takes lies in a year of which ΔT is not
/// known, at `offset` where the sun doesn't reach the depression of sunrise, and at `settle` where twelve approximations of
/// dawn don't settle.
///
/// ```
/// let day = day_facts::tithi::<Fine>(738_990, &mut Trail::new())?; // 6, on 14 April 2024
/// ```
#[tactic(auto, using(book_model::proofs::Leads::leading), unfolding(book_model::specs::sky::HinduFacts::tithi_of))]
pub fn tithi<E: Enclosure>(day: i64, trail: &mut Trail) -> Result<i64, Fail>
    requires day { IsValueDay day }
    ensures leads { Decides (spec.tithi_of day) trail.old.count trail.new.count result }
    ensures value { IfOk result IsFactValue }
    ensures close { E.BITS ≡ 56 → IfErr result IsClose }
{
    let rising = sunrise::<E>(day, trail)?;
    let passed = lunar_days_passed(rising, trail)?;
    Ok(passed + 1)
}

/// The sign in which the sun stood at the last new moon before sunrise on a day (R.D.) at Ujjain (Reingold and Dershowitz,
/// Calendrical Calculations, chapter 20): 163 tests at most (`sign_before_few`). Void as `tithi`, and at `moon-walk` where the walk
/// to the new moon takes more than five steps.
///
/// ```
/// let sign = day_facts::sign_before::<Fine>(&PhaseLinearModel::usual(), 738_990, &mut Trail::new())?; // 12, on 14 April 2024
/// ```
#[tactic(auto, using(book_model::proofs::Leads::leading), unfolding(book_model::specs::sky::HinduFacts::sign_before_of))]
pub fn sign_before<E: Enclosure>(
    linear_model: &PhaseLinearModel<E>,
    day: i64,
    trail: &mut Trail,
) -> Result<i64, Fail>
    requires day { IsValueDay day }
    ensures leads { Decides (spec.sign_before_of day) trail.old.count trail.new.count result }
    ensures value { IfOk result IsFactValue }
    ensures close { E.BITS ≡ 56 → IfErr result IsClose }
{
    let rising = sunrise::<E>(day, trail)?;
    let t = moon_before_by(linear_model, rising, trail)?;
    sign(linear_model.sun(), t, trail)
}

/// The sign in which the sun stands at the first new moon from sunrise on on a day (R.D.) at Ujjain (Reingold and
/// Dershowitz, Calendrical Calculations, chapter 20): 163 tests at most (`sign_after_few`). Void as `sign_before`.
///
/// ```
/// let sign = day_facts::sign_after::<Fine>(&PhaseLinearModel::usual(), 738_990, &mut Trail::new())?; // 1, on 14 April 2024
/// ```
#[tactic(auto, using(book_model::proofs::Leads::leading), unfolding(book_model::specs::sky::HinduFacts::sign_after_of))]
pub fn sign_after<E: Enclosure>(
    linear_model: &PhaseLinearModel<E>,
    day: i64,
    trail: &mut Trail,
) -> Result<i64, Fail>
    requires day { IsValueDay day }
    ensures leads { Decides (spec.sign_after_of day) trail.old.count trail.new.count result }
    ensures value { IfOk result IsFactValue }
    ensures close { E.BITS ≡ 56 → IfErr result IsClose }
{
    let rising = sunrise::<E>(day, trail)?;
    let t = moon_from_by(linear_model, rising, trail)?;
    sign(linear_model.sun(), t, trail)
}

/// The year of the Kali Yuga when a day (R.D.) begins in universal time (Reingold and Dershowitz, Calendrical Calculations,
/// chapter 20): five tests, of which the two of the year are never undecided. It is void at `year` where there is no ΔT
/// for the year of the day.
///
/// ```
/// let year = day_facts::calendar_year::<Fine>(739_170, &mut Trail::new())?; // 5125, on 11 October 2024
/// ```
#[tactic(auto, unfolding(book_model::specs::sky::HinduFacts::calendar_year_of))]
pub fn calendar_year<E: Enclosure>(day: i64, trail: &mut Trail) -> Result<i64, Fail>
    requires day { IsValueDay day }
    ensures leads { Decides (spec.calendar_year_of day) trail.old.count trail.new.count result }
    ensures value { IfOk result IsFactValue }
    ensures close { E.BITS ≡ 56 → IfErr result IsClose }
    ensures early { trail.old.count ≡ 0 → 36 ≤ E.BITS → E.BITS ≤ 56 → IfErr result IsNoEarlyYear }
{
    hindu_year(E::from_int(day), trail)
}
