//! The day by whose moment, as true noon, sunset or midnight at a place, a season has just begun.
ghost use Rattle.book_model.specs.programs.Calls.{Decides, Decides1, Follows};
ghost use Rattle.book_model.specs.programs.Widths.{IsClose, IsMoment, IsSmall, IsUpTo, Measured, Closes1};
ghost use Rattle.std.specs.Prelude.{◌≡◌, ◌*◌, ◌^◌, pos, ◌-ℤ◌, ◌≤ℤ◌, ℤ, Ok, IfOk, IfErr};
ghost use Rattle.book_model.specs.declared.season.Side.TheVariants.{UpTo as up_to, Past as past, From as at_least};
ghost use Rattle.book_model.specs.declared.time_tables.TheConstants.{TABLE_START as table_start, TABLE_END as table_end};
ghost use Rattle.book_model.specs.numbers.Expressions.{Expression};
ghost use Rattle.book_model.specs.sky.Facts.{IsFactDay, IsFactValue, IsValueDay};
ghost use Rattle.book_model.specs.sky.Kinds as spec;
ghost use Rattle.book_model.specs.sky.Kinds.{is_on_side_of, has_side_at, last_passage_of, season_day_of};
ghost use Rattle.book_model.specs.programs.Programs.{Program};
ghost use Rattle.day_facts.specs.Seasons.{stands_on};
ghost use Rattle.day_facts.specs.Widths.{IsSmallSeason, IsSmallSide};

use book_model::{Fail, Season, Side, Site};
use encl_core::{DayTest, Enclosure, Trail, first_day, floor_step, less_step};
use moon_core::{SunLinearModel, estimate, sun, sun_by};

// So that the search is one for true noon, sunset and midnight, as in the definitions
// (`season_day_of`).
/// A moment of each day, as true noon, sunset or midnight at a place.
pub(crate) trait DayMoment<E: Enclosure>: Drop {
    /// The moment of a day, as a formula.
    ghost moment_of: { Self → ℤ → Program Expression };

    /// The moment of a day (R.D.), in universal time. It makes the tests of its formula, and fails where that does.
    fn at(&self, day: i64, trail: &mut Trail) -> Result<E, Fail>
        requires day { IsFactDay day }
        ensures leads { Follows E.shown (moment_of self.now day) trail.old.count trail.new.count
            result }
        ensures measured { Measured E.BITS E.shown (IsMoment (2 ^ 33)) result };
}

/// Whether the sun stands on a side of a longitude at a moment of a day.
#[derive(Drop)]
struct SeasonAt<'a, E: Enclosure, M> {
    moment: M,
    side: Side,
    linear_model: &'a SunLinearModel<E>,
}

// The test is made as the rule words it, so that an undecided line prints the sides of that
// comparison; likewise `is_from`.
/// Whether a longitude is at most so many degrees, as one test.
#[tactic(auto, using(book_model::proofs::Leads::leading), unfolding(book_model::specs::sky::Kinds::is_on_side_of))]
fn is_up_to<E: Enclosure>(degrees: i64, longitude: E, trail: &mut Trail) -> Result<bool, Fail>
    ensures leads { Decides1 E.shown (is_on_side_of (up_to degrees)) longitude trail.old.count
        trail.new.count result }
    ensures close { IsSmall degrees → Closes1 E.BITS E.shown (2 ^ 44) (IsUpTo 360) longitude result }
{
    let is_more = less_step(E::from_int(degrees), longitude, Site::DayTest, trail)?;
    Ok(!is_more)
}

/// Whether a longitude is past so many degrees, as one test.
#[tactic(auto, using(book_model::proofs::Leads::leading), unfolding(book_model::specs::sky::Kinds::is_on_side_of))]
fn is_past<E: Enclosure>(degrees: i64, longitude: E, trail: &mut Trail) -> Result<bool, Fail>
    ensures leads { Decides1 E.shown (is_on_side_of (past degrees)) longitude trail.old.count
        trail.new.count result }
    ensures close { IsSmall degrees → Closes1 E.BITS E.shown (2 ^ 44) (IsUpTo 360) longitude result }
{
    less_step(E::from_int(degrees), longitude, Site::DayTest, trail)
}

/// Whether a longitude is so many degrees or more, as one test.
#[tactic(auto, using(book_model::proofs::Leads::leading), unfolding(book_model::specs::sky::Kinds::is_on_side_of))]
fn is_from<E: Enclosure>(degrees: i64, longitude: E, trail: &mut Trail) -> Result<bool, Fail>
    ensures leads { Decides1 E.shown (is_on_side_of (at_least degrees)) longitude trail.old.count
        trail.new.count result }
    ensures close { IsSmall degrees → Closes1 E.BITS E.shown (2 ^ 44) (IsUpTo 360) longitude result }
{
    let is_less = less_step(longitude, E::from_int(degrees), Site::DayTest, trail)?;
    Ok(!is_less)
}

/// Whether a longitude lies on a side.
#[tactic(auto, using(book_model::proofs::Leads::leading))]
fn is_on_side<E: Enclosure>(side: Side, longitude: E, trail: &mut Trail) -> Result<bool, Fail>
    ensures leads { Decides1 E.shown (is_on_side_of side) longitude trail.old.count trail.new.count
        result }
    ensures close { IsSmallSide side → Closes1 E.BITS E.shown (2 ^ 44) (IsUpTo 360) longitude result }
{
    match side {
        Side::UpTo(degrees) => is_up_to(degrees, longitude, trail),
        Side::Past(degrees) => is_past(degrees, longitude, trail),
        Side::From(degrees) => is_from(degrees, longitude, trail),
    }
}

/// Whether the sun stands on a side at a moment, by its longitude there.
#[tactic(auto, using(book_model::proofs::Leads::leading), unfolding(crate::specs::Seasons::stands_on))]
fn stands_at<E: Enclosure>(side: Side, t: E, trail: &mut Trail) -> Result<bool, Fail>
    ensures leads { Decides1 E.shown (stands_on side) t trail.old.count trail.new.count result }
    ensures close { IsSmallSide side → Closes1 E.BITS E.shown (2 ^ 33) IsMoment t result }
{
    let longitude = sun(t, trail)?;
    is_on_side(side, longitude, trail)
}

/// The same by the linear model of the sun over all days. Where it answers it has made the tests of `stands_at`; a failure says
/// nothing.
fn stands_near<E: Enclosure>(
    linear_model: &SunLinearModel<E>,
    side: Side,
    t: E,
    trail: &mut Trail,
) -> Result<bool, Fail>
    ensures leads { IfOk result (λ b. Decides1 E.shown (stands_on side) t trail.old.count
        trail.new.count (Ok b)) }
{
    let longitude = sun_by(linear_model, t, trail)?;
    is_on_side(side, longitude, trail)
}

/// The same, as a try: where it fails, no test has been made.
fn stands_tried<E: Enclosure>(
    linear_model: &SunLinearModel<E>,
    side: Side,
    t: E,
    trail: &mut Trail,
) -> Result<bool, Fail>
    ensures leads { IfOk result (λ b. Decides1 E.shown (stands_on side) t trail.old.count
        trail.new.count (Ok b)) }
    ensures back { IfErr result (λ z. trail.new.count ≡ trail.old.count) }
{
    trail.attempt(
        |inner: &mut Trail| -> Result<bool, Fail>
            ensures { IfOk result (λ b. Decides1 E.shown (stands_on side) t inner.old.count
                inner.new.count (Ok b)) }
        { stands_near(linear_model, side, t, inner) },
    )
}

/// Whether the sun stands on a side at a moment: by its linear model where that decides it, as it does but within hours of the
/// bounds of the side, and else by its longitude at the moment.
fn stands<E: Enclosure>(
    linear_model: &SunLinearModel<E>,
    side: Side,
    t: E,
    trail: &mut Trail,
) -> Result<bool, Fail>
    ensures leads { Decides1 E.shown (stands_on side) t trail.old.count trail.new.count result }
    ensures close { IsSmallSide side → Closes1 E.BITS E.shown (2 ^ 33) IsMoment t result }
{
    match stands_tried(linear_model, side, t, trail) {
        Ok(found) => Ok(found),
        Err(_) => stands_at(side, t, trail),
    }
}

/// The test of a day (R.D.).
#[tactic(auto, using(book_model::proofs::Leads::leading), unfolding(book_model::specs::sky::Kinds::has_side_at))]
fn has_side<E: Enclosure, M: DayMoment<E>>(
    moment: &M,
    linear_model: &SunLinearModel<E>,
    side: Side,
    day: i64,
    trail: &mut Trail,
) -> Result<bool, Fail>
    requires day { IsFactDay day }
    ensures leads { Decides (has_side_at (M.moment_of moment.now) side day) trail.old.count
        trail.new.count result }
    ensures close { IsSmallSide side → E.BITS ≡ 56 → IfErr result IsClose }
{
    let there = moment.at(day, trail)?;
    stands(linear_model, side, there, trail)
}

impl<E: Enclosure, M: DayMoment<E>> DayTest<E> for SeasonAt<'_, E, M> {
    ghost test_of = { λ s d. has_side_at (M.moment_of s.moment) s.side d };

    ghost near_on = { λ s d. IsSmallSide s.side };

    fn holds(&self, day: i64, trail: &mut Trail) -> Result<bool, Fail> {
        has_side::<E, M>(&self.moment, self.linear_model, self.side, day, trail)
    }
}

/// The moment at which, as is estimated, the sun was last at a longitude, in degrees, before a moment of a day (R.D.).
#[tactic(auto, using(book_model::proofs::Leads::leading), unfolding(book_model::specs::sky::Kinds::last_passage_of))]
fn last_passage<E: Enclosure, M: DayMoment<E>>(
    moment: &M,
    longitude: i64,
    day: i64,
    trail: &mut Trail,
) -> Result<E, Fail>
    requires day { IsFactDay day }
    ensures leads { Follows E.shown (last_passage_of (M.moment_of moment.now) longitude day)
        trail.old.count trail.new.count result }
    ensures measured { IsSmall longitude → Measured E.BITS E.shown (IsMoment (7 * 2 ^ 34)) result }
{
    let there = moment.at(day, trail)?;
    estimate(E::from_int(longitude), there, trail)
}

// It may set out from anywhere in the years of which ΔT is known: that bound holds
// whatever the moment of the day is.
/// The day (R.D.) of that moment.
#[tactic(auto, using(book_model::proofs::Leads::leading), unfolding(book_model::specs::sky::Kinds::search_start_of))]
fn search_start<E: Enclosure, M: DayMoment<E>>(
    moment: &M,
    longitude: i64,
    day: i64,
    trail: &mut Trail,
) -> Result<i64, Fail>
    requires day { IsValueDay day }
    ensures leads { Decides (spec.search_start_of (M.moment_of moment.now) longitude day)
        trail.old.count trail.new.count result }
    ensures from { IfOk result (λ q. (table_start -ℤ pos 579) ≤ℤ q) }
    ensures to { IfOk result (λ q. q ≤ℤ table_end) }
    ensures close { IsSmall longitude → E.BITS ≡ 56 → IfErr result IsClose }
{
    let passage = last_passage::<E, M>(moment, longitude, day, trail)?;
    floor_step(passage, Site::StartFloor, trail)
}

/// The day (R.D.) by whose moment a season has just begun, the last until a day: the first from the day before the estimated
/// beginning on, of 46, at whose moment the sun stands on its side. It is void at `search` where there is none.
#[tactic(auto, using(book_model::proofs::Leads::leading), unfolding(book_model::specs::sky::Kinds::season_day_of))]
pub(crate) fn season_day<E: Enclosure, M: DayMoment<E>>(
    moment: M,
    linear_model: &SunLinearModel<E>,
    season: Season,
    day: i64,
    trail: &mut Trail,
) -> Result<i64, Fail>
    requires day { IsValueDay day }
    ensures leads { Decides (season_day_of (M.moment_of moment) season day) trail.old.count
        trail.new.count result }
    ensures value { IfOk result IsFactValue }
    ensures close { IsSmallSeason season → E.BITS ≡ 56 → IfErr result IsClose }
{
    let start = search_start::<E, M>(&moment, season.longitude, day, trail)?;
    let test = SeasonAt {
        moment,
        side: season.side,
        linear_model,
    };
    first_day::<E, SeasonAt<E, M>>(&test, start - 1, trail)
}
