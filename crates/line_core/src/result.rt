//! The result of a request.
ghost use Rattle.std.specs.Prelude.{◌≡◌, IsTrue};
ghost use Rattle.book_model.specs.calendars.Dates as dates;
ghost use Rattle.book_model.specs.lines.LineRules as spec;
ghost use Rattle.book_model.specs.declared.version.TheConstants.{WRITTEN};
ghost use Rattle.book_model.specs.lines.Reach.{is_reached};
ghost use Rattle.book_model.specs.lines.Requests.{is_possible, is_in_reach};
ghost use Rattle.book_model.specs.lines.Words.{named_by, shown_by};
ghost use Rattle.book_model.specs.sky.Facts.{IsFactDay};
ghost use Rattle.line_core.specs.Days.{IsTold};
ghost use Rattle.oracle_core.specs.Asking.{Asks};

use crate::checked::Checked;
use crate::dates::{date_on, have_same_fields, known_day, named_day, one_field};
use crate::reach::{is_within, reach_of};
use book_model::{
    Calendar, Fact, Fields, FromWord, Kind, Meaning, Place, Request, Resolved, ToWord, Version,
};
use oracle_core::{Oracle, Stop};

/// The date of a day (R.D.) as a result. It returns early where the oracle does.
#[tactic(auto, using(oracle_core::proofs::Inquiring::asking))]
fn show_date<O: Oracle>(
    oracle: &mut O,
    to: ToWord,
    calendar: Calendar,
    day: i64,
) -> Result<Resolved, Stop>
    requires told { dates.IsDateDay calendar day }
    ensures comes { Asks O.Oracle (spec.shown_on to (Meaning.Date calendar) day)
        oracle.old oracle.new result }
{
    let fields = date_on(oracle, calendar, day)?;
    Ok(Resolved::Shown(to, fields))
}

/// The fact that a word shows the value of, on a day (R.D.).
#[tactic(auto, using(book_model::proofs::WordTables::value_placed))]
fn fact_on(to: ToWord, kind: Kind, place: Place, day: i64) -> Fact
    requires shown { shown_by to ≡ Meaning.Value kind place }
    requires day { IsFactDay day }
    ensures fact { result ≡ spec.fact_on kind place day }
{
    Fact::new(kind, place, day).unwrap()
}

/// The value of a fact on a day (R.D.) as a result. It returns early where the oracle does.
#[tactic(auto, using(oracle_core::proofs::Inquiring::asking))]
fn show_value<O: Oracle>(
    oracle: &mut O,
    to: ToWord,
    kind: Kind,
    place: Place,
    day: i64,
) -> Result<Resolved, Stop>
    requires shown { shown_by to ≡ Meaning.Value kind place }
    requires day { IsFactDay day }
    ensures comes { Asks O.Oracle (spec.shown_on to (Meaning.Value kind place) day)
        oracle.old oracle.new result }
{
    let value = oracle.ask(fact_on(to, kind, place, day))?;
    Ok(Resolved::Shown(to, one_field(value)))
}

/// The result for a day (R.D.): its date, or the value of its fact, as the word after the date asks. It returns early where the
/// oracle does.
fn resolve_on<O: Oracle>(oracle: &mut O, to: ToWord, day: i64) -> Result<Resolved, Stop>
    requires told { IsTold (shown_by to) day }
    ensures comes { Asks O.Oracle (spec.result_on to day) oracle.old oracle.new result }
{
    match to.shows() {
        Meaning::Date(calendar) => show_date(oracle, to, calendar, day),
        Meaning::Value(kind, place) => show_value(oracle, to, kind, place, day),
    }
}

/// The result for a day (R.D.) whose own date is this one; `NoDate`, where that isn't the date of the request. It returns early
/// where the oracle does.
#[tactic(auto, using(oracle_core::proofs::Inquiring::asking), unfolding(book_model::specs::lines::LineRules::confirmed))]
fn confirm<O: Oracle>(
    oracle: &mut O,
    request: &Request,
    day: i64,
    back: Fields,
) -> Result<Resolved, Stop>
    requires told { IsTold (shown_by request.now.to) day }
    ensures comes { Asks O.Oracle (spec.confirmed request.now day back)
        oracle.old oracle.new result }
{
    if have_same_fields(&back, &request.date) {
        resolve_on(oracle, request.to, day)
    } else {
        Ok(Resolved::NoDate { back })
    }
}

// The own date is taken after the range check and before TO: so a line that is refused with a date
// lists no fact of TO. A Gregorian date is never confirmed, since its check says that the month has
// the day.
/// The result for a day (R.D.) within the range that the date of a request names: the date is confirmed where the calendar has
/// dates that no day has. It returns early where the oracle does.
#[tactic(auto, using(oracle_core::proofs::Inquiring::asking), unfolding(book_model::specs::lines::LineRules::result_within))]
fn resolve_within<O: Oracle>(oracle: &mut O, request: &Request, day: i64) -> Result<Resolved, Stop>
    requires reached { IsTrue (is_reached WRITTEN request.now.from request.now.to day) }
    ensures comes { Asks O.Oracle (spec.result_within request.now day)
        oracle.old oracle.new result }
{
    let calendar = request.from.calendar();
    if !calendar.row().is_confirmed {
        return resolve_on(oracle, request.to, day);
    }
    let back = date_on(oracle, calendar, day)?;
    confirm(oracle, request, day, back)
}

/// The result for a day (R.D.) that the date of a request names: `TooFar` where the line may not name it, and `NoDate` where
/// the calendar of the request has another date for it. It returns early where the oracle does.
#[tactic(auto, using(oracle_core::proofs::Inquiring::asking), unfolding(book_model::specs::lines::LineRules::result_of_day))]
fn resolve_day<O: Oracle>(oracle: &mut O, checked: &Checked, day: i64) -> Result<Resolved, Stop>
    ensures comes { Asks O.Oracle (spec.result_of_day checked.now.version checked.now.request day)
        oracle.old oracle.new result }
{
    if is_within(checked.reach, day) {
        resolve_within(oracle, &checked.request, day)
    } else {
        Ok(Resolved::TooFar { day })
    }
}

/// The fact by whose value a word and the day (R.D.) of a Gregorian date name a day.
#[tactic(auto, using(book_model::proofs::WordTables::day_placed))]
fn named_fact(from: FromWord, kind: Kind, place: Place, day: i64) -> Fact
    requires named { named_by from ≡ Meaning.Value kind place }
    requires day { IsFactDay day }
    ensures fact { result ≡ spec.fact_on kind place day }
{
    Fact::new(kind, place, day).unwrap()
}

/// The day (R.D.) that the date of a request names: in a calendar, or by the value of a fact. It returns early where the oracle does.
#[tactic(auto, using(oracle_core::proofs::Inquiring::asking))]
fn day_of_request<O: Oracle>(oracle: &mut O, checked: &Checked) -> Result<i64, Stop>
    ensures comes { Asks O.Oracle (spec.day_by (named_by checked.now.request.from)
        checked.now.request.date) oracle.old oracle.new result }
{
    let request = &checked.request;
    match request.from.names() {
        Meaning::Date(calendar) => named_day(oracle, calendar, &request.date, checked.day),
        Meaning::Value(kind, place) => {
            let fact = named_fact(request.from, kind, place, checked.day);
            oracle.ask(fact)
        }
    }
}

/// The result of a request that was checked, as `resolve` gives it: its day and its reach aren't computed again.
#[tactic(auto, using(oracle_core::proofs::Inquiring::asking), unfolding(book_model::specs::lines::LineRules::rule_of))]
pub fn resolve_checked<O: Oracle>(oracle: &mut O, checked: &Checked) -> Result<Resolved, Stop>
    ensures comes { Asks O.Oracle (spec.rule_of checked.now.version checked.now.request)
        oracle.old oracle.new result }
{
    let day = day_of_request(oracle, checked)?;
    resolve_day(oracle, checked, day)
}

/// A request that breaks no rule of a version by itself, with what its check finds.
fn checked_again(request: &Request, version: Version) -> Checked
    requires possible { IsTrue (is_possible request.now) }
    requires in_reach { IsTrue (is_in_reach version request.now) }
    ensures request { result.request ≡ request.now }
    ensures version { result.version ≡ version }
{
    let reach = reach_of(version, request.from, request.to);
    let (day, _) = known_day(reach, request.from.calendar(), &request.date).unwrap();
    Checked {
        request: *request,
        version,
        day,
        reach,
    }
}

/// The result of a request that breaks no rule of a version by itself: that of the line's rule by what the oracle
/// knows, for which the facts that the rule asks are added to the oracle's list. `TooFar` comes exactly where the day
/// that the date names isn't one of those that the line may name, which are the days of the version from the first on of
/// which its calendars tell the dates, and `NoDate` exactly where it is and has another date in the calendar of the request. It
/// returns early where the oracle does, at a fact that the rule asks.
///
/// ```
/// let evaluator = Staged::new();
/// let mut oracle = Asking::new(rt.alloc(), &evaluator);
/// let Ok(request) = read_line(b"persian 1402-12-30 fixed", Version::Two) else { return; };
/// let resolved = resolve(&mut oracle, &request, Version::Two)?; // NoDate: that day is the first of the year 1403
/// ```
pub fn resolve<O: Oracle>(
    oracle: &mut O,
    request: &Request,
    version: Version,
) -> Result<Resolved, Stop>
    requires possible { IsTrue (is_possible request.now) }
    requires in_reach { IsTrue (is_in_reach version request.now) }
    ensures comes { Asks O.Oracle (spec.rule_of version request.now) oracle.old oracle.new result }
{
    resolve_checked(oracle, &checked_again(request, version))
}
