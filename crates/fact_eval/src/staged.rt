//! The evaluator of the program: each fact's formula over coarse enclosures, and over fine ones where these leave it undecided.
ghost use Rattle.book_model.specs.programs.Calls.{Decides};
ghost use Rattle.std.specs.Prelude.{◌≡◌, ◌≤◌, IfOk, IfErr, IsTrue};
ghost use Rattle.book_model.specs.declared.fact.TheConstants.{FIRST_DAY as first_day, LAST_DAY as last_day};
ghost use Rattle.book_model.specs.sky.Correction.{is_between};
ghost use Rattle.book_model.specs.sky.Facts.{AreClose, IsFactValue, IsValueDay, program_of};
ghost use Rattle.oracle_core.specs.Answers.{IsRightAnswer};
ghost use Rattle.book_model.specs.programs.Widths.{IsClose};
ghost use Rattle.fact_eval.specs.Answers.{answer_of, AreCloseAnywhere, IsCloseAnswer, IsCloseAnywhere};
ghost use Rattle.day_facts.specs.WholeDays.{IsNoWholeDay};

use crate::shared::Shared;
use book_model::{FIRST_DAY, Fact, Fail, LAST_DAY, Site, Undecided};
use day_facts::{PhaseLinearModel, Sightings, formula, trail_with_first_moon};
use encl_core::{Coarse, Enclosure, Trail};
use fix_fine::Fine;
use oracle_core::{Answer, Evaluator};

/// What is evaluated before any fact, over enclosures of one kind, and serves every fact: a trail that has made no test and
/// caches the new moon of number 0, and the linear models of the moon and the sun over the usual days.
#[derive(Drop)]
struct Beginning<E: Enclosure> {
    trail: Trail,
    linear_model: PhaseLinearModel<E>,
}

impl<E: Enclosure> Beginning<E> {
    /// What serves every fact.
    fn new() -> Self {
        Beginning {
            trail: trail_with_first_moon::<E>(),
            linear_model: PhaseLinearModel::<E>::usual(),
        }
    }
}

// Of a quarter of a million facts 59 ask the fine kind: what serves it is made where one does, which
// spares a start a sixth of its instructions.
/// Evaluates each fact over coarse enclosures, and over fine ones where these leave a test undecided. What every fact may ask it
/// has evaluated once, over the coarse kind; and later ones are lent what a run finds of ΔT, new moons and
/// evenings.
#[derive(Drop)]
pub struct Staged {
    coarse: Beginning<Coarse>,
    shared: Shared,
    sightings: Sightings,
}

impl Staged {
    /// The evaluator. It takes no memory.
    pub fn new() -> Staged {
        Staged {
            coarse: Beginning::<Coarse>::new(),
            shared: Shared::new(),
            sightings: Sightings::new(),
        }
    }

    /// The answer for a fact over coarse enclosures, in a run that begins with what others have found about its day, and leaves them what
    /// it has found.
    fn coarse_answer(&self, fact: Fact) -> Answer
        ensures right { IsCloseAnswer result → IsRightAnswer fact result }
    {
        let mut trail = self.coarse.trail.anew();
        self.shared.lend(fact.day(), &mut trail);
        let answer = answer_on::<Coarse>(
            &self.coarse.linear_model,
            &self.sightings,
            fact,
            &mut trail,
        );
        self.shared.take(fact.day(), &trail);
        answer
    }
}

/// Whether a fact of the day (R.D.) may have a value.
fn may_have_value(day: i64) -> bool
    ensures same { result ≡ is_between first_day last_day day }
    ensures day { IsTrue result → IsValueDay day }
{
    FIRST_DAY <= day && day <= LAST_DAY
}

/// `evaluate`, where the linear models of the moon and the sun are known over the usual days, and with what runs share of evenings.
fn evaluate_by<E: Enclosure>(
    linear_model: &PhaseLinearModel<E>,
    sightings: &Sightings,
    fact: Fact,
    trail: &mut Trail,
) -> Result<i64, Fail>
    ensures leads { Decides (program_of fact) trail.old.count trail.new.count result }
    ensures value { IfOk result IsFactValue }
    ensures early { trail.old.count ≡ 0 → 36 ≤ E.BITS → E.BITS ≤ 56
        → IfErr result (IsNoWholeDay fact.kind) }
    ensures close { E.BITS ≡ 56 → IfErr result IsClose }
{
    let day = fact.day();
    if !may_have_value(day) {
        return Err(Fail::Void(Site::Year));
    }
    formula::<E>(
        linear_model,
        sightings,
        fact.kind(),
        fact.place(),
        day,
        trail,
    )
}

/// The value of a fact by its formula over enclosures of one kind. It fails where a test is undecided, and over enclosures of the scale
/// 2⁻⁵⁶ the bounds of that test are close then; or where the formula is void, as it is outside 1 July 1700 to 31 December 2149.
pub fn evaluate<E: Enclosure>(fact: Fact, trail: &mut Trail) -> Result<i64, Fail>
    ensures leads { Decides (program_of fact) trail.old.count trail.new.count result }
    ensures value { IfOk result IsFactValue }
    ensures early { trail.old.count ≡ 0 → 36 ≤ E.BITS → E.BITS ≤ 56
        → IfErr result (IsNoWholeDay fact.kind) }
    ensures close { E.BITS ≡ 56 → IfErr result IsClose }
{
    let linear_model = PhaseLinearModel::<E>::usual();
    evaluate_by(&linear_model, &Sightings::new(), fact, trail)
}

/// The answer that a result is.
fn answer(found: Result<i64, Fail>) -> Answer
    ensures { result ≡ answer_of found }
{
    match found {
        Ok(value) => Answer::Value(value),
        Err(Fail::Undecided(at)) => Answer::Undecided(at),
        Err(Fail::Void(site)) => Answer::Void(site),
    }
}

/// The answer for a fact by enclosures of one kind, in a run that has made no test.
fn answer_on<E: Enclosure>(
    linear_model: &PhaseLinearModel<E>,
    sightings: &Sightings,
    fact: Fact,
    trail: &mut Trail,
) -> Answer
    requires fresh { trail.old.count ≡ 0 }
    requires least { 36 ≤ E.BITS }
    requires most { E.BITS ≤ 56 }
    ensures right { IsCloseAnswer result → IsRightAnswer fact result }
    ensures close { E.BITS ≡ 56 → IsCloseAnswer result }
{
    answer(evaluate_by::<E>(linear_model, sightings, fact, trail))
}

/// The answer for a fact by enclosures of one kind, in a run that begins with what serves every fact.
fn answer_from<E: Enclosure>(beginning: &Beginning<E>, fact: Fact) -> Answer
    requires least { 36 ≤ E.BITS }
    requires most { E.BITS ≤ 56 }
    ensures right { IsCloseAnswer result → IsRightAnswer fact result }
    ensures close { E.BITS ≡ 56 → IsCloseAnswer result }
{
    let mut trail = beginning.trail.anew();
    answer_on::<E>(&beginning.linear_model, &Sightings::new(), fact, &mut trail)
}

// The bounds on values are proved for these scales. What it says of an undecided test it says of each
// kind of fact: it is near where its bounds are close, which `is_close` tells.
/// The answer for a fact by enclosures of one kind, with a scale from 2⁻³⁶ to 2⁻⁵⁶. A value and a void are right, and an undecided
/// test is wherever its bounds are no further apart than its site allows: a 2²⁰th, and a 2²⁴th at the tests of a bisection. At the
/// scale 2⁻⁵⁶ they never are further apart.
pub fn answer_over<E: Enclosure>(fact: Fact) -> Answer
    requires least { 36 ≤ E.BITS }
    requires most { E.BITS ≤ 56 }
    ensures right { IsCloseAnswer result → IsRightAnswer fact result }
    ensures close { E.BITS ≡ 56 → IsCloseAnswer result }
{
    answer_from::<E>(&Beginning::<E>::new(), fact)
}

/// How far apart the bounds of an undecided test may lie at every site, in 2⁻⁵⁶: a 2²⁴th.
const CLOSE: i128 = 1 << 32;

/// Whether the bounds of an undecided test are no further apart than every site allows.
fn are_close(at: &Undecided) -> bool
    ensures close { IsTrue result → AreClose at.now }
    ensures told { AreCloseAnywhere at.now → IsTrue result }
{
    match at.hi.checked_sub(at.lo) {
        Some(apart) => apart <= CLOSE,
        None => at.hi < at.lo,
    }
}

/// Whether an answer is no undecided test, or one whose bounds are no further apart than a 2²⁴th, as every site allows.
pub fn is_close(answer: &Answer) -> bool
    ensures close { IsTrue result → IsCloseAnswer answer.now }
    ensures told { IsCloseAnywhere answer.now → IsTrue result }
{
    match answer {
        Answer::Value(_) => true,
        Answer::Undecided(at) => are_close(at),
        Answer::Void(_) => true,
    }
}

impl Evaluator for Staged {
    fn eval(&self, fact: Fact) -> Answer {
        match self.coarse_answer(fact) {
            // By the same formulas, and the fine run's answer is the answer: its bounds are narrower.
            Answer::Undecided(_) => answer_over::<Fine>(fact),
            decided => decided,
        }
    }
}
