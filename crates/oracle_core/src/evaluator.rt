//! What an evaluator answers, and when its answer is right.
//!
//! The contract stands below the code that evaluates, so that an oracle over any evaluator is proved once.
use book_model::{Fact, Site, Undecided};

/// The answer for a fact: its value, a test that the enclosures leave undecided, or the site where it has no value.
#[derive(Clone, Copy, Debug, PartialEq, Eq)]
pub enum Answer {
    Value(i64),
    Undecided(Undecided),
    Void(Site),
}

/// Answers facts.
pub trait Evaluator {
    ghost use Rattle.oracle_core.specs.Answers.{IsRightAnswer};

    /// The answer for a fact. A value comes only where the fact is true with it, and lies in -10,000,000 to
    /// 10,000,000; an undecided test only where the fact is near at it; a void only where the fact is void there.
    ///
    /// ```
    /// if let Some(fact) = Fact::new(Kind::Nowruz, Place::None, 739_145) {
    ///     let answer = Staged::new().eval(fact); // Value(738_965): the Persian year began on 20 March 2024
    /// }
    /// ```
    fn eval(&self, fact: Fact) -> Answer
        ensures { IsRightAnswer fact result };
}
