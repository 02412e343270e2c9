//! Answers facts, and keeps the list of those that it was asked.
ghost use Rattle.std.specs.Prelude.{◌≡◌, ℤ, IfOk};
ghost use Rattle.book_model.specs.declared.fact.Fact.{Fact};
ghost use Rattle.book_model.specs.sky.Facts.{IsFactValue};
ghost use Rattle.book_model.specs.calendars.Inquiries.{ask_once};
ghost use Rattle.oracle_core.specs.declared.oracle.Stop.TheVariants.{Memory as memory_stop};

use book_model::{Fact, Site, Undecided};
use std::alloc::{AllocError, AllocFailed};

/// Why a fact has no answer: a test of it is undecided, it has no value, it isn't known to the oracle, or memory ran out.
#[derive(Clone, Copy, Debug, PartialEq, Eq)]
pub enum Stop {
    Undecided(Fact, Undecided),
    Void(Fact, Site),
    Missing(Fact),
    Memory,
}

impl From<AllocError> for Stop {
    ghost from_gives = { λ _ s. s ≡ memory_stop };

    fn from(_: AllocError) -> Self {
        Stop::Memory
    }
}

impl<T: Drop> From<AllocFailed<T>> for Stop {
    ghost from_gives = { λ _ s. s ≡ memory_stop };

    fn from(_: AllocFailed<T>) -> Self {
        Stop::Memory
    }
}

// One relation, `Inquires`, says what a call that asks gives, for an answer and an early return alike, by
// the states before and after; it joins call by call, as a rule's definition does by `and_then`.
/// Answers facts. Each fact is stored under a fact, mostly itself, and has at most one value.
pub trait Oracle {
    ghost use Rattle.oracle_core.specs.Inquiring.{Meaning, State, Inquires};

    // A type of its own, so that values, keeping and early returns are one function of it (`meaning`), and
    // a call has one clause in place of one for each.
    /// What the oracle knows, which never changes.
    ghost Known: { Type 0 };

    /// What that says of facts.
    ghost meaning: { Meaning Self.Known };

    /// What it knows, and the facts under which the facts asked so far are stored, each once, in order of first use.
    ghost state: { Self → State Self.Known };

    /// The value of a fact, from -10,000,000 to 10,000,000. The fact under which it is stored is added at the end of the
    /// list of facts asked, unless it is there. An early return, of which each but that out of memory names the fact
    /// under which the fact is stored, leaves that list as it was; it never comes at a fact that is in the list.
    fn ask(&mut self, fact: Fact) -> Result<i64, Stop>
        ensures asks { Inquires Self.meaning (ask_once fact) (Self.state self.old)
            (Self.state self.new) result }
        ensures value { IfOk result IsFactValue };

    /// A fact has at most one value.
    ghost one_value: { (k : Self.Known) (f : Fact) (v w : ℤ) → Self.meaning.value_of k f v → Self.meaning.value_of k f w → v ≡ w };
}
