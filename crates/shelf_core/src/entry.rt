//! What a slot holds.
ghost use Rattle.std.specs.Prelude.{◌≡◌};

use book_model::Fact;
use oracle_core::Answer;
use std::marker::Model;

/// A fact and an answer, which is right for it: the type says so of each entry that there is.
#[derive(Clone, Copy, Debug, PartialEq, Eq)]
pub struct Entry {
    pub fact: Fact,
    pub answer: Answer,
}

impl Model for Entry {
    ghost use Rattle.book_model.specs.declared.fact.Fact.{Fact};
    ghost use Rattle.oracle_core.specs.declared.evaluator.Answer.{Answer};
    ghost use Rattle.oracle_core.specs.Answers.{IsRightAnswer};

    ghost Value = { Fact × Answer };

    ghost view = { λ e. (e.fact, e.answer) };

    ghost inverse = { λ v. record { fact = v.0; answer = v.1 } };

    ghost invariant = { λ e. IsRightAnswer e.fact e.answer };
}

impl Entry {
    ghost use Rattle.oracle_core.specs.Answers.{IsRightAnswer};

    // The one way to an entry. It asks for an answer that is right, and so each entry says by its
    // type that it is.
    /// The entry of a fact and an answer that is right for it.
    pub fn new(fact: Fact, answer: Answer) -> Entry
        requires right { IsRightAnswer fact answer }
        ensures entry { result ≡ (fact, answer) }
    {
        Entry { fact, answer }
    }

    /// The entry's fact.
    pub fn fact(self) -> Fact
        ensures fact { result ≡ self.0 }
    {
        self.fact
    }

    /// The entry's answer, which is right for the entry's fact.
    pub fn answer(self) -> Answer
        ensures answer { result ≡ self.1 }
        ensures right { IsRightAnswer self.0 result }
    {
        self.answer
    }
}
