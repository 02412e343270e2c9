//! Laws of inquiries, which hold of every oracle. Each function does nothing; its contract is the law.
ghost use Rattle.std.specs.Prelude.{Ok, Err};
ghost use Rattle.book_model.specs.calendars.Inquiries.{Inquiry};
ghost use Rattle.oracle_core.specs.Inquiring.{State, Inquires};
ghost use Rattle.oracle_core.specs.Tables.{AnswersOver, StopsOver};
ghost use Rattle.oracle_core.specs.declared.oracle.Stop.{Stop};

use crate::Oracle;

/// What comes of an inquiry by an oracle's knowledge is its result over every table that gives each fact that was
/// asked the value which the oracle has beside the fact under which it is stored, whatever the table gives others.
#[tactic(auto, using(crate::proofs::Tables::answers_over, crate::proofs::Tables::stops_over))]
pub fn tables<T, O: Oracle>()
    ensures answers { (i : Inquiry T) (old new : State O.Known) (a : T)
        → Inquires O.meaning i old new (Ok a) → AnswersOver O.meaning i old new a }
    ensures stops { (i : Inquiry T) (old new : State O.Known) (s : Stop)
        → Inquires O.meaning i old new (Err s) → StopsOver O.meaning i old new s }
{}
