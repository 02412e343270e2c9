//! An oracle that asks another one of the sky of another place.
//!
//! The inquiry itself is turned, fact by fact, so that the Chinese rules take no place and no rule stands twice. A law
//! (`moves`) says what that gives over each table of facts: the result over the table read at the place, and the
//! same facts asked, moved.
ghost use Rattle.std.specs.Prelude.{◌≡◌, IsTrue};
ghost use Rattle.book_model.specs.calendars.Moving.{is_eastern, moved_fact};
ghost use Rattle.moved_oracle.specs.Moving.{is_moved_to};

use book_model::{Fact, Kind, Place};
use oracle_core::{Oracle, Stop};

/// Whether the Chinese rules rest on facts of a kind.
fn is_eastern_kind(kind: Kind) -> bool
    ensures eastern { result ≡ is_eastern kind }
{
    match kind {
        Kind::Solstice | Kind::NewMoonBefore | Kind::NewMoonFrom | Kind::Major => true,
        _ => false,
    }
}

/// The fact of the same kind and day at another place, where it is one of those on which the Chinese rules rest, of the sky of
/// Beijing; any other fact stays.
#[tactic(auto, unfolding(book_model::specs::calendars::Moving::moved_fact))]
fn fact_at(place: Place, fact: Fact) -> Fact
    ensures fact { result ≡ moved_fact place fact }
{
    if is_eastern_kind(fact.kind()) && fact.place() == Place::Beijing {
        fact.at(place)
    } else {
        fact
    }
}

/// An oracle over another one, which is asked of the sky of a place whatever is asked of that of Beijing. What is asked of it
/// stands in the other oracle's list, at the place.
///
/// ```
/// // the Vietnamese date of a day
/// let date = chinese_cal::from_fixed(&mut Moved::new(&mut oracle, Place::Hanoi), 740_018)?;
/// ```
#[derive(Drop)]
pub struct Moved<'a, O> {
    inner: &'a mut O,
    place: Place,
}

impl<'a, O> Moved<'a, O> {
    // The calendars differ from the Chinese one in nothing else: fields, cycles, years and epoch
    // are its own, and a year of a reign or an era is none of their fields.
    /// The oracle over another one, of the sky of Hanoi, Seoul or Tokyo.
    pub fn new(inner: &'a mut O, place: Place) -> Moved<'a, O>
        requires moved_to { IsTrue (is_moved_to place) }
        ensures same_reference { result.inner.ghost_name ≡ inner.entry.ghost_name }
        ensures inner { result.inner.now ≡ inner.old }
        ensures place { result.place ≡ place }
    {
        Moved { inner, place }
    }
}

impl<'a, O: Oracle> Oracle for Moved<'a, O> {
    ghost use Rattle.moved_oracle.specs.Moving.{Through, through, through_state, one_through};

    // What it knows holds the name of the reference that was lent to it, which never changes: so
    // whoever lends an oracle learns that it got the same one back, which the call `ask` doesn't
    // say.
    ghost Known = { Through O.Known };

    ghost meaning = { through O.meaning };

    ghost state = { λ m. through_state (O.state m.inner.now) m.place m.inner.ghost_name };

    ghost one_value = { one_through O.meaning O.one_value };

    #[tactic(auto, using(crate::proofs::Passing::asked_through))]
    fn ask(&mut self, fact: Fact) -> Result<i64, Stop> {
        self.inner.ask(fact_at(self.place, fact))
    }
}
