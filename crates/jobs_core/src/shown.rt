//! A value that a line shows, as it is kept until the line is printed.
ghost use Rattle.std.specs.Prelude.{◌≡◌, ◌∷◌, [], ℤ, IfSome};
ghost use Rattle.book_model.specs.declared.fact.Fact.{Fact as FactOf};
ghost use Rattle.book_model.specs.declared.words.ToWord.{ToWord as ToWordOf};
ghost use Rattle.book_model.specs.lines.LineRules.{fact_on};
ghost use Rattle.book_model.specs.lines.Outcomes.{resolved as resolved_by};
ghost use Rattle.book_model.specs.sky.Facts.{IsFact};
ghost use Rattle.jobs_core.specs.Shown.{value_fields, shown_outcome};

use book_model::{Fact, Fields, Kind, Place, Resolved, ToWord};
use std::marker::Model;

// An allocation is an eighth of what a line of a value costs whose fact is known already: so its
// outcome takes none, and 16 bytes, as that of a line that breaks a rule.
/// The value of a fact that a line shows, which rests on this fact alone. Contracts see it as the word for what the line asks,
/// and the fact with its value.
#[derive(Drop)]
pub struct ShownValue {
    to: ToWord,
    kind: Kind,
    place: Place,
    day: i32,
    value: i32,
}

impl Model for ShownValue {
    ghost Value = { ToWordOf × (FactOf × ℤ) };

    ghost view = { λ s. (s.to, (fact_on s.kind s.place s.day, s.value)) };

    ghost invariant = { λ s. IsFact s.kind s.place s.day };
}

/// The value that the fields of a result are, if they are one.
fn value_in(fields: &Fields) -> Option<i32>
    ensures value { IfSome result (λ value. fields.now ≡ value_fields value) }
{
    let value = fields.values[0];
    let are_others_none = fields.values[1] == 0
        && fields.values[2] == 0
        && fields.values[3] == 0
        && fields.values[4] == 0;
    if fields.count == 1 && are_others_none {
        Some(value)
    } else {
        None
    }
}

impl ShownValue {
    /// The value of a fact that a word shows; `None` where the day has more than 32 bits, or the place isn't one of the kind's.
    fn of_fact(to: ToWord, fact: Fact, value: i32) -> Option<ShownValue>
        ensures value { IfSome result (λ s. s ≡ (to, (fact, value))) }
    {
        let day = i32::try_from(fact.day()).ok()?;
        let fact = Fact::new(fact.kind(), fact.place(), i64::from(day))?;
        Some(ShownValue {
            to,
            kind: fact.kind(),
            place: fact.place(),
            day,
            value,
        })
    }

    /// The result of a line that rests on one fact with its value, if it is a value, and that of this fact. `None` says
    /// nothing.
    pub(crate) fn of(resolved: &Resolved, entry: (Fact, i64)) -> Option<ShownValue>
        ensures shown { IfSome result (λ s. shown_outcome s
            ≡ resolved_by resolved.now (entry ∷ [])) }
    {
        let Resolved::Shown(to, fields) = resolved else {
            return None;
        };
        let value = value_in(fields)?;
        if i64::from(value) == entry.1 {
            ShownValue::of_fact(*to, entry.0, value)
        } else {
            None
        }
    }

    /// The result of the line.
    pub fn resolved(&self) -> Resolved
        ensures resolved { result ≡ Resolved.Shown self.now.0 (value_fields self.now.1.1) }
    {
        Resolved::Shown(
            self.to,
            Fields {
                count: 1,
                values: [self.value, 0, 0, 0, 0],
            },
        )
    }

    /// The fact, with its value.
    pub fn entry(&self) -> (Fact, i64)
        ensures entry { result ≡ self.now.1 }
    {
        let fact = Fact::new(self.kind, self.place, i64::from(self.day)).unwrap();
        (fact, i64::from(self.value))
    }
}
