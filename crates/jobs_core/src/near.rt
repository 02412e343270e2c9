//! Facts whose days are near one another, with their values, as they are kept until their line is printed.
ghost use Rattle.std.specs.Prelude.{◌≡◌, ◌<◌, ◌+ℤ◌, ℤ, List, All, map, length, IfOk, IfSome, slice_index_or};
ghost use Rattle.book_model.specs.declared.fact.Fact.{Fact as FactOf};
ghost use Rattle.jobs_core.specs.Near.{near_pair, IsNear};

use book_model::{Fact, Kind, Place};
use std::alloc::{AllocError, Global};
use std::marker::Model;

// Eight bytes, where a fact with its value takes 24: a line of 40 bytes may ask forty facts.
/// A fact with its value, by how many days it stands behind a first fact.
#[derive(Clone, Copy)]
pub struct NearFact {
    kind: Kind,
    place: Place,
    days: i16,
    value: i32,
}

/// How many days the day of a fact stands behind that of another; `None` says nothing.
fn days_behind(first: Fact, fact: Fact) -> Option<i16>
    ensures days { IfSome result (λ days. first.day +ℤ days ≡ fact.day) }
{
    i16::try_from(fact.day().checked_sub(first.day())?).ok()
}

/// A value in 32 bits; `None` says nothing.
fn short_value(value: i64) -> Option<i32>
    ensures value { IfSome result (λ short. short ≡ value) }
{
    i32::try_from(value).ok()
}

/// A fact with its value, behind a first fact; `None` says nothing.
fn near_of(first: Fact, pair: (Fact, i64)) -> Option<NearFact>
    ensures pair { IfSome result (λ near. near_pair first near ≡ pair) }
    ensures near { IfSome result (IsNear first) }
{
    let days = days_behind(first, pair.0)?;
    let value = short_value(pair.1)?;
    let fact = Fact::new(pair.0.kind(), pair.0.place(), pair.0.day())?;
    Some(NearFact {
        kind: fact.kind(),
        place: fact.place(),
        days,
        value,
    })
}

/// The day of a fact behind a first fact.
fn day_of(first: Fact, near: NearFact) -> i64
    requires near { IsNear first near }
    ensures day { result ≡ first.day +ℤ near.days }
{
    first.day() + i64::from(near.days)
}

/// The fact with its value, behind a first fact.
fn pair_of(first: Fact, near: NearFact) -> (Fact, i64)
    requires near { IsNear first near }
    ensures pair { result ≡ near_pair first near }
{
    let fact = Fact::new(near.kind, near.place, day_of(first, near)).unwrap();
    (fact, i64::from(near.value))
}

/// Facts with their values, behind a first fact; `None` where one isn't near it. The error comes where memory runs out.
fn all_near(
    alloc: Global,
    first: Fact,
    pairs: &[(Fact, i64)],
) -> Result<Option<Vec<NearFact>>, AllocError>
    ensures pairs { IfOk result (λ all. IfSome all (λ near. map (near_pair first) near.items
        ≡ pairs.now)) }
    ensures near { IfOk result (λ all. IfSome all (λ near. All (IsNear first) near.items)) }
{
    let mut all = Vec::with_capacity(alloc, pairs.len())?;
    for pair in pairs {
        let Some(near) = near_of(first, *pair) else {
            return Ok(None);
        };
        all.push(near)?;
    }
    Ok(Some(all))
}

/// Facts with their values, in order, whose days are near the first one's. Contracts see them as a list.
#[derive(Drop)]
pub struct NearFacts {
    first: Fact,
    all: Vec<NearFact>,
}

impl Model for NearFacts {
    ghost Value = { List (FactOf × ℤ) };

    ghost view = { λ n. map (near_pair n.first) n.all.items };

    ghost invariant = { λ n. All (IsNear n.first) n.all.items };
}

impl NearFacts {
    /// These facts with their values; `None` where their days aren't near one another. The error comes where memory runs out.
    pub(crate) fn of(alloc: Global, pairs: &[(Fact, i64)]) -> Result<Option<NearFacts>, AllocError>
        ensures pairs { IfOk result (λ near. IfSome near (λ facts. facts ≡ pairs.now)) }
    {
        let Some(pair) = pairs.first() else {
            return Ok(None);
        };
        let first = pair.0;
        match all_near(alloc, first, pairs)? {
            Some(all) => Ok(Some(NearFacts { first, all })),
            None => Ok(None),
        }
    }

    /// How many there are.
    pub(crate) fn len(&self) -> usize
        ensures len { result ≡ length self.now }
    {
        self.all.len()
    }

    /// A fact with its value, from 0.
    pub(crate) fn pair(&self, index: usize) -> (Fact, i64)
        requires within { index < length self.now }
        ensures pair { result ≡ slice_index_or self.now index result }
    {
        pair_of(self.first, self.all[index])
    }
}
