//! When the crescent is looked for at a location, evening after evening.
ghost use Rattle.book_model.specs.programs.Calls.{Follows};
ghost use Rattle.book_model.specs.programs.Widths.{Measured};
ghost use Rattle.std.specs.Prelude.{◌≡◌, ℕ, pos, ◌≤ℤ◌, ◌-ℤ◌, Ok, IfSome};
ghost use Rattle.rise_set.specs.Widths.{IsNarrowLocation};
ghost use Rattle.crescent.specs.Widths.{IsEvening};
ghost use Rattle.crescent.specs.Sightings.{IsSighting};
ghost use Rattle.book_model.specs.programs.Calls.{Decides};
ghost use Rattle.book_model.specs.sky.Crescent as spec;
ghost use Rattle.book_model.specs.sky.Facts.{IsFactDay};
ghost use Rattle.book_model.specs.declared.fact.TheConstants.{FIRST_FACT_DAY as first_fact_day};

use crate::sightings::{Observer, Sighting};
use book_model::crescent_tables::CRESCENT_DEPRESSION;
use book_model::{Fail, Location};
use encl_core::{Enclosure, Trail};
use rise_set::{Horizon, dusk_at, horizon_at, universal};
use std::marker::Model;

// As the `Sunsets` of rise_set: its type says whose horizon it keeps.
/// The evenings at a location on which the crescent is looked for: its horizon, which is the same on each day, and who looks, if that
/// is known. Contracts see the location.
#[derive(Drop)]
pub(crate) struct Evenings<'a, E: Enclosure> {
    horizon: Horizon<E>,
    observer: Option<&'a Observer<'a>>,
}

impl<'a, E: Enclosure> Model for Evenings<'a, E> {
    ghost use Rattle.book_model.specs.declared.crescent_tables.TheConstants.{CRESCENT_DEPRESSION as depression};
    ghost use Rattle.book_model.specs.declared.horizon.Location.{Location};
    ghost use Rattle.book_model.specs.numbers.Expressions.{constant};
    ghost use Rattle.book_model.specs.numbers.Fractions.{fraction_of};
    ghost use Rattle.rise_set.specs.Horizons.{IsHorizonOf};
    ghost use Rattle.std.specs.Prelude.{◌≡◌, IfSome};

    ghost Value = { Location };

    ghost view = { λ s. s.horizon.location };

    ghost invariant = { λ s. IsHorizonOf E.shown E.BITS (constant (fraction_of depression)) s.horizon
        × IfSome s.observer (λ o. o.now ≡ s.horizon.location) };
}

impl<'a, E: Enclosure> Evenings<'a, E> {
    /// The evenings at a location. It makes no test.
    pub(crate) fn new(location: &Location) -> Self
        ensures location { result ≡ location.now }
    {
        Evenings {
            horizon: horizon_at(location, E::from_frac(CRESCENT_DEPRESSION)),
            observer: None,
        }
    }

    /// The evenings of one who looks. It makes no test.
    pub(crate) fn of(observer: &'a Observer<'a>) -> Self
        ensures location { result ≡ observer.now }
    {
        Evenings {
            horizon: horizon_at(&observer.location(), E::from_frac(CRESCENT_DEPRESSION)),
            observer: Some(observer),
        }
    }

    /// The location.
    pub(crate) fn location(&self) -> Location
        ensures location { result ≡ self.now }
    {
        self.horizon.location
    }

    /// When the crescent is looked for on the evening with which a day (R.D.) begins, in universal time: 132 tests at most
    /// (`evening_few`).
    #[tactic(auto, using(book_model::proofs::Leads::leading), unfolding(book_model::specs::sky::Crescent::evening_of))]
    pub(crate) fn on(&self, day: i64, trail: &mut Trail) -> Result<E, Fail>
        requires low { first_fact_day ≤ℤ day }
        ensures leads { Follows E.shown (spec.evening_of self.now day) trail.old.count
            trail.new.count result }
        ensures measured { IsNarrowLocation self.now → IsFactDay (day -ℤ pos 1)
            → Measured E.BITS E.shown IsEvening result }
    {
        let t = dusk_at(&self.horizon, day - 1, trail)?;
        Ok(universal(self.horizon.location.longitude, t))
    }

    /// What is known of the evening with which a day (R.D.) begins, if who looks is known.
    pub(crate) fn known(&self, day: i64) -> Option<Sighting>
        ensures right { IfSome result (λ s. IsSighting self.now day s.tests s.is_seen) }
    {
        self.observer?.known(day)
    }

    /// Keeps for who looks what a run has decided of the evening with which a day (R.D.) begins, by its count of tests before and after.
    pub(crate) fn learn(&self, day: i64, is_seen: bool, before: u32, after: u32)
        requires decided { Decides (spec.visible_of self.now day) before after (Ok is_seen) }
    {
        if let Some(observer) = self.observer {
            observer.learn(day, is_seen, before, after);
        }
    }
}
