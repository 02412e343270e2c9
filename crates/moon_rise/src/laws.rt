//! Laws of the definitions, each carried by a function that does nothing.
ghost use Rattle.std.specs.Prelude.{ℕ, ℤ, Bool, true, false, pos, ◌≤ℤ◌};
ghost use Rattle.book_model.specs.declared.fact.Place.{Place};
ghost use Rattle.book_model.specs.declared.horizon.Location.{Location};
ghost use Rattle.book_model.specs.programs.Programs.{Program};
ghost use Rattle.book_model.specs.programs.Crossings.{crossing_of};
ghost use Rattle.moon_rise.specs.Crossings.{ComesToAlways, HasCrossing};
ghost use Rattle.book_model.specs.sky.Moonrise.{moonrise_of, moonset_of, up_at_of};

/// Where a minute from 0 on is found at every depth from 40 on, there is an interval of 15/16 minute at whose beginning it isn't so
/// and at whose end it is, at every depth from 40 on, and the minute lies in it, or no more than 1/32 minute after it.
#[tactic(auto, using(crate::proofs::Crossings::crossing_found))]
pub fn crossings()
    ensures found { (holds : ℕ → Program Bool) (v : ℤ) → pos 0 ≤ℤ v
        → ComesToAlways (crossing_of holds) v → HasCrossing holds false v }
{}

/// So it is with the minute in which the moon rises, and the one in which it sets: at the two bounds of such an interval the moon
/// is down and then up, or up and then down.
#[tactic(auto, using(crate::proofs::Crossings::rising_found, crate::proofs::Crossings::setting_found))]
pub fn risings()
    ensures rising { (place : Place) (location : Location) (day v : ℤ) → pos 0 ≤ℤ v
        → ComesToAlways (moonrise_of place location day) v
        → HasCrossing (up_at_of place location day) false v }
    ensures setting { (place : Place) (location : Location) (day v : ℤ) → pos 0 ≤ℤ v
        → ComesToAlways (moonset_of place location day) v
        → HasCrossing (up_at_of place location day) true v }
{}
