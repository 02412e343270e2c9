//! The facts of a day: the formula of each kind of fact, over enclosures of one kind. It stands between the sky, whose formulas are of a
//! moment, and the evaluator, which asks `formula` alone. A formula makes the tests of its definition in the same order, and each file
//! has one fact or a few that are alike.
//!
//! - `kinds`: `formula`, by the kind of fact, its place and its day;
//! - of a number at a moment: `dt`, `sun`, `distances`, by `rounding`;
//! - of the sun's year: `seasons`, the search that `nowruz`, `sunsets` (the Bahá'í year), `solstice` and `french_year` share;
//! - of days at a place: `midnights`, by which `major`, `solar_terms` and `moon_days` go;
//! - of sun and moon together: `quarters` (the phases and the crescent), `nisan`;
//! - of the Hindu calendars, by sunrise and sunset at Ujjain: `zodiac`, `hindu_days`. Their calls are public, to be called by themselves:
//!   `sign_at_sunset`, `solar_year`, `sankranti` of the solar calendar, `tithi`, `sign_before`, `sign_after`, `calendar_year` of the
//!   lunar one. All but `sign_at_sunset`, which the search for a sankranti calls too, ask for a day of which a fact may have a value.
//!
//! A call that takes a linear model of the sun, or of the moon and the sun, takes that of an interval that holds the moments that it
//! asks, or of all days (`SunLinearModel::always`, `PhaseLinearModel::usual`); `moonrise` and `moonset` stand in `moon_rise`. What the evaluator
//! begins with, of `moon_core`, and what its runs share of evenings, of `crescent`, is re-exported to it.
#![tactic(auto)]

mod distances;
mod dt;
mod french_year;
mod hindu_days;
mod kinds;
mod major;
mod midnights;
mod moon_days;
mod nisan;
mod nowruz;
mod quarters;
mod rounding;
mod seasons;
mod solar_terms;
mod solstice;
mod sun;
mod sunsets;
mod zodiac;

pub use crescent::Sightings;
pub use hindu_days::{
    calendar_year, sankranti, sign_after, sign_at_sunset, sign_before, solar_year, tithi,
};
pub use kinds::formula;
pub use moon_core::{PhaseLinearModel, trail_with_first_moon};
