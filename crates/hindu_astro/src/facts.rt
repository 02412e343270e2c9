//! The facts that the rules ask. Days are R.D.
ghost use Rattle.std.specs.Prelude.{◌≡◌, IsTrue};
ghost use Rattle.book_model.specs.calendars.HinduSolar.{hindu_fact};
ghost use Rattle.book_model.specs.sky.Names.{has_place};
ghost use Rattle.hindu_astro.specs.Days.{IsAskedDay};

use book_model::{Fact, Kind, Place};

/// The fact of a kind that is asked of no place.
pub(crate) fn fact_on(kind: Kind, day: i64) -> Fact
    requires placed { IsTrue (has_place kind Place.None) }
    requires near { IsAskedDay day }
    ensures fact { result ≡ hindu_fact kind day }
{
    Fact::new(kind, Place::None, day).unwrap()
}
