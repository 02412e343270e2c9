//! The facts that tables list, each by its day (R.D.).
ghost use Rattle.std.specs.Prelude.{◌≡◌, ◌≤ℤ◌, IsTrue};
ghost use Rattle.book_model.specs.calendars.Bahai.{bahai_fact};
ghost use Rattle.book_model.specs.calendars.Chinese.{solstice_fact, moon_before_fact, moon_from_fact, major_fact};
ghost use Rattle.book_model.specs.calendars.French.{french_year_fact};
ghost use Rattle.book_model.specs.calendars.HebrewObserved.{month_fact};
ghost use Rattle.book_model.specs.calendars.HinduSolar.{hindu_fact};
ghost use Rattle.book_model.specs.calendars.Islamic.{phasis_fact};
ghost use Rattle.book_model.specs.calendars.Persian.{nowruz_fact};
ghost use Rattle.book_model.specs.sky.Facts.{IsFactDay};
ghost use Rattle.book_model.specs.sky.Names.{has_place};

use book_model::{Fact, Kind, Place};
use std::process::Abort;

/// A number of a table, which has to lie between these.
pub fn within(rt: &impl Abort, number: i64, from: i64, to: i64) -> i64
    ensures from { from ≤ℤ result }
    ensures to { result ≤ℤ to }
{
    assert!(rt; from <= number);
    assert!(rt; number <= to);
    number
}

/// The fact of the first day of the Persian year that a day falls in.
pub fn nowruz_on(day: i64) -> Fact
    requires day { IsFactDay day }
    ensures fact { result ≡ nowruz_fact day }
{
    Fact::new(Kind::Nowruz, Place::None, day).unwrap()
}

/// The fact of the first day of the Bahá'í year that a day falls in.
pub fn bahai_year_on(day: i64) -> Fact
    requires day { IsFactDay day }
    ensures fact { result ≡ bahai_fact day }
{
    Fact::new(Kind::BahaiYear, Place::None, day).unwrap()
}

/// The fact of the first day of the Islamic month that a day falls in.
pub fn phasis_on(day: i64) -> Fact
    requires day { IsFactDay day }
    ensures fact { result ≡ phasis_fact day }
{
    Fact::new(Kind::Phasis, Place::Cairo, day).unwrap()
}

/// The fact of the first day of the French year that a day falls in.
pub fn french_year_on(day: i64) -> Fact
    requires day { IsFactDay day }
    ensures fact { result ≡ french_year_fact day }
{
    Fact::new(Kind::FrenchYear, Place::None, day).unwrap()
}

/// The fact of the first day of the Hebrew month that a day falls in.
pub fn hebrew_month_on(day: i64) -> Fact
    requires day { IsFactDay day }
    ensures fact { result ≡ month_fact day }
{
    Fact::new(Kind::Phasis, Place::Haifa, day).unwrap()
}

/// The fact of the first day of Nisan about the equinox that is next from a day on.
pub fn nisan_from(day: i64) -> Fact
    requires day { IsFactDay day }
    ensures fact { result ≡ record { kind = Kind.Nisan; place = Place.Haifa; day = day } }
{
    Fact::new(Kind::Nisan, Place::Haifa, day).unwrap()
}

/// The fact of the last winter solstice before the end of a day.
pub fn solstice_on(day: i64) -> Fact
    requires day { IsFactDay day }
    ensures fact { result ≡ solstice_fact day }
{
    Fact::new(Kind::Solstice, Place::Beijing, day).unwrap()
}

/// The fact of the last new moon before a day begins.
pub fn moon_before(day: i64) -> Fact
    requires day { IsFactDay day }
    ensures fact { result ≡ moon_before_fact day }
{
    Fact::new(Kind::NewMoonBefore, Place::Beijing, day).unwrap()
}

/// The fact of the first new moon once a day has begun.
pub fn moon_from(day: i64) -> Fact
    requires day { IsFactDay day }
    ensures fact { result ≡ moon_from_fact day }
{
    Fact::new(Kind::NewMoonFrom, Place::Beijing, day).unwrap()
}

/// The fact of the last major solar term when a day begins.
pub fn major_term(day: i64) -> Fact
    requires day { IsFactDay day }
    ensures fact { result ≡ major_fact day }
{
    Fact::new(Kind::Major, Place::Beijing, day).unwrap()
}

/// The fact of a kind that is asked of no place.
pub fn fact_on(kind: Kind, day: i64) -> Fact
    requires placed { IsTrue (has_place kind Place.None) }
    requires day { IsFactDay day }
    ensures fact { result ≡ hindu_fact kind day }
{
    Fact::new(kind, Place::None, day).unwrap()
}
