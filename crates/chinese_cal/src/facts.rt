//! The facts that the rules ask of the sky of Beijing. Days are R.D.
ghost use Rattle.std.specs.Prelude.{◌≡◌, ◌+ℤ◌, pos};
ghost use Rattle.book_model.specs.calendars.Chinese.{solstice_fact, moon_before_fact, moon_from_fact, major_fact};
ghost use Rattle.chinese_cal.specs.Days.{IsNearDay};

use book_model::{Fact, Kind, Place};

/// The fact of the last winter solstice before the end of a day.
pub(crate) fn solstice_on(day: i64) -> Fact
    requires near { IsNearDay day }
    ensures fact { result ≡ solstice_fact day }
{
    Fact::new(Kind::Solstice, Place::Beijing, day).unwrap()
}

/// The fact of the winter solstice after one.
pub(crate) fn next_solstice(solstice: i64) -> Fact
    requires near { IsNearDay solstice }
    ensures fact { result ≡ solstice_fact (solstice +ℤ pos 370) }
{
    Fact::new(Kind::Solstice, Place::Beijing, solstice + 370).unwrap()
}

/// The fact of the last new moon before a day begins.
pub(crate) fn moon_before(day: i64) -> Fact
    requires near { IsNearDay day }
    ensures fact { result ≡ moon_before_fact day }
{
    Fact::new(Kind::NewMoonBefore, Place::Beijing, day).unwrap()
}

/// The fact of the last new moon before a day ends.
pub(crate) fn moon_until(day: i64) -> Fact
    requires near { IsNearDay day }
    ensures fact { result ≡ moon_before_fact (day +ℤ pos 1) }
{
    Fact::new(Kind::NewMoonBefore, Place::Beijing, day + 1).unwrap()
}

/// The fact of the first new moon once a day has begun.
pub(crate) fn moon_from(day: i64) -> Fact
    requires near { IsNearDay day }
    ensures fact { result ≡ moon_from_fact day }
{
    Fact::new(Kind::NewMoonFrom, Place::Beijing, day).unwrap()
}

/// The fact of the first new moon once a day has ended.
pub(crate) fn moon_after(day: i64) -> Fact
    requires near { IsNearDay day }
    ensures fact { result ≡ moon_from_fact (day +ℤ pos 1) }
{
    Fact::new(Kind::NewMoonFrom, Place::Beijing, day + 1).unwrap()
}

/// The fact of the last major solar term when a day begins.
pub(crate) fn major_term(day: i64) -> Fact
    requires near { IsNearDay day }
    ensures fact { result ≡ major_fact day }
{
    Fact::new(Kind::Major, Place::Beijing, day).unwrap()
}
