//! Gregorian dates and their days.
ghost use Rattle.std.specs.Prelude.{◌≡◌, ◌↔◌, IsTrue, IsSome, IfSome};
ghost use Rattle.book_model.specs.calendars.Gregorian.{is_date, fixed_of};
ghost use Rattle.book_model.specs.calendars.Dates as dates;
ghost use Rattle.book_model.specs.declared.calendar.Calendar.TheVariants.{Gregorian};

use book_model::Fields;
use civil_core::{from_fixed, to_fixed};

/// The day number (R.D.) of the date of the years 1 to 9999 with these numbers, if the calendar has it.
fn date_day(year: u32, month: u32, day: u32) -> Option<i64>
    ensures some { IsSome result ↔ IsTrue (is_date year month day) }
    ensures day { IfSome result (λ n. n ≡ fixed_of year month day) }
{
    let year = i32::try_from(year).ok()?;
    let month = u8::try_from(month).ok()?;
    let day = u8::try_from(day).ok()?;
    to_fixed(year, month, day).ok()
}

/// The day (R.D.) of a Gregorian date, if the calendar has it.
pub(crate) fn gregorian_day(date: &Fields) -> Option<i64>
    ensures some { IsSome result ↔ IsTrue (is_date (dates.field date.now 0) (dates.field date.now 1)
        (dates.field date.now 2)) }
    ensures day { IfSome result (λ n. n ≡ dates.gregorian_day date.now) }
{
    date_day(date.field(0), date.field(1), date.field(2))
}

/// The year, month and day of a day number (R.D.).
pub(crate) fn gregorian_date(day: i64) -> Fields
    requires day { dates.IsDateDay Gregorian day }
    ensures fields { result ≡ dates.gregorian_fields_on day }
{
    let date = from_fixed(day).unwrap();
    Fields {
        count: 3,
        values: [date.year, i32::from(date.month), i32::from(date.day), 0, 0],
    }
}
