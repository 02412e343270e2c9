//! What the dates of a calendar have in common: their fields, the day of a date, and the date of a day.
ghost use Rattle.std.specs.Prelude.{◌≡◌};
ghost use Rattle.book_model.specs.calendars.Dates.{IsAskable, IsDateDay, day_named, date_on};
ghost use Rattle.book_model.specs.declared.calendar.Calendar.{Calendar};
ghost use Rattle.book_model.specs.declared.request.Fields.{Fields as FieldsOf};
ghost use Rattle.oracle_core.specs.Asking.{Asks, AsksAs};

use crate::{Oracle, Stop};
use book_model::Fields;

// Gregorian dates and day numbers aren't among them: their days are known without any fact, and ask
// no oracle.
/// A date of a calendar, whose day is found by facts.
pub trait CalendarDate: Copy + Drop {
    /// The calendar.
    ghost calendar: { Calendar };

    /// The fields of a date, in the calendar's order.
    ghost fields_of: { Self → FieldsOf };

    /// The fields of the date.
    fn fields(self) -> Fields
        ensures fields { result ≡ fields_of self };

    // It asks for fields that the calendar may have, of a year that some version answers, and
    // `of_day` for a day whose date the calendar tells: both read the calendar's row, so no
    // condition has a number of a range.
    /// The day (R.D.) that the fields of a date name. It returns early where the oracle does.
    fn day_by<O: Oracle>(oracle: &mut O, fields: &Fields) -> Result<i64, Stop>
        requires askable { IsAskable calendar fields.now }
        ensures day { Asks O.Oracle (day_named calendar fields.now) oracle.old oracle.new result };

    /// The date of a day (R.D.). It returns early where the oracle does.
    fn of_day<O: Oracle>(oracle: &mut O, day: i64) -> Result<Self, Stop>
        requires day { IsDateDay calendar day }
        ensures date { AsksAs fields_of O.Oracle (date_on calendar day) oracle.old oracle.new result };
}
