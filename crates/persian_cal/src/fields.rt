//! Persian dates as the fields of lines.
ghost use Rattle.book_model.specs.declared.calendar.Calendar.TheVariants.{Persian};
ghost use Rattle.persian_cal.specs.Dates.{fields_of_date};

use crate::date::{PersianDate, from_fixed, to_fixed};
use book_model::Fields;
use oracle_core::{CalendarDate, Oracle, Stop, three_fields, year_month_day};

impl CalendarDate for PersianDate {
    ghost calendar = { Persian };

    ghost fields_of = { fields_of_date };

    fn fields(self) -> Fields {
        three_fields(self.year, self.month, self.day)
    }

    #[tactic(auto, unfolding(book_model::specs::calendars::Dates::may_have, book_model::specs::calendars::Dates::has_some_year, book_model::specs::calendars::Dates::year_number))]
    fn day_by<O: Oracle>(oracle: &mut O, fields: &Fields) -> Result<i64, Stop> {
        let (year, month, day) = year_month_day(fields);
        to_fixed(oracle, PersianDate { year, month, day })
    }

    fn of_day<O: Oracle>(oracle: &mut O, day: i64) -> Result<Self, Stop> {
        from_fixed(oracle, day)
    }
}
