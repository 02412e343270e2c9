//! Chinese dates as the fields of lines.
ghost use Rattle.book_model.specs.declared.calendar.Calendar.TheVariants.{Chinese};
ghost use Rattle.chinese_cal.specs.Dates.{fields_of_date};

use crate::date::{ChineseDate, from_fixed};
use crate::day::to_fixed;
use book_model::Fields;
use oracle_core::{CalendarDate, Oracle, Stop};

impl CalendarDate for ChineseDate {
    ghost calendar = { Chinese };

    ghost fields_of = { fields_of_date };

    fn fields(self) -> Fields {
        Fields {
            count: 5,
            values: [
                self.cycle,
                i32::from(self.year),
                i32::from(self.month),
                // The rule compares flags and numbers alike as whole numbers, a leap month as 0 or
                // 1.
                i32::from(self.leap),
                i32::from(self.day),
            ],
        }
    }

    #[tactic(auto, unfolding(book_model::specs::calendars::Dates::may_have, book_model::specs::calendars::Dates::has_some_year, book_model::specs::calendars::Dates::year_number))]
    fn day_by<O: Oracle>(oracle: &mut O, fields: &Fields) -> Result<i64, Stop> {
        let date = ChineseDate {
            cycle: fields.field(0) as i32,
            year: fields.field(1) as u8,
            month: fields.field(2) as u8,
            leap: fields.field(3) == 1,
            day: fields.field(4) as u8,
        };
        to_fixed(oracle, date)
    }

    fn of_day<O: Oracle>(oracle: &mut O, day: i64) -> Result<Self, Stop> {
        from_fixed(oracle, day)
    }
}
