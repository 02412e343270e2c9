//! Dates of three fields: a year, a month and a day.
ghost use Rattle.std.specs.Prelude.{◌≡◌, ◌<◌, ◌^◌, pos};
ghost use Rattle.book_model.specs.calendars.Dates.{field};
ghost use Rattle.oracle_core.specs.ThreeFields.{fields_of_three};

use book_model::Fields;

/// The fields of a date of three.
pub fn three_fields(year: i32, month: u8, day: u8) -> Fields
    ensures fields { result ≡ fields_of_three year month day }
{
    Fields {
        count: 3,
        values: [year, i32::from(month), i32::from(day), 0, 0],
    }
}

/// The year, the month and the day of fields for which their types have room.
pub fn year_month_day(fields: &Fields) -> (i32, u8, u8)
    requires year { field fields.now 0 < 2 ^ 31 }
    requires month { field fields.now 1 < 2 ^ 8 }
    requires day { field fields.now 2 < 2 ^ 8 }
    ensures year { result.0 ≡ pos (field fields.now 0) }
    ensures month { result.1 ≡ field fields.now 1 }
    ensures day { result.2 ≡ field fields.now 2 }
{
    (
        fields.field(0) as i32,
        fields.field(1) as u8,
        fields.field(2) as u8,
    )
}
