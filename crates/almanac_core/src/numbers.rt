//! Requests by whole numbers.
//!
//! Requests and no lines: that a request is what its line is read as is a law (`line_core::laws::text_is_read`), so no
//! text is made to be read again.
ghost use Rattle.std.specs.Prelude.{◌≡◌, ◌<◌, [], ◌∷◌, pos};
ghost use Rattle.almanac_core.specs.Almanac as spec;
ghost use Rattle.book_model.specs.lines.Requests.{fields_with};

use book_model::{Fields, FromWord, Request, ToWord};

/// A number, less than 10,000, as the field of a date.
fn value(number: u32) -> i32
    requires few { number < 10000 }
    ensures value { result ≡ pos number }
{
    number as i32
}

/// A date of three fields, all less than 10,000.
pub(crate) fn three_fields(first: u32, second: u32, third: u32) -> Fields
    requires first { first < 10000 }
    requires second { second < 10000 }
    requires third { third < 10000 }
    ensures fields { result ≡ fields_with (first ∷ second ∷ third ∷ []) }
{
    Fields {
        count: 3,
        values: [value(first), value(second), value(third), 0, 0],
    }
}

/// The Gregorian date of what a word and three numbers name, all less than 10,000.
pub(crate) fn date_of_three(from: FromWord, first: u32, second: u32, third: u32) -> Request
    requires first { first < 10000 }
    requires second { second < 10000 }
    requires third { third < 10000 }
    ensures request { result ≡ spec.date_of from (first ∷ second ∷ third ∷ []) }
{
    Request {
        from,
        date: three_fields(first, second, third),
        to: ToWord::Gregorian,
    }
}

/// The Gregorian date of what a word and five numbers name, all less than 10,000.
pub(crate) fn date_of_five(
    from: FromWord,
    first: u32,
    second: u32,
    third: u32,
    fourth: u32,
    fifth: u32,
) -> Request
    requires first { first < 10000 }
    requires second { second < 10000 }
    requires third { third < 10000 }
    requires fourth { fourth < 10000 }
    requires fifth { fifth < 10000 }
    ensures request { result ≡ spec.date_of from (first ∷ second ∷ third ∷ fourth ∷ fifth ∷ []) }
{
    Request {
        from,
        date: Fields {
            count: 5,
            values: [
                value(first),
                value(second),
                value(third),
                value(fourth),
                value(fifth),
            ],
        },
        to: ToWord::Gregorian,
    }
}
