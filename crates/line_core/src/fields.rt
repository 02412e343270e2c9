//! The fields of dates: their text, and whether a calendar may have them.
ghost use Rattle.std.specs.Prelude.{◌≡◌, ◌<◌, ◌≤◌, ◌==◌, ◌^◌, ◌∷◌, [], position, unsigned_abs, IfSome, None, MatchOption};
ghost use Rattle.book_model.specs.declared.calendar.Calendar.{Calendar as CalendarOf};
ghost use Rattle.book_model.specs.calendars.Dates as dates;
ghost use Rattle.book_model.specs.lines.Lines as spec;
ghost use Rattle.book_model.specs.lines.Requests.{fields_of, checked};

use book_model::{CalendarRow, Fields, Version};

/// Where the first dash stands.
fn first_dash(word: &[u8]) -> Option<usize>
    ensures place { result ≡ position (λ b. b == 45) word.now }
{
    word.iter().position(|b| *b == b'-')
}

/// What stands before the first dash, and what follows it, if there is one.
fn cut_part(word: &[u8]) -> (&[u8], Option<&[u8]>)
    ensures cut { MatchOption result.1 (spec.parts_of word.now ≡ result.0.now ∷ [])
        (λ rest. spec.parts_of word.now ≡ result.0.now ∷ spec.parts_of rest.now) }
{
    match first_dash(word) {
        Some(dash) => (&word[..dash], Some(&word[dash + 1..])),
        None => (word, None),
    }
}

/// The number that one to seven decimal digits spell; leading zeros are allowed.
fn number(digits: &[u8]) -> Option<u32>
    ensures number { result ≡ spec.number_of digits.now }
    ensures small { IfSome result (λ n. n < 10000000) }
{
    if digits.is_empty() || digits.len() > 7 {
        return None;
    }
    let mut number = 0;
    for digit in digits {
        if !digit.is_ascii_digit() {
            return None;
        }
        number = 10 * number + u32::from(*digit - b'0');
    }
    Some(number)
}

/// The numbers between the dashes of a date, as its fields; `None` where a part isn't a number of one to seven digits,
/// or where there are more than five.
pub(crate) fn spelled_fields(date: &[u8]) -> Option<Fields>
    ensures fields { MatchOption result ((c : CalendarOf) → fields_of c date.now ≡ None)
        (λ f. (c : CalendarOf) → fields_of c date.now ≡ checked c f) }
{
    let mut values = [0; 5];
    let mut count = 0;
    let mut rest = Some(date);
    while let Some(word) = rest {
        if count == 5 {
            return None;
        }
        let (part, others) = cut_part(word);
        values[count] = number(part)? as i32;
        count += 1;
        rest = others;
    }
    Some(Fields {
        count: count as u8,
        values,
    })
}

/// Whether a field of a date, from 0, lies within its limits.
fn is_within(row: &CalendarRow, date: &Fields, index: usize) -> bool
    requires few { index < 5 }
    ensures within { result ≡ dates.is_within row.now date.now index }
{
    let (least, greatest) = row.limits[index];
    let number = date.field(index);
    least <= number && number <= greatest
}

/// Whether each field of a date lies within its limits.
pub(crate) fn are_within(row: &CalendarRow, date: &Fields) -> bool
    ensures within { result ≡ dates.are_within row.now date.now }
{
    is_within(row, date, 0)
        && is_within(row, date, 1)
        && is_within(row, date, 2)
        && is_within(row, date, 3)
        && is_within(row, date, 4)
}

/// What a field of a date, from 0, counts in the number of its year.
fn weighed(row: &CalendarRow, date: &Fields, index: usize) -> i128
    requires few { index < 5 }
    ensures weighed { result ≡ dates.weighed row.now date.now index }
    ensures small { unsigned_abs result ≤ 2 ^ 63 }
{
    i128::from(row.weights[index]) * i128::from(date.field(index))
}

/// The number of the year of a date.
#[tactic(auto, unfolding(book_model::specs::calendars::Dates::year_number))]
fn year_number(row: &CalendarRow, date: &Fields) -> i128
    ensures number { result ≡ dates.year_number row.now date.now }
{
    let mut year = i128::from(row.offset);
    for index in 0..5 {
        year += weighed(row, date, index);
    }
    year
}

/// Whether the number of the year of a date is one that a version answers.
pub(crate) fn has_year(version: Version, row: &CalendarRow, date: &Fields) -> bool
    ensures year { result ≡ dates.has_year version row.now date.now }
{
    let (first, last) = row.years[version as usize];
    let year = year_number(row, date);
    i128::from(first) <= year && year <= i128::from(last)
}
