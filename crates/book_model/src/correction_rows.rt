//! Dynamical time less universal time, year by year: the rows of its table, each a polynomial for some years. The source is
//! Reingold and Dershowitz, Calendrical Calculations, chapter 14, ephemeris correction.
ghost use Rattle.std.specs.Prelude.{◌≡◌, map};
ghost use Rattle.std.specs.Option.{option_map};
ghost use Rattle.book_model.specs.sky.Correction.{correction_row, row_in, row_of_year as row_of};

use crate::Frac;
use crate::tables::{CORRECTION_1987, CORRECTION_2006};
use crate::time_tables::{
    CORRECTION_1700, CORRECTION_1800, CORRECTION_1900, CORRECTION_2051, CORRECTION_ANCIENT,
};
use crate::version::Version;

/// What the polynomial of a row is a function of, and the unit of its value.
#[derive(Clone, Copy)]
pub enum CorrectionForm {
    /// Seconds, by the whole years from a year on.
    SecondsSince(i64),
    /// Seconds, by the hundredths of the year.
    SecondsByHundreds,
    /// Days, by the centuries from the end of 1899 to 1 July of the year.
    // Its years lie from 1 to 9999, as those of `first_of_july` do.
    DaysByCenturies,
}

/// The first and the last year of a row, its form, its coefficients from the constant one on; where that is promised, how
/// many units of the scale an enclosure of its ΔT is wide at most; and the first version of certificates that has the row.
pub type CorrectionRow = (
    i64,
    i64,
    CorrectionForm,
    &'static [Frac],
    Option<u32>,
    Version,
);

// What each row has to keep, its powers, widths and values, is computed over the table. So a row
// more needs no proof; where powers are taken in whole years they fit while these lie within 256 of
// the form's and there are seven coefficients at most.
/// The rows, in order. A year in none of them has no ΔT.
#[rattlefmt::skip]
pub static CORRECTIONS: [CorrectionRow; 7] = [
    (-499, 499, CorrectionForm::SecondsByHundreds, &CORRECTION_ANCIENT, None, Version::One),
    (1700, 1799, CorrectionForm::SecondsSince(1700), &CORRECTION_1700, Some(3), Version::Two),
    (1800, 1899, CorrectionForm::DaysByCenturies, &CORRECTION_1800, Some(33), Version::One),
    (1900, 1986, CorrectionForm::DaysByCenturies, &CORRECTION_1900, Some(33), Version::One),
    (1987, 2005, CorrectionForm::SecondsSince(2000), &CORRECTION_1987, Some(4), Version::One),
    (2006, 2050, CorrectionForm::SecondsSince(2000), &CORRECTION_2006, Some(4), Version::One),
    (2051, 2150, CorrectionForm::SecondsSince(2000), &CORRECTION_2051, Some(3), Version::Two),
];

/// The first of some rows that has a year, if one has.
fn first_with_year(mut rows: &[CorrectionRow], year: i64) -> Option<CorrectionRow>
    ensures row { option_map (λ r. correction_row r.0 r.1 r.2 r.3.now r.4 r.5) result
        ≡ row_in (map (λ r. correction_row r.0 r.1 r.2 r.3.now r.4 r.5) rows.entry.now) year }
{
    while let [row, rest @ ..] = rows {
        if row.0 <= year && year <= row.1 {
            return Some(*row);
        }
        rows = rest;
    }
    None
}

/// The row of a year, if it has one.
pub fn row_of_year(year: i64) -> Option<CorrectionRow>
    ensures row { option_map (λ r. correction_row r.0 r.1 r.2 r.3.now r.4 r.5) result ≡ row_of year }
{
    first_with_year(&CORRECTIONS, year)
}
