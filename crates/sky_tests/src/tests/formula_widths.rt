//! Answers over fine enclosures of moments without width, in all years of the table of ΔT: each is at most as wide as
//! the table of greatest widths says.
use super::formulas::{Formula, value};
use super::measures::{fraction, new_year};
use book_model::Fail as FormulaFail;
use encl_core::greatest_widths::{DISTANCE, LATITUDE, MOON, NEW_MOON, PHASE, SUN, WidthRow};
use encl_core::{Enclosure, Trail};
use fix_fine::Fine;

/// Whether there is an answer, at most as wide as a row says of an argument without width. A row is in units of 2⁻⁶⁴, a bound in
/// units of 2⁻⁵⁶.
fn is_within(found: Result<Fine, FormulaFail>, row: WidthRow) -> bool {
    let Ok(found) = found else {
        return false;
    };
    let Some(span) = found.span() else {
        return false;
    };
    match span.hi.checked_sub(span.lo) {
        Some(width) => width <= i128::from(row.slack / 256),
        None => false,
    }
}

/// Formulas of a moment and their rows. The moment of the next new moon is an answer of `new_moon`.
const ROWS: [(Formula, WidthRow); 6] = [
    (Formula::Sun, SUN),
    (Formula::Moon, MOON),
    (Formula::Latitude, LATITUDE),
    (Formula::Distance, DISTANCE),
    (Formula::Phase, PHASE),
    (Formula::MoonFrom, NEW_MOON),
];

/// Whether the answers as a day begins are so narrow.
fn is_day_narrow(day: i64) -> bool {
    for (formula, row) in ROWS {
        if !is_within(value(formula, Fine::from_int(day), &mut Trail::new()), row) {
            return false;
        }
    }
    true
}

#[test]
fn each_new_year_from_1702_on_is_narrow(rt: HostRuntime) {
    for year in 1702..2149 {
        assert!(rt; is_day_narrow(new_year(year)), "1 January {year}");
    }
}

#[test]
fn a_day_of_each_ancient_decade_is_narrow(rt: HostRuntime) {
    for decade in 0..100_i64 {
        let day = decade.saturating_mul(3_652).saturating_sub(182_500);
        assert!(rt; is_day_narrow(day), "day {day}");
    }
}

/// Formulas of a moment, and how wide their answers are at most between 1712 and 2147, in 2⁻⁵⁶ degrees and days. What their clauses
/// say leaves more room, for the rows' roundings are summed there as if they all fell to one side and over all of the table.
const FINE_WIDTHS: [(Formula, i128); 5] = [
    (Formula::Sun, 1_000),
    (Formula::Moon, 1_000),
    (Formula::Latitude, 1_000),
    (Formula::Phase, 1_000),
    (Formula::MoonFrom, 1_000),
];

/// How many moments are tried, and how many days one is after another.
const MOMENTS: i64 = 1_600;

const DAYS_BETWEEN: i64 = 99;

/// The moment of a number: days apart, each a sixteenth of a day later.
fn moment(number: i64) -> Fine {
    let day = new_year(1712).saturating_add(number.saturating_mul(DAYS_BETWEEN));
    let sixteenths = day.saturating_mul(16).saturating_add(number % 16);
    fraction(i128::from(sixteenths), 16)
}

/// How wide an answer is, in 2⁻⁵⁶; of none more than any is.
fn width(found: Result<Fine, FormulaFail>) -> i128 {
    let Ok(found) = found else {
        return i128::MAX;
    };
    match found.span() {
        Some(span) => span.hi.saturating_sub(span.lo),
        None => i128::MAX,
    }
}

#[test]
fn the_fine_kind_is_fine(rt: HostRuntime) {
    for (formula, most) in FINE_WIDTHS {
        for number in 0..MOMENTS {
            let found = width(value(formula, moment(number), &mut Trail::new()));
            assert!(rt; found <= most, "moment {number}: {found}");
        }
    }
}
