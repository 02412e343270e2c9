//! What an evaluator answers of the fact of a kind, a place and a day.
use book_model::{Fact, Kind, Place, Site};
use fact_eval::Staged;
use oracle_core::{Answer, Evaluator};
use std::process::Abort;

/// Whether the answer is a value. There is none where there is no such fact.
pub fn is_value(staged: &Staged, kind: Kind, place: Place, day: i64, value: i64) -> bool {
    let Some(fact) = Fact::new(kind, place, day) else {
        return false;
    };
    match staged.eval(fact) {
        Answer::Value(found) => found == value,
        _ => false,
    }
}

/// Whether the answer is that no ΔT of the year is known.
pub fn is_void(staged: &Staged, kind: Kind, place: Place, day: i64) -> bool {
    let Some(fact) = Fact::new(kind, place, day) else {
        return false;
    };
    matches!(staged.eval(fact), Answer::Void(Site::Year))
}

/// Asserts values of facts.
pub fn assert_facts(rt: &impl Abort, staged: &Staged, rows: &[(Kind, Place, i64, i64)]) {
    for (kind, place, day, value) in rows {
        assert!(rt;
            is_value(staged, *kind, *place, *day, *value),
            "{} {} {day}",
            kind.name(),
            place.name()
        );
    }
}

/// Asserts the values of a kind at a place on the first days of the months of a year.
pub fn assert_year(
    rt: &impl Abort,
    staged: &Staged,
    kind: Kind,
    place: Place,
    days: &[i64; 12],
    values: &[i64; 12],
) {
    for (day, value) in days.iter().zip(values.iter()) {
        assert!(rt;
            is_value(staged, kind, place, *day, *value),
            "{} {} {day}",
            kind.name(),
            place.name()
        );
    }
}
