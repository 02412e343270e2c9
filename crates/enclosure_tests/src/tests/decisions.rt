//! Tests of enclosures of each kind: what is decided, and the endpoints that undecided tests name.
use super::operations::{EVERY, Endpoints, Fractions, fractions, range};
use super::rough::Rough;
use book_model::{Fail as FormulaFail, Site, Undecided};
use encl_core::{Coarse, Enclosure, Trail, floor_step, less_step, wrap_step};
use fix_fine::Fine;
use std::fmt::Debug;
use std::process::Abort;

/// The result of a test as a step of a formula.
fn stepped<T: Copy + Drop>(answer: Result<T, Undecided>) -> Result<T, FormulaFail> {
    match answer {
        Ok(found) => Ok(found),
        Err(at) => Err(FormulaFail::Undecided(at)),
    }
}

/// Ranges, and whether the first is below the second.
#[rattlefmt::skip]
const COMPARISONS: [(Endpoints, Endpoints, Result<bool, Undecided>); 4] = [
    ((1, 1), (2, 2), Ok(true)),
    ((2, 2), (0, 2), Ok(false)),
    ((1, 3), (2, 2), Err(Undecided { turn: 3, site: Site::Search, lo: 72_057_594_037_927_936, hi: 216_172_782_113_783_808 })),
    (EVERY, EVERY, Err(Undecided { turn: 4, site: Site::Search, lo: i128::MIN, hi: i128::MAX })),
];

/// Whether a range is below another, as a test.
fn compared<E: Enclosure>(
    x: Endpoints,
    y: Endpoints,
    trail: &mut Trail,
) -> Result<bool, Undecided> {
    range::<E>(x).less(range(y), Site::Search, trail)
}

/// The same as a step of a formula.
fn step_compared<E: Enclosure>(
    x: Endpoints,
    y: Endpoints,
    trail: &mut Trail,
) -> Result<bool, FormulaFail> {
    less_step(range::<E>(x), range(y), Site::Search, trail)
}

/// Asserts comparisons, which a trail counts.
fn comparisons_are_told<E: Enclosure>(
    rt: &impl Abort,
    rows: &[(Endpoints, Endpoints, Result<bool, Undecided>)],
) {
    let mut trail = Trail::new();
    for (x, y, answer) in rows {
        let found = compared::<E>(*x, *y, &mut trail);
        assert_eq!(rt; found, *answer, "{x:?} and {y:?}");
    }
    assert_eq!(rt; trail.count(), 4);
}

#[test]
fn a_comparison_is_undecided_where_the_endpoints_leave_it_so(rt: HostRuntime) {
    comparisons_are_told::<Coarse>(&rt, &COMPARISONS);
    comparisons_are_told::<Fine>(&rt, &COMPARISONS);
    comparisons_are_told::<Rough>(&rt, &COMPARISONS);
}

/// Asserts comparisons as steps of a formula.
fn comparing_steps_are_told<E: Enclosure>(
    rt: &impl Abort,
    rows: &[(Endpoints, Endpoints, Result<bool, Undecided>)],
) {
    let mut trail = Trail::new();
    for (x, y, answer) in rows {
        let found = step_compared::<E>(*x, *y, &mut trail);
        assert_eq!(rt; found, stepped(*answer), "{x:?} and {y:?}");
    }
    assert_eq!(rt; trail.count(), 4);
}

#[test]
fn steps_carry_the_comparison_that_is_undecided(rt: HostRuntime) {
    comparing_steps_are_told::<Coarse>(&rt, &COMPARISONS);
    comparing_steps_are_told::<Fine>(&rt, &COMPARISONS);
    comparing_steps_are_told::<Rough>(&rt, &COMPARISONS);
}

/// Fractions of every number.
const WHOLE: Fractions = (0, 0, 0);

/// Ranges, and the greatest whole number that is not above them.
#[rattlefmt::skip]
const FLOORS: [(Fractions, Result<i64, Undecided>); 7] = [
    ((-7, -7, 2), Ok(-4)),
    ((7, 7, 2), Ok(3)),
    ((0, 1, 1), Err(Undecided { turn: 3, site: Site::DayFloor, lo: 0, hi: 72_057_594_037_927_936 })),
    (WHOLE, Err(Undecided { turn: 4, site: Site::DayFloor, lo: i128::MIN, hi: i128::MAX })),
    ((5, 5, 1), Ok(5)),
    ((-4, -4, 1), Ok(-4)),
    ((-1, -1, 3), Ok(-1)),
];

/// The floor of a range.
fn floored<E: Enclosure>(x: Fractions, trail: &mut Trail) -> Result<i64, Undecided> {
    fractions::<E>(x).floor(Site::DayFloor, trail)
}

/// Asserts floors, which a trail counts.
fn floors_are_told<E: Enclosure>(rt: &impl Abort, rows: &[(Fractions, Result<i64, Undecided>)]) {
    let mut trail = Trail::new();
    for (x, answer) in rows {
        let found = floored::<E>(*x, &mut trail);
        assert_eq!(rt; found, *answer, "{x:?}");
    }
    assert_eq!(rt; trail.count(), 7);
}

#[test]
fn a_floor_is_undecided_where_the_endpoints_differ(rt: HostRuntime) {
    floors_are_told::<Coarse>(&rt, &FLOORS);
    floors_are_told::<Fine>(&rt, &FLOORS);
    floors_are_told::<Rough>(&rt, &FLOORS);
    let five = floor_step(Coarse::from_int(5), Site::Round, &mut Trail::new());
    assert_eq!(rt; five, Ok(5));
    // The number is known, but isn't one of 64 bits.
    let far = Fine::from_int(i64::MAX).add(Fine::from_int(1));
    let too_far = Undecided {
        turn: 1,
        site: Site::DayFloor,
        lo: i128::MIN,
        hi: i128::MAX,
    };
    assert_eq!(rt; far.floor(Site::DayFloor, &mut Trail::new()), Err(too_far));
}

/// Ranges, numbers of which multiples are taken off, and what is left.
#[rattlefmt::skip]
const WRAPS: [(Fractions, u32, Result<Fractions, Undecided>); 10] = [
    ((1441, 1441, 2), 360, Ok((1, 1, 2))),
    ((-1, -1, 1), 360, Ok((359, 359, 1))),
    ((360, 360, 1), 360, Ok((0, 0, 1))),
    ((359, 361, 1), 360, Err(Undecided { turn: 4, site: Site::Round, lo: 25_868_676_259_616_129_024, hi: 26_012_791_447_691_984_896 })),
    (WHOLE, 360, Err(Undecided { turn: 5, site: Site::Round, lo: i128::MIN, hi: i128::MAX })),
    ((-1, -1, 3), 360, Ok((1079, 1079, 3))),
    ((725, 725, 1), 360, Ok((5, 5, 1))),
    ((-720, -720, 1), 360, Ok((0, 0, 1))),
    ((7, 7, 1), 7, Ok((0, 0, 1))),
    ((-1, 1, 1), 360, Err(Undecided { turn: 10, site: Site::Round, lo: -72_057_594_037_927_936, hi: 72_057_594_037_927_936 })),
];

/// What is to be left of a wrap.
fn left<E: Enclosure>(answer: Result<Fractions, Undecided>) -> Result<E, FormulaFail> {
    match answer {
        Ok(endpoints) => Ok(fractions(endpoints)),
        Err(at) => Err(FormulaFail::Undecided(at)),
    }
}

/// What is left of a range, by a test.
fn wrapped<E: Enclosure>(x: Fractions, modulus: u32, trail: &mut Trail) -> Result<E, FormulaFail> {
    stepped(fractions::<E>(x).wrap(modulus.max(1), Site::Round, trail))
}

/// The same by a step of a formula.
fn step_wrapped<E: Enclosure>(
    x: Fractions,
    modulus: u32,
    trail: &mut Trail,
) -> Result<E, FormulaFail> {
    wrap_step(fractions::<E>(x), modulus.max(1), Site::Round, trail)
}

/// Asserts what is left, each by a test and by a step of a formula.
fn wraps_are_told<E: Enclosure + Debug + PartialEq>(
    rt: &impl Abort,
    rows: &[(Fractions, u32, Result<Fractions, Undecided>)],
) {
    let (mut tests, mut steps) = (Trail::new(), Trail::new());
    for (x, modulus, answer) in rows {
        let found = wrapped::<E>(*x, *modulus, &mut tests);
        assert_eq!(rt; found, left(*answer), "{x:?} by {modulus}");
        let found = step_wrapped::<E>(*x, *modulus, &mut steps);
        assert_eq!(rt; found, left(*answer), "{x:?} by {modulus}");
    }
    assert_eq!(rt; tests.count(), 10);
    assert_eq!(rt; steps.count(), 10);
}

#[test]
fn a_wrap_is_undecided_where_the_periods_differ(rt: HostRuntime) {
    wraps_are_told::<Coarse>(&rt, &WRAPS);
    wraps_are_told::<Fine>(&rt, &WRAPS);
    wraps_are_told::<Rough>(&rt, &WRAPS);
}

#[test]
fn what_is_undecided_at_coarse_endpoints_is_decided_at_fine_ones(rt: HostRuntime) {
    let hardly_above_1 = (1_099_511_627_777, 1_099_511_627_777, 1_099_511_627_776);
    let undecided = Undecided {
        turn: 1,
        site: Site::PhasePick,
        lo: 72_057_594_037_927_936,
        hi: 72_057_594_038_976_512,
    };
    let mut trail = Trail::new();
    let coarse = Coarse::from_int(1).less(fractions(hardly_above_1), Site::PhasePick, &mut trail);
    assert_eq!(rt; coarse, Err(undecided));
    let fine = Fine::from_int(1).less(fractions(hardly_above_1), Site::PhasePick, &mut trail);
    assert_eq!(rt; fine, Ok(true));
}
