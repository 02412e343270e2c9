//! What a trail caches: that it is what would be evaluated anew, and is taken with its test.
use super::measures::{fraction, is_near};
use encl_core::{Asked, Coarse, Enclosure, Trail};
use fix_fine::Fine;
use new_moons::new_moon;
use time_scales::dynamical;

/// A step of a run.
#[derive(Clone, Copy, Debug)]
enum Step {
    /// A run begins that caches nothing.
    Begin,
    /// Another run begins, with what is cached.
    Anew,
    /// The new moon of a number is what is evaluated anew, over one kind of enclosures.
    Coarse(u16),
    Fine(u16),
    /// The new moon of a number is cached at a scale, or isn't.
    Kept(u16, u32, bool),
    /// A noon, by its number of half days, is moved by ΔT of its year, of which the floor is told at 2⁻⁵⁶.
    Moved(i128, i128),
    /// So many tests have been made.
    Count(u32),
}

/// Whether a new moon is what is evaluated anew.
fn is_anew<E: Enclosure + PartialEq>(number: u16, trail: &mut Trail) -> bool {
    let own = new_moon::<E>(i64::from(number), &mut Trail::new());
    new_moon::<E>(i64::from(number), trail) == own
}

/// Whether a moment is moved by a number of days.
fn is_moved(halves: i128, days: i128, trail: &mut Trail) -> bool {
    let noon: Coarse = fraction(halves, 2);
    match dynamical(noon, trail) {
        Ok(moved) => is_near(moved.sub(noon), days, 8),
        Err(_) => false,
    }
}

/// Whether a step gives what it tells.
fn is_done(step: Step, trail: &mut Trail) -> bool {
    match step {
        Step::Begin => {
            *trail = Trail::new();
            true
        }
        Step::Anew => {
            *trail = trail.anew();
            true
        }
        Step::Coarse(number) => is_anew::<Coarse>(number, trail),
        Step::Fine(number) => is_anew::<Fine>(number, trail),
        Step::Kept(number, bits, is_kept) => {
            trail
                .kept(Asked::NewMoon(i64::from(number)), bits)
                .is_some()
                == is_kept
        }
        Step::Moved(halves, days) => is_moved(halves, days, trail),
        Step::Count(tests) => trail.count() == tests,
    }
}

const RUNS: [Step; 53] = [
    // A cached new moon is taken with its test.
    Step::Begin,
    Step::Coarse(24_724),
    Step::Kept(24_724, 36, true),
    Step::Coarse(24_724),
    Step::Count(2),
    Step::Begin,
    Step::Coarse(0),
    Step::Kept(0, 36, true),
    Step::Coarse(0),
    Step::Count(2),
    // New moons of two numbers come in turn.
    Step::Begin,
    Step::Coarse(24_724),
    Step::Coarse(0),
    Step::Coarse(24_727),
    Step::Coarse(0),
    Step::Coarse(24_724),
    Step::Coarse(24_724),
    Step::Coarse(0),
    Step::Count(7),
    Step::Kept(24_727, 36, false),
    // Three neighbours are cached together.
    Step::Begin,
    Step::Coarse(24_724),
    Step::Coarse(24_725),
    Step::Coarse(24_726),
    Step::Kept(24_724, 36, true),
    Step::Kept(24_725, 36, true),
    Step::Kept(24_726, 36, true),
    // Each kind takes what it evaluated itself.
    Step::Begin,
    Step::Coarse(24_724),
    Step::Fine(24_724),
    Step::Fine(24_724),
    Step::Coarse(24_724),
    Step::Coarse(0),
    Step::Fine(0),
    Step::Fine(0),
    Step::Coarse(0),
    Step::Coarse(24_724),
    Step::Fine(24_724),
    Step::Fine(24_724),
    Step::Coarse(24_724),
    // Another run begins with what is cached.
    Step::Begin,
    Step::Fine(0),
    Step::Anew,
    Step::Count(0),
    Step::Kept(0, 56, true),
    Step::Fine(0),
    Step::Count(1),
    // Each year has its ΔT in one run.
    Step::Begin,
    Step::Moved(1_464_623, 53_977_014_480_359),
    Step::Moved(1_464_625, 54_255_218_326_903),
    Step::Moved(1_464_625, 54_255_218_326_903),
    Step::Moved(1_464_623, 53_977_014_480_359),
    Step::Count(4),
];

#[test]
fn what_is_cached_is_what_would_be_evaluated(rt: HostRuntime) {
    let mut trail = Trail::new();
    let mut steps = 0_u32;
    for step in RUNS {
        steps = steps.saturating_add(1);
        assert!(rt; is_done(step, &mut trail), "step {steps}, {step:?}");
    }
}
