//! What no contract says of a shelf: that an empty slot is set, that its entry is of the pass's fact, and that nothing is
//! evaluated twice.
use super::known::{Known, correction_on};
use book_model::{FIRST_DAY, Fact, Kind, LAST_DAY, Place, Site};
use oracle_core::{Answer, Evaluator};
use shelf_core::{Shelf, Shelved};
use std::test::Fail;

/// Days with their ΔT.
const CORRECTIONS: [(i64, i64); 3] = [(738_926, 73_871), (738_927, 73_871), (726_592, 56_895)];

#[test]
fn an_empty_slot_is_set(rt: HostRuntime) -> Result<(), Fail> {
    let alloc = rt.alloc();
    let shelf = Shelf::open(alloc)?;
    let evaluator = Known::new(&rt);
    for (day, value) in CORRECTIONS {
        let fact = correction_on(day)?;
        let mut pass = shelf.pass(fact).ok_or("no pass")?;
        assert!(rt; shelf.get(&mut pass).is_none(), "on {day}");
        let entry = shelf.fill(alloc, &mut pass, evaluator.eval(fact))?;
        let filled = (entry.fact(), entry.answer());
        assert!(rt; filled == (fact, Answer::Value(value)), "on {day}");
    }
    Ok(())
}

#[test]
fn a_set_slot_stays(rt: HostRuntime) -> Result<(), Fail> {
    let alloc = rt.alloc();
    let shelf = Shelf::open(alloc)?;
    let evaluator = Known::new(&rt);
    for (day, _) in CORRECTIONS {
        let fact = correction_on(day)?;
        let mut pass = shelf.pass(fact).ok_or("no pass")?;
        let entry = shelf.fill(alloc, &mut pass, evaluator.eval(fact))?;
        let mut second = shelf.pass(fact).ok_or("no pass")?;
        let kept = (shelf.get(&mut pass), shelf.get(&mut second));
        assert!(rt; kept == (Some(entry), Some(entry)), "on {day}");
        shelf.meet(&pass, &second);
        let again = shelf.fill(alloc, &mut second, evaluator.eval(fact))?;
        assert!(rt; again == entry, "on {day}");
    }
    Ok(())
}

#[test]
fn nothing_is_evaluated_twice(rt: HostRuntime) -> Result<(), Fail> {
    let alloc = rt.alloc();
    let shelf = Shelf::open(alloc)?;
    let evaluator = Known::new(&rt);
    let shelved = Shelved::new(alloc, &shelf, &evaluator);
    // Each day with the answer of its ΔT, and how many evaluations there were by then. Early days have no slot.
    for (day, answer, asked) in [
        (738_926, Answer::Value(73_871), 1usize),
        (738_927, Answer::Value(73_871), 2),
        (738_926, Answer::Value(73_871), 2),
        (726_592, Answer::Value(56_895), 3),
        (738_927, Answer::Value(73_871), 3),
        (726_592, Answer::Value(56_895), 3),
        (620_728, Answer::Void(Site::Year), 4),
        (620_728, Answer::Void(Site::Year), 5),
    ] {
        let found = (shelved.eval(correction_on(day)?), evaluator.count());
        assert!(rt; found == (answer, asked), "on {day}");
    }
    Ok(())
}

#[test]
fn passes_end_with_the_days(rt: HostRuntime) -> Result<(), Fail> {
    let shelf = Shelf::open(rt.alloc())?;
    for (day, some) in [
        (FIRST_DAY - 1, false),
        (FIRST_DAY, true),
        (LAST_DAY, true),
        (LAST_DAY + 1, false),
    ] {
        for (kind, place) in [(Kind::Dt, Place::None), (Kind::Sunset, Place::Ujjain)] {
            let fact = Fact::new(kind, place, day).ok_or("no fact")?;
            assert!(rt; shelf.pass(fact).is_some() == some, "{kind:?} on {day}");
        }
    }
    Ok(())
}
