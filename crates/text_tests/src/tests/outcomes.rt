//! Which outcome takes no memory, what no clause says.
use super::known::{Known, correction_on};
use jobs_core::{OpenGate, Outcome, map_lines, rows_of};
use shelf_core::Shelf;
use std::test::Fail;

#[test]
fn the_value_of_one_fact_stands_in_its_outcome(rt: HostRuntime) -> Result<(), Fail> {
    let alloc = rt.alloc();
    let lines: [&[u8]; 1] = [b"gregorian 2024-02-10 dt"];
    let rows = rows_of(&rt, alloc, &lines, 1)?;
    let shelf = Shelf::open(alloc)?;
    let known = Known::new(&rt);
    let outcomes = map_lines(&rt, alloc, &rows, &shelf, &known, 1, &OpenGate)?;
    let Outcome::Shown(shown) = outcomes.first().ok_or("no outcome")? else {
        return Err("not by itself")?;
    };
    assert!(rt; shown.entry() == (correction_on(738_926)?, 73_871));
    Ok(())
}
