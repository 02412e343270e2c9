//! Which facts enclosures leave undecided. It reads lines `KIND PLACE DAY`, and writes for each, behind the line's own words, the
//! result of the formula over coarse enclosures and over fine ones, and how many tests were made over these: a value, or `void
//! SITE`, or `open SITE TURN LO HI` where a test stays undecided. A line that names no fact is `none`.
#![tactic(auto)]

use book_model::{Fact, Fail, Kind, Place};
use encl_core::{Coarse, Trail};
use fact_eval::evaluate;
use fix_fine::Fine;
use std::alloc::{AllocError, Global};
use std::io;

/// The fact that a line names, if it names one.
fn fact_of(line: &str) -> Option<Fact> {
    let mut words = line.split_ascii_whitespace();
    let kind = Kind::named(words.next()?.as_bytes())?;
    let place = Place::named(words.next()?.as_bytes())?;
    let day = words.next()?.parse::<i64>().ok()?;
    Fact::new(kind, place, day)
}

/// The result of a formula, as it is written.
fn text_of(alloc: Global, end: Result<i64, Fail>) -> Result<String, AllocError> {
    match end {
        Ok(value) => format!(in alloc; "{value}"),
        Err(Fail::Void(site)) => format!(in alloc; "void {}", site.name()),
        Err(Fail::Undecided(at)) => {
            format!(in alloc; "open {} {} {} {}", at.site.name(), at.turn, at.lo, at.hi)
        }
    }
}

fn main(rt: HostRuntime) -> io::Result<()> {
    let alloc = rt.alloc();
    for line in rt.lines(alloc) {
        let line = line?;
        let Some(fact) = fact_of(line.as_str()) else {
            println!(rt; "{line} none")?;
            continue;
        };
        let coarse = text_of(alloc, evaluate::<Coarse>(fact, &mut Trail::new()))?;
        let mut trail = Trail::new();
        let fine = text_of(alloc, evaluate::<Fine>(fact, &mut trail))?;
        println!(rt;
            "{line} coarse {coarse} fine {fine} tests {}",
            trail.count()
        )?;
    }
    Ok(())
}
