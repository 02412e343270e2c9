//! Lists, and an oracle over a small list, each call once.
use crate::tests::facts::fact_on;
use book_model::{Fact, Kind, Place, Site};
use oracle_core::{Answer, Answers, FactList, FactValues, Listed, Oracle, Stop, laws};
use std::test::Fail;

fn correction_on(day: i64) -> Result<Fact, &'static str> {
    Fact::new(Kind::Dt, Place::None, day).ok_or("no fact")
}

#[test]
fn lists_hold_what_they_are_given(rt: HostRuntime) -> Result<(), Fail> {
    let alloc = rt.alloc();
    let fact = correction_on(738_926)?;
    let mut facts = FactList::new(alloc);
    let none = facts.len();
    facts.push(fact)?;
    assert!(rt; (none, facts.len(), *facts.item(0)) == (0, 1, fact));
    let mut values = FactValues::new(alloc);
    values.push((fact, 73_871))?;
    assert!(rt; (values.len(), *values.item(0)) == (1, (fact, 73_871)));
    let mut answers = Answers::new(alloc);
    answers.push(Answer::Void(Site::Year))?;
    assert!(rt; (answers.len(), *answers.item(0)) == (1, Answer::Void(Site::Year)));
    Ok(())
}

#[test]
fn listed_facts_have_their_values(rt: HostRuntime) -> Result<(), Fail> {
    let fact = correction_on(738_926)?;
    let other = correction_on(1)?;
    let facts = [fact];
    let values = [73_871];
    let mut listed = Listed::new(rt.alloc(), &facts, &values);
    let missing = (listed.ask(other), listed.asked().len());
    assert!(rt; missing == (Err(Stop::Missing(other)), 0));
    let twice = (listed.ask(fact), listed.ask(fact), listed.asked().len());
    assert!(rt; twice == (Ok(73_871), Ok(73_871), 1));
    laws::tables::<i64, Listed>();
    Ok(())
}
