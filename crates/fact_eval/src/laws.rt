//! A law of the definitions of facts, carried by a function that does nothing.
//!
//! How many tests a formula makes is said of the definitions and not by the calls: what a call says of its program
//! fixes the count at its answer, at an early return and at a void (`Counts.antt` of book_model).
ghost use Rattle.std.specs.Prelude.{ℕ, ℤ, ◌≤◌};
ghost use Rattle.book_model.specs.declared.fact.Fact.{Fact};
ghost use Rattle.book_model.specs.declared.fact.Kind.{Kind};
ghost use Rattle.book_model.specs.declared.fact.Place.{Place};
ghost use Rattle.book_model.specs.declared.site.Site.{Site};
ghost use Rattle.book_model.specs.programs.Programs.{AtMost, MakesTest, Sides};
ghost use Rattle.book_model.specs.sky.Facts.{formula_of, run_of};

/// The formula of every kind of fact, at each place and on each day (R.D.), makes fewer than 100,000 tests, whatever their
/// answers; so each test of the run of a fact has a number below that.
#[tactic(auto, using(day_facts::proofs::FewTests::formula_few, day_facts::proofs::FewTests::run_few))]
pub fn counts()
    ensures formulas { (kind : Kind) (place : Place) (day : ℤ)
        → AtMost 99999 (formula_of kind place day) }
    ensures runs { (fact : Fact) (depth number : ℕ) (site : Site) (sides : Sides)
        → MakesTest (run_of depth fact) number site sides → number ≤ 99999 }
{}
