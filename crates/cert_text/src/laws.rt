//! Laws of the definitions, each carried by a function that does nothing.
ghost use Rattle.std.specs.Prelude.{List, ℕ};
ghost use Rattle.cert_text.specs.Laws.{HasOneText};

/// Lines settle their text where none is undecided: two texts whose outcomes are right for the same lines, and of which
/// none has an undecided line, are equal. So the text of a run doesn't depend on the number of threads or on the order in
/// which threads run, except at lines that one of the runs leaves undecided.
#[tactic(auto, using(crate::proofs::OneText::one_text))]
pub fn one_text()
    ensures one { (lines : List (List ℕ)) → HasOneText lines }
{}
