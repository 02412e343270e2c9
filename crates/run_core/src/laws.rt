//! Laws of the definitions, each carried by a function that does nothing.
ghost use Rattle.std.specs.Prelude.{◌≡◌, ◌⊎◌, List, ℕ, IsTrue};
ghost use Rattle.run_core.specs.Laws.{HasResultOrRule, HasOneCount, HasNoRefusal, HasOneUpgrade, HasOneCheck};

/// A line whose asked facts are neither near nor void has a result, the refusal that was found by computing, or the
/// refusal of the rule that it breaks: nothing else is right for it.
#[tactic(auto, using(crate::proofs::DecidedLemmas::decided_line))]
pub fn decided_lines()
    ensures { (line : List ℕ) → HasResultOrRule line }
{}

/// No line of a sample is refused: its days are those that a line may name. So the count of refused lines is always 0. And two
/// lines of counts of one sample, none of whose lines is undecided, are equal, however many threads computed them.
#[tactic(auto, using(crate::proofs::SampleRefusals::no_refusal, crate::proofs::OneSample::one_count))]
pub fn samples()
    ensures no_refusal { (count seed : ℕ) → HasNoRefusal count seed }
    ensures one_count { (count seed : ℕ) → HasOneCount count seed }
{}

/// Bytes settle the text that they are upgraded to where no line with words is undecided: two such texts, each of right outcomes
/// for the words and of the lines without words as they stand, are equal, however many threads computed them.
pub fn upgrades()
    ensures one_text { (input : List ℕ) → HasOneUpgrade input }
{}

/// Bytes settle the text of their verdicts where no fact of the file is answered by an undecided test: two such texts, each by
/// right answers for the facts, are equal, however many threads answered them.
pub fn checks()
    ensures one_text { (input : List ℕ) → HasOneCheck input }
{}
