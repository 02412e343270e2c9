//! Laws of verdicts, each carried by a function that does nothing.
ghost use Rattle.std.specs.Prelude.{◌≡◌, ℕ, ℤ, List};
ghost use Rattle.book_model.specs.declared.fact.Fact.{Fact};
ghost use Rattle.book_model.specs.declared.version.Version.{Version};
ghost use Rattle.oracle_core.specs.declared.evaluator.Answer.{Answer};
ghost use Rattle.cert_text.specs.declared.line.CertLine.{CertLine};
ghost use Rattle.cert_parser.specs.declared.lines.CertFile.{CertFile};
ghost use Rattle.cert_parser.specs.Reading.{file as is_file, grammar_of, listed};
ghost use Rattle.cert_check.specs.Verdicts.{AreRightAnswers, IsCertifiedLine, AreNearNowhere, IsCheckable, numbered, verdict_of};
ghost use Rattle.cert_check.specs.declared.verdict.Verdict.TheVariants.{Yes};

/// By right answers a line of a file of any version gets `Yes` where what it shows is certified, and none of its listed
/// facts is near at a test.
#[tactic(auto, using(crate::proofs::CertifiedYes::yes_to_certified))]
pub fn completeness()
    ensures yes { (version : Version) (facts : List (Fact × ℤ)) (answers : List Answer) (line : CertLine)
        → AreRightAnswers facts answers → IsCertifiedLine version facts line
        → AreNearNowhere (numbered facts (listed line))
        → verdict_of version facts answers line ≡ Yes }
{}

/// A file of the grammar meets what a check asks of its facts and lists, and a line of it that is refused without its words
/// names one of the rules 1 to 4.
pub fn checkable()
    ensures files { (bytes : List ℕ) (f : CertFile) → grammar_of bytes ≡ is_file f → IsCheckable f }
{}
