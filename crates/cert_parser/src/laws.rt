//! Laws of the definitions, each carried by a function that does nothing.
ghost use Rattle.std.specs.Prelude.{List};
ghost use Rattle.cert_text.specs.declared.line.Block.{Block};
ghost use Rattle.cert_parser.specs.ReadAgain.{AreReadAgain};

/// What was written is read again. Take blocks whose facts are numbered 1, 2, 3, .. throughout and so are their
/// lines, whose facts are all distinct, whose facts and lines have a form of the grammar, and each of whose lines
/// lists distinct numbers of facts that were written before it. Between the header and the end line with the right
/// counts their text is a file of the grammar, and it is the file of the version that is written, with the blocks'
/// facts and lines. The text has at most 268,435,456 bytes.
#[tactic(auto, using(crate::proofs::ReadingAgain::are_read_again))]
pub fn read_again()
    ensures { (blocks : List Block) → AreReadAgain blocks }
{}
