//! Laws of the definitions, each carried by a function that does nothing.
ghost use Rattle.std.specs.Prelude.{ℕ};
ghost use Rattle.jobs_core.specs.Pieces.{AreFair};

/// The sizes of chunks differ by at most one: each chunk has the quotient of the places by the chunks, or one place more.
#[tactic(auto, using(crate::proofs::Dealing::fair))]
pub fn pieces()
    ensures { (places pieces : ℕ) → AreFair places pieces }
{}
