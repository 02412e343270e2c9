//! Sums over the rows of a table.
ghost use Rattle.std.specs.Prelude.{◌≡◌, ◌≤◌, ℕ, List};
ghost use Rattle.book_model.specs.numbers.Bounds.{Reach, limits_of};
ghost use Rattle.book_model.specs.numbers.Expressions.{Expression, World};
ghost use Rattle.book_model.specs.numbers.Relations.{Within, Narrow};
ghost use Rattle.book_model.specs.numbers.Terms.{terms_of};
ghost use Rattle.book_model.specs.numbers.Depth.{DEPTH};

use crate::Enclosure;

// One definition (`Terms.antt`) and one loop serve the sun's periodic terms, the moon's terms and
// those of a new moon.
/// A row of a table over which a formula sums: what it adds, given what the angles or the time are.
pub trait Term<A: Copy, E: Enclosure> {
    /// What stands in the definition for what is given: an expression, or several.
    ghost Given: { Type 0 };

    /// What is given holds what stands for it in the definition.
    ghost holds: { World → Self.Given → A → Type 0 };

    /// What is given keeps the bounds of what stands for it in the definition.
    ghost keeps: { Reach → Self.Given → A → Type 0 };

    /// What the row adds, as an expression of the definition.
    ghost term_of: { Self.Given → Self → Expression };

    // Of this one the width is told. The two differ for the sun's periodic terms alone.
    /// The same expression in the form in which it is computed.
    ghost computed_of: { Self.Given → Self → Expression };

    /// What the row adds.
    fn term(&self, given: A) -> E
        ensures held { (w : World) (g : Self.Given) → DEPTH ≤ w.depth → holds w g given
            → Within E.shown w (term_of g self.now) result }
        ensures narrow { (r : Reach) (g : Self.Given) → keeps r g given
            → Narrow E.shown (limits_of E.BITS) r (computed_of g self.now) result };
}

/// The sum of what the rows of a table add.
#[tactic(auto, using(crate::proofs::TermSums::sums))]
pub fn sum_of_terms<A: Copy, E: Enclosure, T: Term<A, E>>(rows: &[T], given: A) -> E
    ensures holds { (w : World) (g : T.Given) (none : T) → DEPTH ≤ w.depth → T.holds w g given
        → Within E.shown w (terms_of (T.term_of g) none rows.now) result }
    ensures narrow { (r : Reach) (g : T.Given) (none : T) → T.keeps r g given
        → Narrow E.shown (limits_of E.BITS) r (terms_of (T.computed_of g) none rows.now) result }
{
    let mut sum = E::from_int(0);
    for row in rows {
        sum = sum.add(row.term(given));
    }
    sum
}
