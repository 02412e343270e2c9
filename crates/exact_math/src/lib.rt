//! Exact fractions and intervals of fractions, with the algebra under every proof.
//!
//! An interval is two fractions without a proof that they are in order, so that it computes by plain evaluation; that
//! the endpoints are in order is a lemma on each operation (`*_proper`). The product of `everything` and 0, and its
//! 0th power, are everything, since an operation on everything gives everything; no formula uses either.
#![tactic(auto)]
