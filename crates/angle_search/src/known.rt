//! What a bisection has learned of its angle.
//!
//! A solar term so takes some two evaluations of all periodic terms in place of 20, a phase three or four in place of 19.

/// An angle by its linear models over the last interval of time at which a bisection took one, and over the one before. Both are
/// kept: an iteration whose moment doesn't lie in the last interval mostly lies in the one before.
#[derive(Drop)]
pub(crate) struct Known<F: Drop> {
    last: Option<F>,
    before: Option<F>,
}

impl<F: Drop> Known<F> {
    /// No linear model.
    pub(crate) fn new() -> Self {
        Known {
            last: None,
            before: None,
        }
    }

    /// The angle by the last linear model, or by another where there is none.
    pub(crate) fn last_or<'a>(&'a self, other: &'a F) -> &'a F {
        self.last.as_ref().unwrap_or(other)
    }

    /// The angle by the linear model before the last, or by another where there is none.
    pub(crate) fn before_or<'a>(&'a self, other: &'a F) -> &'a F {
        self.before.as_ref().unwrap_or(other)
    }

    /// Keeps a linear model in place of the last, and that in place of the one before.
    pub(crate) fn learn(&mut self, linear_model: F) {
        self.before = self.last.replace(linear_model);
    }
}
