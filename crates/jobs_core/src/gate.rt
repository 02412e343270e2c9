//! A gate that is passed at the start of each chunk of the work.

// A gate at which two chunks wait for one another refuses a body that works them one after the
// other.
/// Is told of each chunk of the work as it begins, and promises nothing.
pub trait Gate {
    /// The chunk of this number, from 0, begins.
    fn at(&self, piece: usize);
}

/// A gate that is always open.
#[derive(Clone, Copy, Debug, PartialEq, Eq)]
pub struct OpenGate;

impl Gate for OpenGate {
    fn at(&self, _piece: usize) {}
}
