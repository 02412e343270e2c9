//! What two notes of one cell have in common.
ghost use Rattle.std.specs.Prelude.{◌≡◌, IfSome};
ghost use Rattle.once_cell.specs.Once.{Agrees};

use once_cell::race::Note;

/// Two notes of one cell that know a value know the same one.
pub(crate) fn know_the_same<T>(one: &Note<T>, other: &Note<T>)
    requires { other.now.cell ≡ one.now.cell }
    ensures { IfSome other.now.known (Agrees one.now.known) }
{}
