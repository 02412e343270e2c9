//! Cells that are made together.
ghost use Rattle.std.specs.Prelude.{◌≡◌, vec_len};
ghost use Rattle.shelf_core.specs.Slots.{BLOCK as CELLS};

use once_cell::race::{Note, OnceBox};
use std::alloc::{AllocError, Global};

// A shelf of 7.7 million slots has blocks of blocks, so that a start makes 118 cells: a list of
// 30,143 blocks took three tenths of the instructions of a start, and all slots at once 60 MiB.
/// How many cells a block has.
pub(crate) const BLOCK: usize = 256;

/// Cells that stand side by side, each of which is set once.
#[derive(Drop)]
pub struct Block<T> {
    pub(crate) cells: Vec<OnceBox<T>>,
    ghost whole: { vec_len cells ≡ CELLS },
}

impl<T: Drop> Block<T> {
    ghost use Rattle.std.specs.Prelude.{◌<◌, IfSome, IfNone, IfOk, OnErr};
    ghost use Rattle.std.specs.declared.option.Option.TheVariants.{None, Some};
    ghost use Rattle.std.specs.Option.{option_and_then};
    ghost use Rattle.once_cell.specs.Once.{Agrees};
    ghost use Rattle.shelf_core.specs.Passes.{cell_in};

    /// A block whose cells are empty. The error comes where memory runs out.
    fn open(alloc: Global) -> Result<Block<T>, AllocError> {
        let mut cells = Vec::new(alloc);
        cells.resize_with(BLOCK, move || OnceBox::new(alloc))?;
        Ok(Block { cells })
    }

    /// The same, in a box.
    pub(crate) fn boxed(alloc: Global) -> Result<Box<Block<T>>, AllocError> {
        Ok(Box::new(alloc, Block::open(alloc)?)?)
    }

    /// The note of the cell at a place; one that knows nothing, where there is none yet.
    fn note_of(&self, place: usize, note: Option<Note<T>>) -> Note<T>
        requires within { place < CELLS }
        requires tied { IfSome note (λ n. n.cell ≡ cell_in self.now place) }
        ensures tied { result.cell ≡ cell_in self.now place }
        ensures known { result.known ≡ option_and_then (λ n. n.known) note }
    {
        match note {
            Some(note) => note,
            None => self.cells[place].note(),
        }
    }

    /// What the cell at a place holds, which the note knows from then on.
    fn get<'a>(&'a self, place: usize, note: &mut Note<T>) -> Option<&'a T>
        requires within { place < CELLS }
        requires tied { note.old.cell ≡ cell_in self.now place }
        ensures tied { note.new.cell ≡ note.old.cell }
        ensures some { IfSome result (λ x. (note.new.known ≡ Some x.now)
            × Agrees note.old.known x.now) }
        ensures none { IfNone result ((note.old.known ≡ None) × (note.new.known ≡ None)) }
    {
        self.cells[place].get_as(note)
    }

    /// Sets the cell at a place, where it is empty, to what is made, and gives what the cell holds, which the note knows from then
    /// on.
    fn fill<'a, F: FnOnce() -> Result<Box<T>, AllocError>>(
        &'a self,
        place: usize,
        note: &mut Note<T>,
        make: F,
    ) -> Result<&'a T, AllocError>
    where
        F: Drop,
        requires makes { F.pre make }
        requires within { place < CELLS }
        requires tied { note.old.cell ≡ cell_in self.now place }
        ensures tied { note.new.cell ≡ note.old.cell }
        ensures ok { IfOk result (λ x. (note.new.known ≡ Some x.now)
            × Agrees note.old.known x.now) }
        ensures err { OnErr result (note.new.known ≡ note.old.known) }
    {
        self.cells[place].get_or_try_init_as(make, note)
    }

    /// The note of the cell at a place, and what the cell holds.
    pub(crate) fn look<'a>(
        &'a self,
        place: usize,
        note: Option<Note<T>>,
    ) -> (Note<T>, Option<&'a T>)
        requires within { place < CELLS }
        requires tied { IfSome note (λ n. n.cell ≡ cell_in self.now place) }
        ensures tied { result.0.cell ≡ cell_in self.now place }
        ensures some { IfSome result.1 (λ x. (result.0.known ≡ Some x.now)
            × Agrees (option_and_then (λ n. n.known) note) x.now) }
        ensures none { IfNone result.1 ((option_and_then (λ n. n.known) note ≡ None)
            × (result.0.known ≡ None)) }
    {
        let mut note = self.note_of(place, note);
        let held = self.get(place, &mut note);
        (note, held)
    }

    /// The note of the cell at a place, and what the cell holds, which is what is made where the cell was empty.
    pub(crate) fn put<'a, F: FnOnce() -> Result<Box<T>, AllocError>>(
        &'a self,
        place: usize,
        note: Option<Note<T>>,
        make: F,
    ) -> (Note<T>, Result<&'a T, AllocError>)
    where
        F: Drop,
        requires makes { F.pre make }
        requires within { place < CELLS }
        requires tied { IfSome note (λ n. n.cell ≡ cell_in self.now place) }
        ensures tied { result.0.cell ≡ cell_in self.now place }
        ensures ok { IfOk result.1 (λ x. (result.0.known ≡ Some x.now)
            × Agrees (option_and_then (λ n. n.known) note) x.now) }
        ensures err { OnErr result.1 (result.0.known ≡ option_and_then (λ n. n.known) note) }
    {
        let mut note = self.note_of(place, note);
        let held = self.fill(place, &mut note, make);
        (note, held)
    }
}
