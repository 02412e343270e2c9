//! The results of chunks, joined in the order of the places.
ghost use Rattle.std.specs.Prelude.{◌≡◌, ◌≢◌, ◌≤◌, ◌<◌, ◌∷◌, ℕ, length, IfOk, IfSome, IsOk, slice_index_or};
ghost use Rattle.std.specs.Vec.Iter.{into_iter_items};
ghost use Rattle.jobs_core.specs.Pieces.{IsJoined, results_in};

use crate::deal::piece_of;
use std::alloc::{AllocError, Global};
use std::vec::IntoIter;

/// The results of each chunk, to be taken one after the other. The error comes where a chunk has one, or memory runs out.
fn opened<X: Drop>(
    alloc: Global,
    pieces: Vec<Result<Vec<X>, AllocError>>,
) -> Result<Vec<IntoIter<X>>, AllocError>
    ensures len { IfOk result (λ opened. length opened.items ≡ length pieces.items) }
    ensures done { IfOk result (λ opened. (p : ℕ) (e : _) → p < length pieces.items
        → IsOk (slice_index_or pieces.items p e)) }
    ensures each { IfOk result (λ opened. (p : ℕ) (d : _) (e : _) → p < length pieces.items
        → into_iter_items (slice_index_or opened.items p d)
        ≡ results_in (slice_index_or pieces.items p e)) }
{
    let mut opened = Vec::with_capacity(alloc, pieces.len())?;
    for piece in pieces {
        opened.push(piece?.into_iter())?;
    }
    Ok(opened)
}

/// The next result of a chunk, if there is one.
fn next_of<X: Drop>(pieces: &mut Vec<IntoIter<X>>, piece: usize) -> Option<X>
    requires within { piece < length pieces.old.items }
    ensures len { length pieces.new.items ≡ length pieces.old.items }
    ensures others { (p : ℕ) (d : _) → p ≢ piece → slice_index_or pieces.new.items p d
        ≡ slice_index_or pieces.old.items p d }
    ensures next { IfSome result (λ item. (d : _) → into_iter_items
        (slice_index_or pieces.old.items piece d)
        ≡ item ∷ into_iter_items (slice_index_or pieces.new.items piece d)) }
{
    pieces[piece].next()
}

/// The results of so many chunks to which so many places were dealt, joined in the order of the places. The error comes where a
/// chunk has one, or memory runs out.
pub(crate) fn join_pieces<X: Drop>(
    alloc: Global,
    count: usize,
    jobs: usize,
    pieces: Vec<Result<Vec<X>, AllocError>>,
) -> Result<Vec<X>, AllocError>
    requires some { 0 < jobs }
    requires few { jobs ≤ 64 }
    requires pieces { length pieces.items ≡ jobs }
    ensures joined { IfOk result (λ all. IsJoined count jobs pieces.items all.items) }
{
    let mut opened = opened(alloc, pieces)?;
    let mut all = Vec::with_capacity(alloc, count)?;
    for place in 0..count {
        let piece = piece_of(count, jobs, place);
        let Some(item) = next_of(&mut opened, piece) else {
            return Err(AllocError);
        };
        all.push(item)?;
    }
    Ok(all)
}
