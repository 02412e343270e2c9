//! Places that are dealt to chunks, and a call at each place.
ghost use Rattle.std.specs.Prelude.{◌≡◌, ◌≤◌, ◌<◌, ℕ, Ok, IfOk, length, slice_index_or};
ghost use Rattle.jobs_core.specs.Pieces as spec;
ghost use Rattle.jobs_core.specs.Pieces.{Covers};

use crate::Gate;
use crate::deal::{piece_size, place_at};
use crate::join::join_pieces;
use std::alloc::{AllocError, Global};
use std::thread;
use std::thread::Threads;

/// What the calls at the places of a chunk give, in order. The error is that of a call, or that memory ran out.
fn work_places<X: Drop, F: Fn(usize) -> Result<X, AllocError>>(
    alloc: Global,
    count: usize,
    jobs: usize,
    piece: usize,
    f: &F,
) -> Result<Vec<X>, AllocError>
    requires few { jobs ≤ 64 }
    requires piece { piece < jobs }
    requires accepts { (i : ℕ) → i < count → F.pre f.now i }
    ensures covers { IfOk result (λ done. Covers (λ i x. F.post f.now i (Ok x))
        (spec.place_at count jobs piece) (spec.piece_size count jobs piece) done.items) }
{
    let size = piece_size(count, jobs, piece);
    let mut done = Vec::with_capacity(alloc, size)?;
    for number in 0..size {
        let place = place_at(count, jobs, piece, number);
        done.push(f(place)?)?;
    }
    Ok(done)
}

/// What the places of each chunk give, in the order of the chunks. Each chunk is worked in a thread of its own where one can
/// be had, and the gate is told as it begins.
fn work_pieces<
    R: Threads + Sync,
    X: Send + Drop,
    F: Fn(usize) -> Result<X, AllocError> + Sync,
    G: Gate + Sync,
>(
    rt: &R,
    alloc: Global,
    count: usize,
    jobs: usize,
    gate: &G,
    f: &F,
) -> Result<Vec<Result<Vec<X>, AllocError>>, AllocError>
    requires some { 0 < jobs }
    requires few { jobs ≤ 64 }
    requires accepts { (i : ℕ) → i < count → F.pre f.now i }
    ensures len { IfOk result (λ pieces. length pieces.items ≡ jobs) }
    ensures each { IfOk result (λ pieces. (k : ℕ) (d : _) → k < jobs
        → IfOk (slice_index_or pieces.items k d) (λ done. Covers (λ i x. F.post f.now i (Ok x))
        (spec.place_at count jobs k) (spec.piece_size count jobs k) done.items)) }
{
    thread::map_indices(
        rt,
        alloc,
        jobs,
        &|piece: usize| -> Result<Vec<X>, AllocError>
            requires { (0 < jobs) × (piece < jobs) × (jobs ≤ 64)
                × ((i : ℕ) → i < count → F.pre f.now i) }
            ensures { IfOk result (λ done. Covers (λ i x. F.post f.entry.now i (Ok x))
                (spec.place_at count jobs piece) (spec.piece_size count jobs piece) done.items) }
        {
            gate.at(piece);
            work_places(alloc, count, jobs, piece, f)
        },
    )
}

/// The results of the only chunk, as they stand: nothing is moved.
fn only_of<X: Drop>(mut pieces: Vec<Result<Vec<X>, AllocError>>) -> Result<Vec<X>, AllocError>
    requires one { length pieces.items ≡ 1 }
    ensures only { (d : _) → slice_index_or pieces.items 0 d ≡ result }
{
    pieces.pop().unwrap()
}

// Both maps are this, which knows nothing of lines and facts. The work isn't done in rounds of so
// many lines, which would bound the memory: all is computed before anything is written.
/// What `f` gives at each place below `count`, in the order of the places. They are dealt in turn to as many chunks as there are
/// threads, whose sizes differ by at most one, and some of which are empty where there are fewer places. Each chunk is worked in
/// a thread of its own where one can be had, and the gate is told once, as the chunk begins. The error is that of a call, or
/// that memory ran out.
pub fn map_places<
    R: Threads + Sync,
    X: Send + Drop,
    F: Fn(usize) -> Result<X, AllocError> + Sync,
    G: Gate + Sync,
>(rt: &R, alloc: Global, count: usize, jobs: usize, gate: &G, f: &F) -> Result<Vec<X>, AllocError>
    requires some { 0 < jobs }
    requires few { jobs ≤ 64 }
    requires accepts { (i : ℕ) → i < count → F.pre f.now i }
    ensures covers { IfOk result (λ all. Covers (λ i x. F.post f.now i (Ok x)) (λ i. i) count
        all.items) }
{
    let pieces = work_pieces(rt, alloc, count, jobs, gate, f)?;
    if jobs == 1 {
        only_of(pieces)
    } else {
        join_pieces(alloc, count, jobs, pieces)
    }
}
