//! How places are dealt to chunks in turn, so that work that grows more expensive along the input is shared evenly. Neighbouring lines
//! often ask the same facts, so whole rounds are dealt by blocks of neighbours, and only the rest one by one.
ghost use Rattle.std.specs.Prelude.{◌≡◌, ◌≤◌, ◌<◌};
ghost use Rattle.jobs_core.specs.Pieces as spec;

// Two threads would compute the facts of neighbours at once; and expensive lines that lie together, as
// the Islamic months of an almanac, are shared by all threads.
/// How many places a block has.
const BLOCK: usize = 16;

/// The chunk that a place goes to, of so many places and chunks.
pub(crate) fn piece_of(count: usize, jobs: usize, place: usize) -> usize
    requires some { 0 < jobs }
    requires few { jobs ≤ 64 }
    ensures piece { result ≡ spec.piece_of count jobs place }
    ensures within { result < jobs }
{
    let round = jobs * BLOCK;
    if place < count / round * round {
        place % round / BLOCK
    } else {
        place % jobs
    }
}

/// How many of so many places go to a chunk. The sizes of chunks differ by at most one.
pub(crate) fn piece_size(count: usize, jobs: usize, piece: usize) -> usize
    requires some { 0 < jobs }
    ensures size { result ≡ spec.piece_size count jobs piece }
{
    count / jobs + (count % jobs).saturating_sub(piece).min(1)
}

/// The place that has this number, from 0, among those of a chunk.
pub(crate) fn place_at(count: usize, jobs: usize, piece: usize, number: usize) -> usize
    requires some { 0 < jobs }
    requires few { jobs ≤ 64 }
    requires piece { piece < jobs }
    requires number { number < spec.piece_size count jobs piece }
    ensures place { result ≡ spec.place_at count jobs piece number }
    ensures within { result < count }
{
    let round = jobs * BLOCK;
    if number < count / round * BLOCK {
        number / BLOCK * round + (piece * BLOCK + number % BLOCK)
    } else {
        number * jobs + piece
    }
}
