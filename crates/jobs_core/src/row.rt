//! What lines ask.
ghost use Rattle.std.specs.Prelude.{◌≡◌, ◌≤◌, ◌<◌, map, length, All, IfOk, slice_index_or};
ghost use Rattle.book_model.specs.lines.Requests.{request_of};
ghost use Rattle.jobs_core.specs.Outcomes.{CanResolve, IsRowOf};

use crate::{OpenGate, map_places};
use book_model::{Request, Rule, WRITTEN};
use line_core::read_line;
use std::alloc::{AllocError, Global};
use std::thread::Threads;

/// What a line asks, or the first rule that it breaks.
pub type Row = Result<Request, Rule>;

/// What a line asks, or the first rule that it breaks.
fn row_of(line: &[u8]) -> Row
    ensures row { result ≡ request_of WRITTEN line.now }
    ensures resolvable { CanResolve result }
{
    read_line(line, WRITTEN)
}

// Without a gate: it tells when rows are computed.
/// What each line asks, or the first rule that it breaks, in order. The lines are dealt to chunks as `map_lines` deals rows. The
/// error comes where memory runs out.
pub fn rows_of<R: Threads + Sync>(
    rt: &R,
    alloc: Global,
    lines: &[&[u8]],
    jobs: usize,
) -> Result<Vec<Row>, AllocError>
    requires some { 1 ≤ jobs }
    requires few { jobs ≤ 64 }
    ensures rows { IfOk result (λ rows. rows.items
        ≡ map (λ line. request_of WRITTEN line.now) lines.now) }
    ensures resolvable { IfOk result (λ rows. All CanResolve rows.items) }
{
    map_places(
        rt,
        alloc,
        lines.len(),
        jobs,
        &OpenGate,
        &|place: usize| -> Result<Row, AllocError>
            requires { place < length lines.now }
            ensures { IfOk result (λ row. (d : _) → IsRowOf (slice_index_or lines.entry.now place d).now row) }
        { Ok(row_of(lines[place])) },
    )
}
