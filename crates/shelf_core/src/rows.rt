//! The rows of facts: one for each kind and each of its places, in the order of the table of kinds.
ghost use Rattle.std.specs.Prelude.{◌≡◌, ◌<◌, ◌≤◌, length, map, IfOk};
ghost use Rattle.shelf_core.specs.Rows as spec;

use book_model::{KINDS, Kind, Place};
use std::alloc::{AllocError, Global};

/// The number of pairs of a kind and one of its places.
fn rows_among<T, N, W, V>(mut table: &[(T, N, (&[Place], W, V))]) -> usize
    requires few { spec.rows_among (map (λ row. row.2.0.now) table.now) ≤ spec.MOST_ROWS }
    ensures rows { result ≡ spec.rows_among (map (λ row. row.2.0.now) table.entry.now) }
{
    let mut rows = 0;
    while let [first, rest @ ..] = table {
        rows += first.2.0.len();
        table = rest;
    }
    rows
}

/// Where a place stands among places, or 0.
fn column(mut places: &[Place], place: Place) -> usize
    ensures column { result ≡ spec.column_in places.entry.now place }
    ensures few { result ≤ length places.entry.now }
{
    let mut column = 0;
    while let [first, rest @ ..] = places {
        if *first == place {
            return column;
        }
        column += 1;
        places = rest;
    }
    0
}

/// The number of rows.
#[tactic(auto, unfolding(crate::specs::Rows::fact_rows))]
pub(crate) fn fact_rows() -> usize
    ensures rows { result ≡ spec.fact_rows }
    ensures few { result ≤ spec.MOST_ROWS }
{
    rows_among(&KINDS)
}

/// The first row of each kind of a table: how many rows the kinds before it have. The error comes where memory runs out.
fn first_rows_of<T, N, W, V>(
    alloc: Global,
    mut table: &[(T, N, (&[Place], W, V))],
) -> Result<Vec<usize>, AllocError>
    requires few { spec.rows_among (map (λ row. row.2.0.now) table.now) ≤ spec.MOST_ROWS }
    ensures rows { IfOk result (λ rows. rows.items
        ≡ spec.first_rows 0 (map (λ row. row.2.0.now) table.entry.now)) }
{
    let mut rows = Vec::with_capacity(alloc, table.len())?;
    let mut before = 0;
    while let [first, rest @ ..] = table {
        rows.push(before)?;
        before += first.2.0.len();
        table = rest;
    }
    Ok(rows)
}

// Counted when a shelf is opened, over the table of kinds: a kind or a place more needs nothing
// here.
/// The first row of each kind. The error comes where memory runs out.
pub(crate) fn first_rows(alloc: Global) -> Result<Vec<usize>, AllocError>
    ensures rows { IfOk result (λ rows. rows.items ≡ spec.first_rows 0 spec.place_lists) }
{
    first_rows_of(alloc, &KINDS)
}

/// The row of a kind and a place, by the first row of each kind; of a place that isn't the kind's, the row of its first.
pub(crate) fn row_of(first_rows: &[usize], kind: Kind, place: Place) -> usize
    requires rows { first_rows.now ≡ spec.first_rows 0 spec.place_lists }
    ensures row { result ≡ spec.row_of kind place }
    ensures within { result < spec.fact_rows }
    ensures few { result ≤ spec.MOST_ROWS }
{
    first_rows[kind.number()] + column(kind.places(), place)
}
