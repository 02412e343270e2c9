//! Computes rows, and writes their outcomes.
ghost use Rattle.conversion.specs.Printing.{Printed, CutShort};
ghost use Rattle.conversion.specs.Rows.{AreSpelledRows, lines_in};
ghost use Rattle.conversion.specs.Writing.{Performs};

use crate::echoes::Echoes;
use crate::outcome::{all_found, outcomes_of};
use crate::rows::Rows;
use crate::text::{WriteStop, write_text};
use byte_streams::Sink;
use jobs_core::{Gate, Tools};
use oracle_core::Evaluator;
use std::thread::Threads;

/// Writes the text of rows, and says whether all have results.
pub fn print<R: Threads + Sync, K: Sink, E: Evaluator + Sync, G: Gate + Sync>(
    tools: &Tools<'_, R, E, G>,
    sink: &mut K,
    rows: &Rows<'_>,
) -> Result<bool, WriteStop>
    requires spelled { AreSpelledRows rows.now }
    ensures performs { Performs K.written K.faults sink.old sink.new
        (Printed (K.written sink.old) (K.written sink.new) (lines_in rows.now))
        (CutShort (K.written sink.old) (K.written sink.new) (lines_in rows.now)) result }
{
    let outcomes = outcomes_of(tools, rows)?;
    write_text(tools.alloc, sink, &Echoes::Rows(rows), &outcomes)?;
    Ok(all_found(&outcomes))
}
