#![tactic(auto)]
// Verdicts: on a trace.
ghost use Rattle.std.specs.Prelude.{length};
ghost use Rattle.table.specs.Rows.{machine_of};
ghost use Rattle.verdict.specs.OnTrace.{trace_fields, TraceOutcome, PairOutcome};

use crate::line::Line;
use table::{Refusal, Row, Table};

mod calm;
mod line;
mod marks;
mod pairs;
mod quiet;
mod sight;
mod times;

#[derive(Clone, Copy, PartialEq, Eq)]
pub enum OnTrace {
    Steady,
    Turning(usize, usize),
}

// Whether two activating timings give different orders; if so, the least pair and the late and the early word.
pub fn judge_trace(t: &Table, trace: &[u16], stamps: &mut [u32]) -> Result<OnTrace, Refusal>
    ensures { TraceOutcome (machine_of t.now) trace.now stamps.old
        (trace_fields (length trace.now) result) stamps.new }
{
    trace::tested_trace(t, trace)?;
    if stamps.len() < 2 * trace.len() {
        return Err(Refusal::NoRoom);
    }
    let rows = t.rows();
    let Some((k, m)) = pairs::least_pair(Line { rows, trace }) else {
        return Ok(OnTrace::Steady);
    };
    words::write_words(rows, trace, k, m, stamps);
    Ok(OnTrace::Turning(k + 1, m + 1))
}

// The verdict with no word written, on transitions that nobody tested: refused are a 257th, numbers outside their ranges, and what is no trace.
pub fn turning_pair(rows: &[Row], trace: &[u16]) -> Result<OnTrace, Refusal>
    ensures { PairOutcome rows.now trace.now (trace_fields (length trace.now) result) }
{
    if 256 < rows.len() {
        return Err(Refusal::Full(0));
    }
    if !table::fit::in_limits(rows) {
        return Err(Refusal::OutOfRange(0));
    }
    if !trace::is_trace(rows, trace) {
        return Err(Refusal::NoTrace);
    }
    Ok(match pairs::least_pair(Line { rows, trace }) {
        Some((k, m)) => OnTrace::Turning(k + 1, m + 1),
        None => OnTrace::Steady,
    })
}
