// The verdict on a trace in bytes with a table that was read: no more is kept than the decoded trace.
ghost use Rattle.std.specs.Prelude.{◌/◌, length};
ghost use Rattle.model.specs.Table.{Valid};
ghost use Rattle.table.specs.Rows.{machine_of};
ghost use Rattle.verdict.specs.OnTrace.{trace_fields};
ghost use Rattle.trace_bytes.specs.Traces.{TraceOnMachine};

use crate::shown;
use table::{Refusal, Table};
use verdict::OnTrace;

// Decodes the trace, finds the pair, and writes the words that show it. The head of the table is not looked at.
pub(crate) fn judge_on(t: &Table, trace: &[u8], stamps: &mut [u8]) -> Result<OnTrace, Refusal>
    requires { Valid (machine_of t.now) }
    ensures { TraceOnMachine (machine_of t.now) trace.now stamps.old
        (trace_fields (length trace.now / 2) result) stamps.new }
{
    let mut steps = [0u16; 512];
    let n = places::numbers_in(trace, &mut steps);
    let rows = t.rows();
    let found = verdict::turning_pair(rows, &steps[..n])?;
    if stamps.len() / 4 < 2 * n {
        return Err(Refusal::NoRoom);
    }
    let OnTrace::Turning(k, m) = found else {
        return Ok(OnTrace::Steady);
    };
    shown::put_words(rows, &steps[..n], k - 1, m - 1, stamps);
    Ok(found)
}
