#![tactic(auto)]
// The verdict on a trace in bytes: the table as a file, transition numbers of two bytes, stamps of four.
ghost use Rattle.std.specs.Prelude.{◌/◌, length};
ghost use Rattle.verdict.specs.OnTrace.{trace_fields};
ghost use Rattle.trace_bytes.specs.Traces.{JudgeTraceBytesOutcome};

use table::{BLANK, Refusal, Table};
use verdict::OnTrace;

mod shown;
mod traces;

// The verdict on a trace, with the table as a file.
pub fn judge_trace_bytes(file: &[u8], trace: &[u8], stamps: &mut [u8]) -> Result<OnTrace, Refusal>
    ensures { JudgeTraceBytesOutcome file.now trace.now stamps.old
        (trace_fields (length trace.now / 2) result) stamps.new }
{
    let mut t = Table {
        states: 1,
        initial: 0,
        count: 0,
        cells: [BLANK; 256],
    };
    table_file::read_into(file, &mut t)?;
    traces::judge_on(&t, trace, stamps)
}
