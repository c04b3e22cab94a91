#![tactic(auto)]
// The verdict on a table in bytes: the table as a file, transition numbers of two bytes, stamps of four.
ghost use Rattle.std.specs.Prelude.{◌≤◌, refl};
ghost use Rattle.model.specs.Verdict.{Strict};
ghost use Rattle.table_verdict.specs.OnTable.{table_fields, TableShows};
ghost use Rattle.verdict_bytes.specs.Tables.{Used, JudgeTableBytesOutcome};

use places::shown::{Asked, Searched, show_file};
use table::{Refusal, Table};
use table_verdict::OnTable;

// What a verdict asks of a table.
struct Verdict;

impl Asked<540> for Verdict {
    type Answer = OnTable;

    ghost quiet = { Strict };

    ghost shows = { TableShows };

    ghost said = { table_fields };

    ghost refused = { λ r. refl };

    fn at_sight(t: &Table) -> Option<OnTable> {
        table_verdict::plain(t.rows()).then_some(OnTable::Strict)
    }

    fn search(t: &Table, trace: &mut [u16], stamps: &mut [u32]) -> Searched<OnTable> {
        let answer = table_verdict::judge_rows(t.rows(), t.initial, trace, stamps);
        let (steps, stamps) = used(answer);
        Searched {
            answer,
            steps,
            stamps,
        }
    }
}

// How many trace places and stamp places a verdict uses.
fn used(v: Result<OnTable, Refusal>) -> (usize, usize)
    requires { (table_fields v).steps ≤ 270 }
    ensures { Used (table_fields v) result.0 result.1 }
{
    match v {
        Ok(OnTable::Strict) | Err(_) => (0, 0),
        Ok(OnTable::Split(_, _, n)) => (n, n),
        Ok(OnTable::Turning(_, m)) => (m, 2 * m),
    }
}

// The verdict on a table file.
pub fn judge_table_bytes(
    file: &[u8],
    trace: &mut [u8],
    stamps: &mut [u8],
) -> Result<OnTable, Refusal>
    ensures { JudgeTableBytesOutcome file.now trace.old stamps.old
        (table_fields result) trace.new stamps.new }
{
    show_file::<540, Verdict>(file, trace, stamps)
}
