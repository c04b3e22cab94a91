#![tactic(auto)]
// The verdict on a whole table.
ghost use Rattle.std.specs.Prelude.{length};
ghost use Rattle.model.specs.Answers.{Tells};
ghost use Rattle.table.specs.Rows.{machine_of};
ghost use Rattle.table_verdict.specs.Decided.{CellsOutcome};
ghost use Rattle.table_verdict.specs.OnTable.{table_fields, TableOutcome};
ghost use Rattle.table_verdict.specs.Plain.{Plain};

use crate::show::show_split;
use criterion::Goal;
use table::{Refusal, Row, Table};

mod show;

#[derive(Clone, Copy, PartialEq, Eq)]
pub enum OnTable {
    Strict,
    Split(usize, usize, usize),
    Turning(usize, usize),
}

// Whether one look at each transition tells that a valid table of these is strict, wherever it begins.
pub fn plain(rows: &[Row]) -> bool
    ensures { Tells result (Plain rows.now (length rows.now)) }
{
    neighbours::calm(rows) && split_pair::apart(rows)
}

// The verdict by the search through transitions of which no more is tested than it needs: split; else turning, the lowest transition that starts a
// turning pair shown with the late and the early word; else strict.
pub fn judge_rows(
    rows: &[Row],
    initial: u16,
    trace: &mut [u16],
    stamps: &mut [u32],
) -> Result<OnTable, Refusal>
    ensures { CellsOutcome rows.now (length rows.now) initial trace.old stamps.old
        result trace.new stamps.new }
{
    let ways = witness::ready(rows, initial, trace.len(), stamps.len(), 540)?;
    if let Some((i, j)) = split_pair::first_split(rows, &ways.dist) {
        return Ok(show_split(rows, &ways, i, j, trace, stamps));
    }
    match witness::show_lowest(Goal::Turns, rows, &ways, trace, stamps) {
        Some(shown) => Ok(OnTable::Turning(shown.before + 1, shown.steps)),
        None => Ok(OnTable::Strict),
    }
}

// The verdict on a table: strict, split or turning, with a trace and its words to play. A refusal, and strict, write nothing.
pub fn judge_table(t: &Table, trace: &mut [u16], stamps: &mut [u32]) -> Result<OnTable, Refusal>
    ensures { TableOutcome (machine_of t.now) trace.old stamps.old
        (table_fields result) trace.new stamps.new }
{
    witness::admitted(t, trace.len(), stamps.len(), 540)?;
    judge_rows(t.rows(), t.initial, trace, stamps)
}
