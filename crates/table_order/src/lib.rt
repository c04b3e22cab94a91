#![tactic(auto)]
// Whether a table keeps request order: can a later step respond before an earlier one?
ghost use Rattle.std.specs.Prelude.{length};
ghost use Rattle.table.specs.Rows.{machine_of};
ghost use Rattle.table_order.specs.Decided.{CellsOutcome};
ghost use Rattle.table_order.specs.OnOrder.{order_fields, OrderOutcome};

use criterion::Goal;
use table::{Refusal, Row, Table};

#[derive(Clone, Copy, PartialEq, Eq)]
pub enum OnOrder {
    InOrder,
    Overtaken(usize, usize),
}

// The answer by the search through transitions of which no more is tested than it needs: the lowest one that can be overtaken, shown with the
// early word; or in order. Whether the table splits plays no part.
pub fn order_rows(
    rows: &[Row],
    initial: u16,
    trace: &mut [u16],
    stamps: &mut [u32],
) -> Result<OnOrder, Refusal>
    ensures { CellsOutcome rows.now (length rows.now) initial trace.old stamps.old
        result trace.new stamps.new }
{
    let ways = witness::ready(rows, initial, trace.len(), stamps.len(), 270)?;
    match witness::show_lowest(Goal::Overtakes, rows, &ways, trace, stamps) {
        Some(shown) => Ok(OnOrder::Overtaken(shown.before + 1, shown.steps)),
        None => Ok(OnOrder::InOrder),
    }
}

// The answer on a table: in order, or overtaken, with a trace and the early word to play. A refusal, and in order, write nothing.
pub fn order_table(t: &Table, trace: &mut [u16], stamps: &mut [u32]) -> Result<OnOrder, Refusal>
    ensures { OrderOutcome (machine_of t.now) trace.old stamps.old
        (order_fields result) trace.new stamps.new }
{
    witness::admitted(t, trace.len(), stamps.len(), 270)?;
    order_rows(t.rows(), t.initial, trace, stamps)
}
