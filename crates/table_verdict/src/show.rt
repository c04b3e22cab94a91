// The shown trace of a split, with its word.
ghost use Rattle.std.specs.Prelude.{◌<◌, length};
ghost use Rattle.table.specs.Rows.{transitions};
ghost use Rattle.table.specs.Fit.{Sound};
ghost use Rattle.table_verdict.specs.Shown.{ShowRoom, SplitStands};

use crate::OnTable;
use reach::Ways;
use table::{Row, row_of};

// The way to the state that i leaves, then i; the word that both i and j take there. That the rows fit is known where there are marks, so that
// they need not be tested once more.
pub(crate) fn show_split(
    rows: &[Row],
    ways: &Ways,
    i: usize,
    j: usize,
    trace: &mut [u16],
    stamps: &mut [u32],
) -> OnTable
    requires { Sound rows.now (length rows.now) × ShowRoom (transitions rows.now) ways.now.dist ways.now.via i trace.old stamps.old × (j < length rows.now) }
    ensures { SplitStands (transitions rows.now) ways.now.dist ways.now.via i j trace.old stamps.old
        result trace.new stamps.new }
{
    let first = row_of(rows, i);
    let second = row_of(rows, j);
    let n = reach::write_way(rows, ways, first.from, trace);
    words::write_split_word(rows, &trace[..n], first, second, stamps);
    // Nothing is cut off: that is proved, and TryFrom would ask what to do if it were.
    trace[n] = i as u16;
    OnTable::Split(i, j, n + 1)
}
