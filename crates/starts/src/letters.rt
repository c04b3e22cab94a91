// Whether any two letters differ: if all are alike, no pair turns.
ghost use Rattle.model.specs.Answers.{Tells};
ghost use Rattle.table.specs.Rows.{transitions};
ghost use Rattle.starts.specs.Letters.{AnyUnlike};

use table::{Row, row_of};

// Whether some transition can be told apart from the first.
pub(crate) fn any_unlike(rows: &[Row]) -> bool
    ensures { Tells result (AnyUnlike (transitions rows.now)) }
{
    let first = row_of(rows, 0);
    rows.iter().any(|&m| criterion::differ(first, m))
}
