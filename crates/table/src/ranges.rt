// Whether a table value is valid: ranges, then equal pairs.
ghost use Rattle.std.specs.Prelude.{◌≡◌, ◌≤◌, length};
ghost use Rattle.model.specs.Answers.{Tells};
ghost use Rattle.model.specs.Lists.{All};
ghost use Rattle.model.specs.Table.{InRange, Unlike};
ghost use Rattle.table.specs.Rows.{transitions, said};

use crate::Row;
use crate::rows::has_row;
use crate::seen::{key, mark};

// Every number of a transition within its range.
pub fn in_range(states: u16, r: Row) -> bool
    ensures { Tells result (InRange states (said r)) }
{
    // One expression of all nine is slower: the compiler tests them side by side.
    if states <= r.from || 255 < r.input || 255 < r.output || states <= r.to {
        return false;
    }
    if r.u < 1 || r.v <= r.u || 4095 < r.v {
        return false;
    }
    (1..=240).contains(&r.d)
}

// All of them within their ranges.
pub(crate) fn all_in_range(rows: &[Row], states: u16) -> bool
    ensures { Tells result (All (InRange states) (transitions rows.now)) }
{
    rows.iter().all(|&r| in_range(states, r))
}

// No one of them equal to an earlier one, by marks.
fn unlike_by(rows: &[Row], seen: &mut [u8]) -> bool
    requires { (length rows.now ≤ 256) × (256 ≤ length seen.old) }
    ensures { Tells result (Unlike (transitions rows.now)) }
{
    for (i, &r) in rows.iter().enumerate() {
        if mark(seen, key(r)) && has_row(&rows[..i], r) {
            return false;
        }
    }
    true
}

// The same, with marks as many as they need.
pub(crate) fn all_unlike(rows: &[Row]) -> bool
    requires { length rows.now ≤ 256 }
    ensures { Tells result (Unlike (transitions rows.now)) }
{
    if rows.len() <= 16 {
        unlike_by(rows, &mut [0u8; 256])
    } else {
        unlike_by(rows, &mut [0u8; 2048])
    }
}
