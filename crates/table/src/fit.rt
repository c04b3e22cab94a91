// Transitions that the search may go through.
ghost use Rattle.std.specs.Prelude.{◌≡◌, ◌↔◌, ◌≤◌, All, IfSome, IsSome, length};
ghost use Rattle.model.specs.Table.{InRange};
ghost use Rattle.table.specs.Rows.{said};
ghost use Rattle.model.specs.Answers.{Tells};
ghost use Rattle.table.specs.Fit.{Sound};

use crate::Row;
use crate::ranges::all_in_range;

// At most 256 transitions, every number of each within its range: the fact is the type's.
#[derive(Clone, Copy)]
pub struct Fit<'a> {
    pub rows: &'a [Row],
    ghost few: { length rows.now ≤ 256 },
    ghost ranged: { All (λ r. InRange 32 (said r)) rows.now },
}

// Whether the search may go through these transitions: at most 256, every number within its range. Equal ones are not looked for.
pub fn in_limits(rows: &[Row]) -> bool
    ensures { Tells result (Sound rows.now (length rows.now)) }
{
    rows.len() <= 256 && all_in_range(rows, 32)
}

impl<'a> Fit<'a> {
    // These transitions, tested; none where they are too many or a number is outside its range.
    pub fn new(rows: &'a [Row]) -> Option<Self>
        ensures is { IfSome result (λ f. f.rows.now ≡ rows.now) }
        ensures limits { IsSome result ↔ Sound rows.now (length rows.now) }
    {
        if in_limits(rows) {
            Some(Fit { rows })
        } else {
            None
        }
    }
}
