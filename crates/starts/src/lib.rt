#![tactic(auto)]
// The lowest transition that starts a pair that turns: one table, filled backwards from the ends of the walks, answers for all.
ghost use Rattle.std.specs.Prelude.{◌*◌, ◌≤◌, length};
ghost use Rattle.criterion.specs.declared.Goal.TheVariants.{Turns};
ghost use Rattle.table.specs.Rows.{transitions};
ghost use Rattle.walks.specs.Walks.{Least, Starts, LowestStart};
ghost use Rattle.starts.specs.Rows.{Covers};

use reach::Marks;
use table::Row;
use table::fit::Fit;

mod kept;
mod letters;
mod search;
mod sums;

// The search in room for n rows and more.
fn in_room<const ROOM: usize>(fit: Fit<'_>, dist: &Marks, n: usize) -> Option<usize>
    requires { Covers (transitions fit.rows.now) dist.now (length fit.rows.now) n × (n * 32 ≤ ROOM) × (ROOM ≤ 7680) }
    ensures { Least (Starts Turns (transitions fit.entry.rows.now) dist.now) result }
{
    let mut numbers = [0u32; ROOM];
    let mut letters = [0u8; ROOM];
    search::lowest_start(fit, dist, &mut numbers, &mut letters, n)
}

// The search by the table, in the room that it needs: an everyday table, whose delays are short, does not pay for all rows.
// Where all letters are alike there is nothing to search.
fn by_table(fit: Fit<'_>, dist: &Marks) -> Option<usize>
    ensures { Least (Starts Turns (transitions fit.entry.rows.now) dist.now) result }
{
    if !letters::any_unlike(fit.rows) {
        return None;
    }
    let n = search::rows_asked(fit, dist);
    if n <= 64 {
        in_room::<2048>(fit, dist, n)
    } else {
        in_room::<7680>(fit, dist, n)
    }
}

// The lowest transition that leaves a marked state and starts a pair that turns. None where the numbers are not within their limits.
pub fn lowest_turning(rows: &[Row], dist: &Marks) -> Option<usize>
    ensures { LowestStart Turns rows.now (length rows.now) dist.now result }
{
    by_table(Fit::new(rows)?, dist)
}
