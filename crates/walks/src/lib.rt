#![tactic(auto)]
// The walks of a table with their sums: the walk from the first step of a pair of what is asked to its end.
ghost use Rattle.std.specs.Prelude.{length};
ghost use Rattle.walks.specs.Walks.{WalkOutcome};

use criterion::Goal;
use table::Row;
use table::fit::Fit;

mod search;
mod soon;
mod sums;
mod walk;

// Transition k, the walk after it and the least end of a pair, written from place `from` on; answers the number of steps.
// 0, and nothing written, where k starts no pair, the numbers are not within their limits or fewer than 239 places are left.
// 0 and no Option: `WalkOutcome` says it of the number.
pub fn write_walk(goal: Goal, rows: &[Row], k: usize, trace: &mut [u16], from: usize) -> usize
    ensures { WalkOutcome goal rows.now (length rows.now) k from trace.old trace.new result }
{
    if rows.len() <= k || trace.len() < 239 || trace.len() - 239 < from {
        return 0;
    }
    let Some(fit) = Fit::new(rows) else {
        return 0;
    };
    let mut best = [0u32; 7648];
    walk::show(goal, fit, k, &mut best, trace, from)
}
