// The search for the lowest start, over the table of what is kept.
ghost use Rattle.std.specs.Prelude.{◌≡◌, ◌*◌, ◌<◌, ◌≤◌, length};
ghost use Rattle.model.specs.Answers.{Tells};
ghost use Rattle.criterion.specs.declared.Goal.TheVariants.{Turns};
ghost use Rattle.table.specs.Rows.{transitions, said};
ghost use Rattle.walks.specs.Walks.{Least, Starts};
ghost use Rattle.starts.specs.Rows.{Blank, MoreRows, Covers, Ready};

use crate::kept::asked;
use crate::sums::{entry, fill};
use reach::{Marks, mark_of};
use table::Row;
use table::fit::Fit;

// The greater of n and the delay of t, if t leaves a marked state.
// A maximum under a condition.
fn rows_with(dist: &Marks, t: Row, n: usize) -> usize
    ensures { MoreRows dist.now (said t) n result }
{
    let d = usize::from(t.d);
    if d <= n || mark_of(dist, t.from) == 0 {
        n
    } else {
        d
    }
}

// How many rows are looked at: the greatest delay of a transition that leaves a marked state.
pub(crate) fn rows_asked(fit: Fit<'_>, dist: &Marks) -> usize
    ensures { Covers (transitions fit.entry.rows.now) dist.now (length fit.entry.rows.now) result }
{
    let mut n = 0;
    for &t in fit.rows {
        n = rows_with(dist, t, n);
    }
    n
}

// Whether transition k leaves a marked state and starts a pair that turns.
fn starts(fit: Fit<'_>, dist: &Marks, numbers: &[u32], letters: &[u8], k: usize) -> bool
    requires { (k < length fit.rows.now) × Ready (transitions fit.rows.now) dist.now numbers.now letters.now }
    ensures { Tells result (Starts Turns (transitions fit.entry.rows.now) dist.now k) }
{
    let t = fit.rows[k];
    let mark = mark_of(dist, t.from);
    // The number is looked up only where the first test lets it.
    if mark == 0 {
        return false;
    }
    asked(t, entry(numbers, letters, usize::from(t.d) - 1, t.to))
}

// The lowest of them.
fn first_start(fit: Fit<'_>, dist: &Marks, numbers: &[u32], letters: &[u8]) -> Option<usize>
    requires { Ready (transitions fit.rows.now) dist.now numbers.now letters.now }
    ensures { Least (Starts Turns (transitions fit.entry.rows.now) dist.now) result }
{
    // A for: of a closure that captures a struct the goals stay open.
    for k in 0..fit.rows.len() {
        if starts(fit, dist, numbers, letters, k) {
            return Some(k);
        }
    }
    None
}

// The same, with the n rows that are looked at made first.
pub(crate) fn lowest_start(
    fit: Fit<'_>,
    dist: &Marks,
    numbers: &mut [u32],
    letters: &mut [u8],
    n: usize,
) -> Option<usize>
    requires { Covers (transitions fit.rows.now) dist.now (length fit.rows.now) n × (length letters.old ≡ length numbers.old)
        × Blank numbers.old 0 × (n * 32 ≤ length numbers.old) }
    ensures { Least (Starts Turns (transitions fit.entry.rows.now) dist.now) result }
{
    fill(fit, numbers, letters, n);
    first_start(fit, dist, numbers, letters)
}
