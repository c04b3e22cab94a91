// The search for a pair of what is asked, over the table of sums.
ghost use Rattle.std.specs.Prelude.{◌<◌, length};
ghost use Rattle.model.specs.Answers.{Tells};
ghost use Rattle.table.specs.Rows.{said, transitions};
ghost use Rattle.walks.specs.Walks.{EndsIn, Least};
ghost use Rattle.walks.specs.Best.{Closes, ReadyFor};

use crate::sums::{Sums, number};
use criterion::Goal;
use table::Row;
use table::fit::Fit;

// Whether `last` ends a pair whose first step is `first`, by the number of the walks before it: what is asked is tested here alone.
fn closes(goal: Goal, first: Row, last: Row, number: u32) -> bool
    requires { number < 4278190080 }
    ensures { Tells result (Closes goal (said first) (said last) number) }
{
    number != 0
        && criterion::meets(
            goal,
            first,
            last,
            u32::from(last.u),
            number - 1 + words::late_gap(last),
        )
}

// Whether m ends a pair whose first step is k.
fn ends_at(goal: Goal, fit: Fit<'_>, best: &Sums, k: usize, m: usize) -> bool
    requires { (k < length fit.rows.now) × (m < length fit.rows.now) × ReadyFor goal (transitions fit.rows.now) k best.now }
    ensures { Tells result (EndsIn goal (transitions fit.entry.rows.now) k m) }
{
    let first = fit.rows[k];
    let last = fit.rows[m];
    // The number is looked up only where the first test lets it.
    if !criterion::possible(goal, first, last) {
        return false;
    }
    let x = number(best, criterion::most_before(first, last), last.from);
    closes(goal, first, last, x)
}

// The least transition that ends a pair whose first step is k.
pub(crate) fn ends(goal: Goal, fit: Fit<'_>, best: &Sums, k: usize) -> Option<usize>
    requires { (k < length fit.rows.now) × ReadyFor goal (transitions fit.rows.now) k best.now }
    ensures { Least (EndsIn goal (transitions fit.entry.rows.now) k) result }
{
    // A for: of a closure that captures a struct the goals stay open.
    for m in 0..fit.rows.len() {
        if ends_at(goal, fit, best, k, m) {
            return Some(m);
        }
    }
    None
}
