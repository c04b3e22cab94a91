// The walk between the two steps of a pair, walked back from its end.
ghost use Rattle.std.specs.Prelude.{◌≡◌, ◌+◌, ◌<◌, ◌≤◌, length, drop};
ghost use Rattle.std.proofs.Math.Seq.{paste};
ghost use Rattle.model.specs.Answers.{Tells};
ghost use Rattle.table.specs.Rows.{transitions};
ghost use Rattle.walks.specs.Walks.{EndsIn, ShownWalk, ShownIfAny};
ghost use Rattle.walks.specs.Best.{cell, asked, ReadyFor, Explains, Explained, LeastRow, Back, EndSum, Went};

use crate::search::ends;
use crate::soon::{all_ends, rows_for};
use crate::sums::{Sums, fill, number};
use criterion::Goal;
use table::fit::Fit;

// Where a walk is walked back: k and at most 238 steps.
type Walk = [u16; 239];

fn low(x: usize) -> u16
    requires { x < 65536 }
    ensures { result ≡ x }
{
    // Nothing is cut off: that is proved, and TryFrom would ask what to do if it were.
    x as u16
}

// The number with which a walk is shown: the greatest late sum where a pair is to turn, any where it is to overtake.
fn enough_for(goal: Goal, x: u32) -> u32
    ensures { result ≡ asked goal x }
{
    match goal {
        Goal::Turns => x,
        Goal::Overtakes => 1,
    }
}

// The least row whose number at state e is at least `enough`.
fn least_row(best: &Sums, e: u16, top: usize, enough: u32) -> usize
    requires { (length best.now ≡ 7648) × (top ≤ 238) × (e < 32) × (enough ≤ cell best.now top e) }
    ensures { LeastRow best.now e top enough result }
{
    for a in 0..top {
        if enough <= number(best, a, e) {
            return a;
        }
    }
    top
}

// Whether transition j is the last step of a walk that gives the number in row a at e.
fn explains(fit: Fit<'_>, best: &Sums, e: u16, a: usize, j: usize) -> bool
    requires { (j < length fit.rows.now) × (length best.now ≡ 7648) × (a ≤ 238) × (e < 32) }
    ensures { Tells result (Explains (transitions fit.entry.rows.now) best.now e a j) }
{
    let r = fit.rows[j];
    let u = usize::from(r.u);
    // The number is looked up only where the first test lets it.
    if r.to != e || a < u {
        return false;
    }
    let x = number(best, a - u, r.from);
    x != 0 && u64::from(x) + u64::from(words::late_gap(r)) == u64::from(number(best, a, e))
}

// A transition that explains the number in row a at e.
fn explain(fit: Fit<'_>, best: &Sums, e: u16, a: usize) -> usize
    requires { (length best.now ≡ 7648) × (a ≤ 238) × (e < 32) × Explained (transitions fit.rows.now) best.now e a }
    ensures { (result < length fit.entry.rows.now) × Explains (transitions fit.entry.rows.now) best.now e a result }
{
    // A for: of a closure that captures a struct the goals stay open.
    for j in 0..fit.rows.len() {
        if explains(fit, best, e, a, j) {
            return j;
        }
    }
    unreachable!()
}

// The walk from s that ends with transition j, written right before place `to`: `sum` is the whole sum of lower bounds, j's own with it.
// Each call writes its transition and goes on with the walk before it, which has a smaller sum. The call is the last thing that is
// done, so that no level of it needs stack. Answers the place of the first step: the one right after k.
fn walk_back(
    fit: Fit<'_>,
    s: u16,
    best: &Sums,
    j: usize,
    sum: usize,
    back: &mut Walk,
    to: usize,
) -> usize
    requires { Back (transitions fit.rows.now) s best.now j sum × (sum ≤ to) × (to ≤ 239) × (length back.old ≡ 239) }
    ensures { Went (transitions fit.entry.rows.now) s best.now j sum to back.old back.new result }
{
    let r = fit.rows[j];
    let left = sum - usize::from(r.u);
    let p = to - 1;
    back[p] = low(j);
    if left == 0 {
        return p;
    }
    let i = explain(fit, best, r.from, left);
    walk_back(fit, s, best, i, left, back, p)
}

// What stands in `back` from place p on, written from place `from` on; answers the number of steps.
fn put_walk(back: &Walk, p: usize, trace: &mut [u16], from: usize) -> usize
    requires { (length back.now ≡ 239) × (p ≤ 239) × (from + 239 ≤ length trace.old) }
    ensures { (result + p ≡ 239) × (trace.new ≡ paste trace.old from (drop p back.now) result) }
{
    let n = 239 - p;
    trace[from..from + n].copy_from_slice(&back[p..]);
    n
}

// The whole sum of lower bounds of the walk from k to the end m that is walked back.
fn end_sum(goal: Goal, fit: Fit<'_>, best: &Sums, k: usize, m: usize) -> usize
    requires { (k < length fit.rows.now) × ReadyFor goal (transitions fit.rows.now) k best.now × EndsIn goal (transitions fit.rows.now) k m }
    ensures { EndSum goal (transitions fit.entry.rows.now) k m best.now result }
{
    let first = fit.rows[k];
    let last = fit.rows[m];
    let top = criterion::most_before(first, last);
    let e = last.from;
    let enough = enough_for(goal, number(best, top, e));
    least_row(best, e, top, enough) + usize::from(last.u)
}

// Step k, then the walk back from its end m, written from place `from` on.
fn write_pair(
    goal: Goal,
    fit: Fit<'_>,
    best: &Sums,
    k: usize,
    m: usize,
    trace: &mut [u16],
    from: usize,
) -> usize
    requires { (k < length fit.rows.now) × ReadyFor goal (transitions fit.rows.now) k best.now × EndsIn goal (transitions fit.rows.now) k m
        × (from + 239 ≤ length trace.old) }
    ensures { ShownWalk goal (transitions fit.entry.rows.now) k m from trace.old trace.new result }
{
    let s = fit.rows[k].to;
    let sum = end_sum(goal, fit, best, k, m);
    let mut back = [0u16; 239];
    let p = walk_back(fit, s, best, m, sum, &mut back, 239) - 1;
    back[p] = low(k);
    put_walk(&back, p, trace, from)
}

// The sums of the walks after k, as far as its ends are looked at.
fn fill_for(goal: Goal, fit: Fit<'_>, k: usize, best: &mut Sums)
    requires { (k < length fit.rows.now) × (length best.old ≡ 7648) }
    ensures { ReadyFor goal (transitions fit.entry.rows.now) k best.new }
{
    let first = fit.rows[k];
    let n = rows_for(goal, first, all_ends(fit));
    fill(fit, first.to, best, n);
}

// A pair whose first step is k, with the least end, written from place `from` on; 0 where there is none.
pub(crate) fn show(
    goal: Goal,
    fit: Fit<'_>,
    k: usize,
    best: &mut Sums,
    trace: &mut [u16],
    from: usize,
) -> usize
    requires { (k < length fit.rows.now) × (length best.old ≡ 7648) × (from + 239 ≤ length trace.old) }
    ensures { ShownIfAny goal (transitions fit.entry.rows.now) k from trace.old trace.new result }
{
    fill_for(goal, fit, k, best);
    match ends(goal, fit, best, k) {
        Some(m) => write_pair(goal, fit, best, k, m, trace, from),
        None => 0,
    }
}
