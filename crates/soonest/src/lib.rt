#![tactic(auto)]
// The lowest transition that can be overtaken, by the soonest end of the walks from each state.
ghost use Rattle.std.specs.Prelude.{◌<◌, length};
ghost use Rattle.model.specs.Table.{at};
ghost use Rattle.table.specs.Rows.{transitions};
ghost use Rattle.criterion.specs.declared.Goal.TheVariants.{Overtakes};
ghost use Rattle.walks.specs.Walks.{LowestStart};
ghost use Rattle.soonest.specs.Soonest.{Settled, SettledTo, Real, Soonest, Lowered};

use reach::{Marks, mark_of};
use table::Row;
use table::fit::Fit;

// Whether transition i makes an end sooner, itself or by the soonest after it; then that is kept.
fn lower(fit: Fit<'_>, i: usize, soonest: &mut Marks) -> bool
    requires { (i < length fit.rows.now) × Real (transitions fit.rows.now) soonest.old }
    ensures { Lowered (transitions fit.entry.rows.now) (Settled (at (transitions fit.entry.rows.now) i)) soonest.old result soonest.new }
{
    let t = fit.rows[i];
    let from = usize::from(t.from);
    let x = t.u + t.d.min(soonest[usize::from(t.to)]);
    if soonest[from] <= x {
        return false;
    }
    soonest[from] = x;
    true
}

// Whether any transition does.
fn lower_all(fit: Fit<'_>, soonest: &mut Marks) -> bool
    requires { Real (transitions fit.rows.now) soonest.old }
    ensures { Lowered (transitions fit.entry.rows.now) (SettledTo (transitions fit.entry.rows.now) (length fit.entry.rows.now)) soonest.old result soonest.new }
{
    let mut any = false;
    for i in 0..fit.rows.len() {
        any |= lower(fit, i, soonest);
    }
    any
}

// The soonest ends: lowered until no transition lowers any. Where no end is sooner than the longest delay, 240, none is asked for.
fn settle(fit: Fit<'_>) -> Marks
    ensures { Soonest (transitions fit.entry.rows.now) result }
{
    let mut soonest = [240; 32];
    while lower_all(fit, &mut soonest) {}
    soonest
}

// The lowest transition that leaves a marked state and can be overtaken: an end after it is due before its own response.
// None where the numbers are not within their limits.
pub fn lowest_overtaken(rows: &[Row], dist: &Marks) -> Option<usize>
    ensures { LowestStart Overtakes rows.now (length rows.now) dist.now result }
{
    let soonest = settle(Fit::new(rows)?);
    rows.iter().position(|t| mark_of(dist, t.from) != 0 && mark_of(&soonest, t.to) < t.d)
}
