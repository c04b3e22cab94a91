// The table of sums: for each arrival state and each sum of lower bounds the greatest late sum of the walks from it.
ghost use Rattle.std.specs.Prelude.{◌≡◌, ◌+◌, ◌<◌, ◌≤◌, length};
ghost use Rattle.table.specs.Rows.{transitions};
ghost use Rattle.walks.specs.Best.{cell, Filled, Roomy, Making, Copied, First};

use table::fit::Fit;

// The numbers: 239 rows of 32.
pub(crate) type Sums = [u32; 7648];

// The number in a row at a state.
pub(crate) fn number(best: &Sums, row: usize, state: u16) -> u32
    requires { (length best.now ≡ 7648) × (row ≤ 238) × (state < 32) }
    ensures { result ≡ cell best.now row state }
{
    best[row * 32 + usize::from(state)]
}

// Row `at` with what transition i adds to it.
fn improve(fit: Fit<'_>, s: u16, best: &mut Sums, at: usize, i: usize)
    requires { (i < length fit.rows.now) × Making (transitions fit.rows.now) s best.old at i }
    ensures { Making (transitions fit.entry.rows.now) s best.new at (i + 1) }
{
    let r = fit.rows[i];
    let u = usize::from(r.u);
    if at < u {
        return;
    }
    let x = number(best, at - u, r.from);
    if x == 0 {
        return;
    }
    let y = x + words::late_gap(r);
    if y <= number(best, at, r.to) {
        return;
    }
    best[at * 32 + usize::from(r.to)] = y;
}

// Every transition for one row.
fn sweep(fit: Fit<'_>, s: u16, best: &mut Sums, at: usize)
    requires { Making (transitions fit.rows.now) s best.old at 0 }
    ensures { Roomy (transitions fit.entry.rows.now) s best.new × Filled (transitions fit.entry.rows.now) s best.new (at + 1) }
{
    for i in 0..fit.rows.len() {
        improve(fit, s, best, at, i);
    }
}

// Row p + 1 begins as row p.
fn copy_row(best: &mut Sums, p: usize)
    requires { (p < 238) × (length best.old ≡ 7648) }
    ensures { Copied best.old best.new p 32 }
{
    best.copy_within(p * 32..p * 32 + 32, p * 32 + 32);
}

// Row 0 has s alone.
fn first(best: &mut Sums, s: u16)
    requires { (s < 32) × (length best.old ≡ 7648) }
    ensures { First best.new s }
{
    best[..32].fill(0);
    best[usize::from(s)] = 1;
}

// The rows 0 to limit of the greatest late sums over walks from s.
pub(crate) fn fill(fit: Fit<'_>, s: u16, best: &mut Sums, limit: usize)
    requires { (s < 32) × (length best.old ≡ 7648) × (limit ≤ 238) }
    ensures { Roomy (transitions fit.entry.rows.now) s best.new × Filled (transitions fit.entry.rows.now) s best.new (limit + 1) }
{
    first(best, s);
    for p in 0..limit {
        copy_row(best, p);
        sweep(fit, s, best, p + 1);
    }
}
