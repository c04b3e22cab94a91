#![tactic(auto)]
// Whether any transition can be overtaken by one that may come right after it. If none can, no step can overtake any other.
ghost use Rattle.std.specs.Prelude.{length};
ghost use Rattle.model.specs.Answers.{Tells};
ghost use Rattle.table.specs.Rows.{transitions};
ghost use Rattle.neighbours.specs.Neighbours.{Low, NoneOver, Calm};

use table::Row;

// For each state the least sum of u and d of the transitions that leave it.
fn lower(rows: &[Row]) -> [u32; 32]
    ensures { Low (transitions rows.now) (length rows.now) result }
{
    // Where none leaves stands 65536: no delay is above it.
    let mut least = [65536; 32];
    for &t in rows {
        let s = usize::from(t.from % 32);
        least[s] = least[s].min(u32::from(t.u) + u32::from(t.d));
    }
    least
}

// Whether no delay is above what is kept for the state that the transition leads to.
fn none_over(rows: &[Row], least: &[u32; 32]) -> bool
    ensures { Tells result (NoneOver rows.now least.now) }
{
    rows.iter()
        .all(|t| u32::from(t.d) <= least[usize::from(t.to % 32)])
}

// Whether none of at most 256 transitions can be overtaken by one right after it.
pub fn calm(rows: &[Row]) -> bool
    ensures { Tells result (Calm rows.now (length rows.now)) }
{
    rows.len() <= 256 && none_over(rows, &lower(rows))
}
