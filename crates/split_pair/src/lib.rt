#![tactic(auto)]
// The first split pair: two transitions that leave one reached state, with one input and overlapping guards.
ghost use Rattle.std.specs.Prelude.{◌≡◌, ◌<◌, length};
ghost use Rattle.model.specs.Answers.{Tells};
ghost use Rattle.table.specs.Rows.{transitions, said};
ghost use Rattle.split_pair.specs.Split.{fork_place, Forks, Apart, Partner, SplitOutcome};

use reach::{Marks, mark_of};
use table::Row;

// Whether two transitions leave one state with one input and overlapping guards: greater u below both v.
fn forks(r: Row, s: Row) -> bool
    ensures { Tells result (Forks (said r) (said s)) }
{
    // Nearly always one of the first two tells. One expression of all four is slower: the compiler tests them side by side.
    if s.from != r.from || s.input != r.input {
        return false;
    }
    let u = r.u.max(s.u);
    u < r.v && u < s.v
}

// The place of a transition.
fn place(t: Row) -> usize
    ensures { result ≡ fork_place (said t) }
{
    usize::from(t.from % 32 * 8 + t.input % 8)
}

// Whether each of at most 256 transitions has a place of its own: then no two fork. So it is in most tables, and one look at each tells.
pub fn apart(rows: &[Row]) -> bool
    ensures { Tells result (Apart rows.now (length rows.now)) }
{
    if 256 < rows.len() {
        return false;
    }
    let mut taken = [false; 256];
    for &r in rows {
        let k = place(r);
        if taken[k] {
            return false;
        }
        taken[k] = true;
    }
    true
}

// The least second transition of a split pair with i.
fn partner(rows: &[Row], dist: &Marks, i: usize) -> Option<usize>
    requires { i < length rows.now }
    ensures { Partner (transitions rows.now) dist.now i result }
{
    let row = rows[i];
    if mark_of(dist, row.from) == 0 {
        return None;
    }
    for j in i + 1..rows.len() {
        if forks(row, rows[j]) {
            return Some(j);
        }
    }
    None
}

// The split pair with the least first number, then the least second; of more than 256 transitions nothing.
pub fn first_split(rows: &[Row], dist: &Marks) -> Option<(usize, usize)>
    ensures { SplitOutcome rows.now (length rows.now) dist.now result }
{
    if 256 < rows.len() || apart(rows) {
        return None;
    }
    for i in 0..rows.len() {
        if let Some(j) = partner(rows, dist, i) {
            return Some((i, j));
        }
    }
    None
}
