// The ends that are due soonest after the step before them: how many rows a search needs, found in one pass.
ghost use Rattle.std.specs.Prelude.{length};
ghost use Rattle.table.specs.Rows.{said, transitions};
ghost use Rattle.walks.specs.Soon.{Sooner, Soon, Asks, RowsFor};

use criterion::Goal;
use table::fit::Fit;
use table::{BLANK, Row};

// The least u + d of all ends, one that has it, and the least of those that can be told apart from that one.
#[derive(Clone, Copy)]
pub(crate) struct Soonest {
    first: usize,
    end: Row,
    second: usize,
}

// One more end.
// No min: the case decides which letter is kept.
fn sooner(s: Soonest, m: Row) -> Soonest
    ensures { Sooner s (said m) result }
{
    let own = usize::from(m.u) + usize::from(m.d);
    let told = criterion::differ(m, s.end);
    if own < s.first {
        return Soonest {
            first: own,
            end: m,
            second: if told { s.first } else { s.second },
        };
    }
    if told && own < s.second {
        return Soonest { second: own, ..s };
    }
    s
}

// All ends.
pub(crate) fn all_ends(fit: Fit<'_>) -> Soonest
    ensures { Soon (transitions fit.entry.rows.now) (length fit.entry.rows.now) result }
{
    // No delay is above 240: where no end is sooner none is asked for.
    let mut s = Soonest {
        first: 240,
        end: BLANK,
        second: 240,
    };
    for &r in fit.rows {
        s = sooner(s, r);
    }
    s
}

// The least u + d of an end that can be asked for after k.
fn least_for(goal: Goal, k: Row, s: Soonest) -> usize
    ensures { Asks goal (said k) s result }
{
    match goal {
        Goal::Turns if !criterion::differ(k, s.end) => s.second,
        _ => s.first,
    }
}

// How many rows the ends of pairs from k ask for; 0 where k has no such end.
pub(crate) fn rows_for(goal: Goal, k: Row, s: Soonest) -> usize
    ensures { RowsFor goal (said k) s result }
{
    usize::from(k.d).saturating_sub(least_for(goal, k, s))
}
