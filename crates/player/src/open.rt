// Which transition takes an input, and whether the table is split.
ghost use Rattle.model.specs.Answers.{Tells};
ghost use Rattle.model.specs.Table.{Valid};
ghost use Rattle.model.specs.Verdict.{Splits};
ghost use Rattle.table.specs.Rows.{said, transitions, machine_of};
ghost use Rattle.player.specs.Steps.{Opens, FirstOpen};

use replay::Guard;
use table::{Row, Table};

// Whether a transition leaves the state with the letter, and its guard holds the timer.
fn opens(r: Row, state: u16, letter: u16, timer: u32) -> bool
    ensures { Tells result (Opens (said r) state letter timer) }
{
    r.from == state && r.input == letter && replay::gaps::test_guard(r, timer) == Guard::Inside
}

// The lowest open transition.
pub(crate) fn first_open(rows: &[Row], state: u16, letter: u16, timer: u32) -> Option<usize>
    ensures { FirstOpen (transitions rows.now) state letter timer result }
{
    rows.iter().position(|&r| opens(r, state, letter, timer))
}

// Whether no word activates two traces of a checked table.
pub(crate) fn unsplit(t: &Table) -> bool
    requires { Valid (machine_of t.now) }
    ensures { Tells result (Splits (machine_of t.now) → ⊥) }
{
    let rows = t.rows();
    let Some(ways) = reach::reach(rows, t.initial) else {
        // A checked table has no number outside its range.
        return true;
    };
    split_pair::first_split(rows, &ways.dist).is_none()
}
