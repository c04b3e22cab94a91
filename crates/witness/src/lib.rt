#![tactic(auto)]
// The trace that shows a pair of what is asked: the way to its first step, that step, the walk after it and its end.
ghost use Rattle.std.specs.Prelude.{◌≡◌, length};
ghost use Rattle.table.specs.Refusal.{checked_fields};
ghost use Rattle.table.specs.Rows.{machine_of};
ghost use Rattle.table.specs.Tests.{Tested};
ghost use Rattle.table.specs.Fit.{Sound};
ghost use Rattle.walks.specs.Walks.{LowestStart};
ghost use Rattle.witness.specs.Witness.{search_tests, ReadyOutcome, Marked, FromOutcome, WitnessOutcome, goal_left, ShownOutcome};

use criterion::Goal;
use reach::{Marks, Ways};
use table::{Refusal, Row, Table, row_of};

// A shown trace: how many steps stand before the pair's first one, and how many there are in all.
#[derive(Clone, Copy)]
pub struct Witness {
    pub before: usize,
    pub steps: usize,
}

// The tests before a search: the table, then room for 270 steps and `least` stamps.
pub fn admitted(t: &Table, steps: usize, stamps: usize, least: usize) -> Result<(), Refusal>
    ensures { Tested (search_tests (machine_of t.now) steps stamps least) (checked_fields result) }
{
    table::check(t)?;
    if steps < 270 || stamps < least {
        return Err(Refusal::NoRoom);
    }
    Ok(())
}

// The tests before a search through transitions of which no more is tested than it needs, then the marks that it goes by.
pub fn ready(
    rows: &[Row],
    initial: u16,
    steps: usize,
    stamps: usize,
    least: usize,
) -> Result<Ways, Refusal>
    ensures { ReadyOutcome rows.now (length rows.now) initial steps stamps least result }
{
    if 256 < rows.len() {
        return Err(Refusal::Full(0));
    }
    let Some(ways) = reach::reach(rows, initial) else {
        return Err(Refusal::OutOfRange(0));
    };
    if 270 <= steps && least <= stamps {
        Ok(ways)
    } else {
        Err(Refusal::NoRoom)
    }
}

// The pair whose first step is k, shown from the front of trace on. The walk is written first, since it tells whether there is a pair, then the way before it.
// That the rows fit is known of k, so that they need not be tested once more.
fn write_from(goal: Goal, rows: &[Row], ways: &Ways, k: usize, trace: &mut [u16]) -> Option<Witness>
    requires { Sound rows.now (length rows.now) × Marked rows.now ways.now.dist (length rows.now) k }
    ensures { FromOutcome goal rows.now (length rows.now) ways.now.dist ways.now.via k trace.old result trace.new }
{
    let from = row_of(rows, k).from;
    let before = usize::from(reach::mark_of(&ways.dist, from)) - 1;
    let more = walks::write_walk(goal, rows, k, trace, before);
    if more == 0 {
        return None;
    }
    reach::write_way(rows, ways, from, trace);
    Some(Witness {
        before,
        steps: before + more,
    })
}

// The lowest transition that leaves a marked state and starts a pair.
fn lowest(goal: Goal, rows: &[Row], dist: &Marks) -> Option<usize>
    ensures { LowestStart goal rows.now (length rows.now) dist.now result }
{
    match goal {
        Goal::Turns => starts::lowest_turning(rows, dist),
        Goal::Overtakes => soonest::lowest_overtaken(rows, dist),
    }
}

// The same, shown from the front of trace on. Nothing below what is overtaken first turns: where that does, no table of all starts is needed.
// One call of write_from serves both tries, so that the sums of its walk and the table share their room.
fn write_lowest(goal: Goal, rows: &[Row], ways: &Ways, trace: &mut [u16]) -> Option<Witness>
    ensures { WitnessOutcome goal rows.now (length rows.now) ways.now.dist ways.now.via trace.old result trace.new }
{
    let mut found = soonest::lowest_overtaken(rows, &ways.dist);
    let mut last = false;
    loop {
        let shown = write_from(goal, rows, ways, found?, trace);
        if shown.is_some() || last {
            return shown;
        }
        found = lowest(goal, rows, &ways.dist);
        last = true;
    }
}

// The words of what is asked, for the steps k and m: the late and the early one of a pair that turns, the early one of a pair that overtakes.
fn write_goal(goal: Goal, rows: &[Row], trace: &[u16], k: usize, m: usize, stamps: &mut [u32])
    ensures { stamps.new ≡ goal_left goal rows.now trace.now k m stamps.old }
{
    match goal {
        Goal::Turns => words::write_words(rows, trace, k, m, stamps),
        Goal::Overtakes => words::write_word(rows, trace, k, m, stamps),
    }
}

// And with its words.
pub fn show_lowest(
    goal: Goal,
    rows: &[Row],
    ways: &Ways,
    trace: &mut [u16],
    stamps: &mut [u32],
) -> Option<Witness>
    ensures { ShownOutcome goal rows.now (length rows.now) ways.now.dist ways.now.via trace.old stamps.old
        result trace.new stamps.new }
{
    let w = write_lowest(goal, rows, ways, trace)?;
    write_goal(goal, rows, &trace[..w.steps], w.before, w.steps - 1, stamps);
    Some(w)
}
