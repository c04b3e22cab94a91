#![tactic(auto)]
// Which states can be reached, how far each is from the initial one, and the way there.
ghost use Rattle.std.specs.Prelude.{◌≡◌, ◌≤◌, ◌<◌, length};
ghost use Rattle.table.specs.Rows.{transitions, said};
ghost use Rattle.reach.specs.Reach.{mark, Reach, ReachOutcome, WayStands};
ghost use Rattle.reach.specs.Rounds.{Round, Led, SameStart};

use table::fit::Fit;
use table::{Row, row_of};

// A number for each of 32 states.
pub type Marks = [u16; 32];

// The marks of the states, and the transitions by which they were reached.
#[derive(Clone, Copy)]
pub struct Ways {
    pub dist: Marks,
    pub via: Marks,
}

// The number of a state; past the 32nd stands 0.
pub fn mark_of(dist: &Marks, s: u16) -> u16
    ensures { result ≡ mark dist.now s }
{
    dist.get(usize::from(s)).copied().unwrap_or(0)
}

impl Ways {
    // Transition i in round r: from a state of the round to a new state, it gives the new one its mark and its way in. Answers the highest mark.
    fn lead(&mut self, row: Row, i: u16, r: u16, top: u16) -> u16
        requires { (row.from < 32) × (row.to < 32) × (r ≤ 32) }
        ensures { Led (said row) i r top self.old.dist self.old.via self.new.dist self.new.via result }
    {
        let from = usize::from(row.from);
        let to = usize::from(row.to);
        let new = self.dist[to] == 0;
        if self.dist[from] == r && new {
            self.dist[to] = r + 1;
            self.via[to] = i;
            return r + 1;
        }
        top
    }

    // Round r: every transition from a state with the mark r. Answers the highest mark.
    fn round(&mut self, fit: Fit<'_>, r: u16) -> u16
        requires { Round (transitions fit.rows.now) self.old.dist self.old.via r 0 r }
        ensures round { Round (transitions fit.entry.rows.now) self.new.dist self.new.via r (length fit.entry.rows.now) result }
        ensures same_start { SameStart self.old.dist self.new.dist }
    {
        let mut top = r;
        for (i, &row) in fit.rows.iter().enumerate() {
            // There are at most 256: no number is cut off, and TryFrom would ask what to do if one were.
            top = self.lead(row, i as u16, r, top);
        }
        top
    }
}

// The marks and the ways in, breadth first: a round that leads nowhere is the last, and 32 states take no more than 32.
fn spread(fit: Fit<'_>, initial: u16) -> Ways
    requires { initial < 32 }
    ensures { Reach (transitions fit.entry.rows.now) initial result.dist result.via }
{
    let mut ways = Ways {
        dist: [0; 32],
        via: [0; 32],
    };
    ways.dist[usize::from(initial)] = 1;
    for r in 1..33 {
        if ways.round(fit, r) <= r {
            break;
        }
    }
    ways
}

// The marks of every state that can be reached from the initial one, and the ways in. None: a number is outside its range.
pub fn reach(rows: &[Row], initial: u16) -> Option<Ways>
    ensures { ReachOutcome rows.now (length rows.now) initial result }
{
    let fit = Fit::new(rows)?;
    if initial < 32 {
        Some(spread(fit, initial))
    } else {
        None
    }
}

// The way from the initial state to a marked one, at the front of trace. Answers its number of steps: 0 where it has no room.
pub fn write_way(rows: &[Row], ways: &Ways, end: u16, trace: &mut [u16]) -> usize
    ensures { WayStands rows.now ways.now.dist ways.now.via end trace.old trace.new result }
{
    let steps = usize::from(mark_of(&ways.dist, end)).saturating_sub(1);
    if trace.len() < steps {
        return 0;
    }
    let mut s = end;
    for n in (0..steps).rev() {
        let i = mark_of(&ways.via, s);
        trace[n] = i;
        s = row_of(rows, usize::from(i)).from;
    }
    steps
}
