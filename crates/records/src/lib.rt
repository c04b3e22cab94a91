#![tactic(auto)]
// The lent list of waiting responses: what is told of those that wait, and what passing time and an output do to them.
ghost use Rattle.std.specs.Prelude.{◌≡◌, ◌≤◌, ◌<◌, map};
ghost use Rattle.model.specs.Answers.{Tells};
ghost use Rattle.model.specs.Lists.{All, Sorted};
ghost use Rattle.records.specs.Record.{Sane, FirstDueAt, aged_in, closed_in};

pub use crate::sweeps::{Seen, Turned, Work, sweep};

mod sweeps;

// A waiting response: its step, its letter and the time that is left, in 1/256 tick.
#[derive(Clone, Copy, PartialEq, Eq, Default)]
pub struct Pending {
    pub step: u16,
    pub letter: u16,
    pub left: u32,
}

// Steps rise, from 1 to that of the last input; no time left is above 240 ticks.
pub fn in_order(waiting: &[Pending], inputs: u16) -> bool
    ensures { Tells result (Sorted ◌<◌ (map (λ p. p.step) waiting.now) × All (Sane inputs) waiting.now) }
{
    // One pass: of is_sorted_by and all the goals stay open.
    let mut below = 0;
    for p in waiting {
        if p.step <= below || inputs < p.step || 61440 < p.left {
            return false;
        }
        below = p.step;
    }
    true
}

// Whether none is due before time t.
pub fn none_before(waiting: &[Pending], t: u32) -> bool
    ensures { Tells result (All (λ p. t ≤ p.left) waiting.now) }
{
    waiting.iter().all(|p| t <= p.left)
}

// The place of the first that is due.
pub fn first_due(waiting: &[Pending]) -> Option<usize>
    ensures { FirstDueAt waiting.now result }
{
    waiting.iter().position(|p| p.left == 0)
}

// Time t passes for the first n records; for none where fewer are lent.
pub fn age(list: &mut [Pending], n: usize, t: u32)
    ensures { list.new ≡ aged_in n t list.old }
{
    if n <= list.len() {
        for p in list[..n].iter_mut() {
            p.left = p.left.saturating_sub(t);
        }
    }
}

// The record at `at` is taken out of the first n: those after it move down, and the freed last place keeps what it held.
pub fn close(list: &mut [Pending], n: usize, at: usize)
    ensures { list.new ≡ closed_in n at list.old }
{
    if at < n && n <= list.len() {
        list.copy_within(at + 1..n, at);
    }
}
