// Replay.
use crate::rest::say_rest;
use crate::text::{at_most, behind, narrow, word_at};
use saying::at;
use std::io;
use table::{Refusal, Table};

// Of many places only the last is shown.
pub(crate) fn shown_from(n: usize) -> usize {
    if 8 < n { n - 1 } else { 0 }
}

// What a replay of n steps answered and left.
pub(crate) fn say_played(
    rt: &impl Print,
    r: Result<(), Refusal>,
    order: &[u16],
    due: &[u32],
    n: usize,
) -> io::Result<()> {
    if let Err(r) = r {
        print!(rt; "{r}")?;
        return say_rest(rt, order, 0, due, 0);
    }
    print!(rt; "played")?;
    for i in shown_from(n)..n {
        print!(rt; ", {} at {}", at(order, i, 0), at(due, i, 0))?;
    }
    say_rest(rt, order, n, due, n)
}

// `play`: places for the order, places for the due times, start stamp, number of steps, the trace, the stamps.
pub(crate) fn play(rt: &impl Print, t: &Table, numbers: &[u32]) -> io::Result<()> {
    let mut steps = [0u16; 600];
    narrow(numbers, 4, &mut steps);
    let n = at_most(numbers, 3, 600);
    let mut order = [65535u16; 600];
    let mut due = [65535u32; 600];
    let order = &mut order[..at_most(numbers, 0, 600)];
    let due = &mut due[..at_most(numbers, 1, 600)];
    let stamps = behind(numbers, 4 + n);
    let r = replay::replay(t, &steps[..n], word_at(numbers, 2), stamps, order, due);
    say_played(rt, r, order, due, n)
}
