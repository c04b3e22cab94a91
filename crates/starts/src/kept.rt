// What is kept of the walks from a state to their ends.
ghost use Rattle.std.specs.Prelude.{◌≡◌, ◌≤◌};
ghost use Rattle.model.specs.Answers.{Tells};
ghost use Rattle.table.specs.Rows.{said};
ghost use Rattle.starts.specs.Kept.{cap, Taken, Joined, Ended, Asked};

use table::Row;

// The greatest number, the letter of an end that has it, and the greatest number of the ends with another letter.
#[derive(Clone, Copy)]
pub(crate) struct Entry {
    pub first: u16,
    pub letter: u8,
    pub second: u16,
}

// At most 240 ticks: more can't matter, since no delay is longer.
fn capped(x: u32) -> u16
    ensures { result ≡ cap x }
{
    // Nothing is cut off: that is proved, and TryFrom would ask what to do if it were.
    x.min(61440) as u16
}

// One more end.
fn taken(a: Entry, x: u16, letter: u8) -> Entry
    ensures { Taken a x letter result }
{
    if letter == a.letter {
        return Entry {
            first: a.first.max(x),
            ..a
        };
    }
    if a.first < x {
        return Entry {
            first: x,
            letter,
            second: a.first,
        };
    }
    Entry {
        second: a.second.max(x),
        ..a
    }
}

// The ends of n too, each a gap later.
pub(crate) fn joined(a: Entry, n: Entry, gap: u32) -> Entry
    requires { gap ≤ 16776960 }
    ensures { Joined a n gap result }
{
    if n.first == 0 {
        return a;
    }
    let r = taken(a, capped(u32::from(n.first) + gap), n.letter);
    if n.second == 0 {
        return r;
    }
    // The first of n, a second of r already, is no less.
    if r.letter != n.letter {
        return r;
    }
    Entry {
        second: r.second.max(capped(u32::from(n.second) + gap)),
        ..r
    }
}

// Transition t itself too, if it may end a walk with so much left for its delay.
pub(crate) fn ended(a: Entry, t: Row, left: usize) -> Entry
    requires { t.output ≤ 255 }
    ensures { Ended a (said t) left result }
{
    if left < usize::from(t.d) {
        return a;
    }
    // Nothing is cut off: that is proved, and TryFrom would ask what to do if it were.
    taken(
        a,
        capped(words::late_gap(t) + u32::from(t.d) * 256),
        t.output as u8,
    )
}

// Whether one of the ends turns with k: what is asked is tested here alone.
pub(crate) fn asked(k: Row, a: Entry) -> bool
    ensures { Tells result (Asked (said k) a) }
{
    let due = u32::from(k.d) * 256;
    if k.output == u16::from(a.letter) {
        due <= u32::from(a.second)
    } else {
        due <= u32::from(a.first)
    }
}
