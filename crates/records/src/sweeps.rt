// One loop over the lent list with a switch on what it does: what the five functions of this crate do one by one, and what they do not: a gap closed up
// to another last place or with another last record, a look from any start, a record added in passing, the work that goes on.
ghost use Rattle.std.specs.Prelude.{◌≡◌, ◌-◌, ◌≤◌, ltb, eqb};
ghost use Rattle.records.specs.Sweep.{pick, fine_of, seen_of, aged_of, turn_of, within_of, swept_in};

use crate::Pending;

// What a look over the records has seen: whether they are in order, the greatest step that may stand before, the least time
// left, and the lowest place that is due with its record.
#[derive(Clone, Copy)]
pub struct Seen {
    pub fine: bool,
    pub above: u16,
    pub least: u32,
    pub due: usize,
    pub first: Pending,
}

// What a sweep does: look; take a time off each record; close the gap at a place, up to a last place that keeps its
// record, with the record that moves down; write a record to a place.
#[derive(Clone, Copy)]
pub enum Work {
    Look(Seen),
    Age(u32),
    Close(usize, usize, Pending),
    Add(usize, Pending),
}

// What stands at the place next, and the work that goes on.
#[derive(Clone, Copy)]
pub struct Turned {
    pub next: Pending,
    pub work: Work,
}

fn in_order(p: Pending, s: Seen) -> bool
    ensures { result ≡ fine_of p s }
{
    if p.step == 0 {
        return false;
    }
    if s.above < p.step {
        return false;
    }
    if 61440 < p.left {
        return false;
    }
    s.fine
}

fn lower(step: u16) -> u16
    ensures { result ≡ step - 1 }
{
    if step == 0 {
        return 0;
    }
    step - 1
}

fn lesser(a: u32, b: u32) -> u32
    ensures { result ≡ pick (ltb a b) a b }
{
    if a < b {
        return a;
    }
    b
}

fn lowest(left: u32, i: usize, due: usize) -> usize
    ensures { result ≡ pick (eqb left 0) i due }
{
    if left == 0 {
        return i;
    }
    due
}

fn chosen(a: usize, b: usize, p: Pending, q: Pending) -> Pending
    ensures { result ≡ pick (eqb a b) p q }
{
    if a == b {
        return p;
    }
    q
}

fn look_at(p: Pending, i: usize, s: Seen) -> Seen
    ensures { result ≡ seen_of p i s }
{
    let fine = in_order(p, s);
    let above = lower(p.step);
    let least = lesser(p.left, s.least);
    let due = lowest(p.left, i, s.due);
    let known = s.first;
    let first = chosen(p.left as usize, 0, p, known);
    Seen {
        fine,
        above,
        least,
        due,
        first,
    }
}

fn aged(p: Pending, t: u32) -> Pending
    ensures { result ≡ aged_of p t }
{
    let left = p.left;
    if left < t {
        return Pending {
            step: p.step,
            letter: p.letter,
            left: 0,
        };
    }
    Pending {
        step: p.step,
        letter: p.letter,
        left: left - t,
    }
}

fn turn(p: Pending, i: usize, w: Work) -> Turned
    ensures { result ≡ turn_of p i w }
{
    match w {
        Work::Look(s) => {
            let t = look_at(p, i, s);
            Turned {
                next: p,
                work: Work::Look(t),
            }
        }
        Work::Age(t) => {
            let q = aged(p, t);
            Turned {
                next: q,
                work: Work::Age(t),
            }
        }
        Work::Close(at, top, last) => {
            if at <= i {
                let q = chosen(i, top, p, last);
                Turned {
                    next: q,
                    work: Work::Close(at, top, p),
                }
            } else {
                Turned {
                    next: p,
                    work: Work::Close(at, top, last),
                }
            }
        }
        Work::Add(at, new) => {
            let q = chosen(i, at, new, p);
            Turned {
                next: q,
                work: Work::Add(at, new),
            }
        }
    }
}

// How many records a sweep goes through: none where fewer are lent.
fn within(n: usize, lent: usize) -> usize
    ensures { (result ≡ within_of n lent) × (result ≤ lent) }
{
    if n <= lent {
        return n;
    }
    0
}

// Each of the first n records goes through one turn, the last first; where fewer are lent, none does.
pub fn sweep(list: &mut [Pending], mut n: usize, mut work: Work) -> Work
    ensures { (list.new ≡ (swept_in n list.old work).list) × (result ≡ (swept_in n list.old work).work) }
{
    n = within(n, list.len());
    while 0 < n {
        n -= 1;
        let t = turn(list[n], n, work);
        list[n] = t.next;
        work = t.work;
    }
    work
}
