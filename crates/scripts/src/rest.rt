// What the calls leave in the memory that they are lent: whether the rest of it is as it was.
use crate::text::behind;
use std::io;

// The places from n on, and from k on, are as they were lent.
fn kept(steps: &[u16], n: usize, times: &[u32], k: usize) -> bool {
    behind(steps, n).iter().all(|&x| x == 65535) && behind(times, k).iter().all(|&x| x == 65535)
}

pub(crate) fn say_rest(
    rt: &impl Print,
    steps: &[u16],
    n: usize,
    times: &[u32],
    k: usize,
) -> io::Result<()> {
    if kept(steps, n, times, k) {
        println!(rt; ", rest kept")
    } else {
        println!(rt; ", rest CHANGED")
    }
}

// Of three buffers: from n on in the first two, from w on in the marks.
pub(crate) fn say_rest_marked(
    rt: &impl Print,
    order: &[u16],
    due: &[u32],
    n: usize,
    marks: &[u16],
    w: usize,
) -> io::Result<()> {
    if kept(order, n, due, n) {
        say_rest(rt, marks, w, due, n)
    } else {
        say_rest(rt, order, n, due, n)
    }
}
