// A night of words.
use crate::plays::{say_played, shown_from};
use crate::rest::{say_rest, say_rest_marked};
use crate::text::{at_most, behind, front, narrow};
use saying::at;
use std::io;
use table::{Refusal, Table};

// A word, counted from 1, by its own places, as its single replay is printed; of a refused one its mark alone is known, the step.
fn say_word(rt: &impl Print, w: usize, mark: u16, order: &[u16], due: &[u32]) -> io::Result<()> {
    print!(rt; "word {w} ")?;
    if mark == 0 {
        return say_played(rt, Ok(()), order, due, order.len());
    }
    print!(rt; "outside at {mark}")?;
    say_rest(rt, order, 0, due, 0)
}

// The words on n places each; of many only the last is shown.
fn say_words(
    rt: &impl Print,
    words: usize,
    n: usize,
    order: &[u16],
    due: &[u32],
    marks: &[u16],
) -> io::Result<()> {
    let mut orders = order;
    let mut dues = due;
    for w in 0..words {
        if orders.len() < n || dues.len() < n {
            return Ok(());
        }
        let (order, more) = orders.split_at(n);
        let (due, later) = dues.split_at(n);
        if shown_from(words) <= w {
            say_word(rt, w + 1, at(marks, w, 0), order, due)?;
        }
        orders = more;
        dues = later;
    }
    Ok(())
}

// What a night on a trace of n steps with so many stamps answered and left.
fn say_night(
    rt: &impl Print,
    r: Result<usize, Refusal>,
    n: usize,
    stamps: usize,
    order: &[u16],
    due: &[u32],
    marks: &[u16],
) -> io::Result<()> {
    match r {
        Err(r) => {
            print!(rt; "{r}")?;
            say_rest_marked(rt, order, due, 0, marks, 0)
        }
        Ok(words) => {
            print!(rt; "{words} words")?;
            say_rest_marked(rt, order, due, stamps, marks, words)?;
            say_words(rt, words, n, order, due, marks)
        }
    }
}

// `night`: places for the order, for the due times and for the marks, number of words, number of steps, the trace, the starts, the stamps.
pub(crate) fn play_words(rt: &impl Print, t: &Table, numbers: &[u32]) -> io::Result<()> {
    let mut steps = [0u16; 600];
    narrow(numbers, 5, &mut steps);
    let words = at_most(numbers, 3, 600);
    let n = at_most(numbers, 4, 600);
    let starts = front(behind(numbers, 5 + n), words);
    let stamps = behind(numbers, 5 + n + words);
    let mut order = [65535u16; 600];
    let mut due = [65535u32; 600];
    let mut marks = [65535u16; 600];
    let order = &mut order[..at_most(numbers, 0, 600)];
    let due = &mut due[..at_most(numbers, 1, 600)];
    let marks = &mut marks[..at_most(numbers, 2, 600)];
    let r = night::replay_words(t, &steps[..n], starts, stamps, order, due, marks);
    say_night(rt, r, n, stamps.len(), order, due, marks)
}
