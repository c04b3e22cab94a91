#![tactic(auto)]
// Cases, run: what the calls answer to the cases on standard input, printed. A case is a word whose first letter says the call, a space, a
// name, a colon and numbers, up to the next word. What is printed is compared with a stored output, not proved.
mod files;
mod nights;
mod plays;
mod rest;
mod text;
mod verdicts;

use std::io;
use table::{BLANK, Row, Table};
use text::{short_at, word_at};

// `table`: states, initial state, number of transitions, then the transitions' numbers, seven each, over the first ones of the table before. Where
// they end within a transition its other numbers stay.
fn change(t: &mut Table, numbers: &[u32]) {
    t.states = short_at(numbers, 0, 0);
    t.initial = short_at(numbers, 1, 0);
    // There is no From of u32 for usize.
    t.count = word_at(numbers, 2) as usize;
    for (i, r) in t.cells.iter_mut().enumerate() {
        let k = 3 + i * 7;
        *r = Row {
            from: short_at(numbers, k, r.from),
            input: short_at(numbers, k + 1, r.input),
            output: short_at(numbers, k + 2, r.output),
            to: short_at(numbers, k + 3, r.to),
            u: short_at(numbers, k + 4, r.u),
            v: short_at(numbers, k + 5, r.v),
            d: short_at(numbers, k + 6, r.d),
        };
    }
}

// A case, and the table for what follows: of any but `table` the name is printed, then what the call answers that its letter stands for.
fn answer(
    rt: &impl Print,
    name: &[u8],
    letter: u8,
    t: &mut Table,
    numbers: &[u32],
    file: &mut [u8],
) -> io::Result<()> {
    if letter == b't' {
        change(t, numbers);
        return Ok(());
    }
    rt.write_all(name)?;
    print!(rt; " ")?;
    match letter {
        b'f' => files::read_file(rt, numbers, file),
        b'c' => files::check_value(rt, t),
        b'p' => plays::play(rt, t, numbers),
        b'n' => nights::play_words(rt, t, numbers),
        b'j' => verdicts::judge_steps(rt, t, numbers),
        b's' => verdicts::judge_short(rt, t, numbers),
        b'w' => verdicts::judge_whole(rt, t, numbers),
        b'o' => verdicts::judge_order(rt, t, numbers),
        b'l' => verdicts::least_unsteady(rt, t),
        _ => println!(rt; "UNKNOWN"),
    }
}

fn cases(rt: &impl Print, all: &[u8], file: &mut [u8], list: &mut [u32]) -> io::Result<()> {
    let mut t = Table {
        states: 1,
        initial: 0,
        count: 0,
        cells: [BLANK; 256],
    };
    let mut at: usize = 0;
    // Each case says where the next begins.
    while at < all.len() {
        let name = text::past(all, at, b' ');
        let colon = text::past(all, name, b':');
        let read = text::numbers(all, colon, list);
        if list.len() < read.count || read.end <= at {
            return Ok(());
        }
        answer(
            rt,
            text::part(all, name, colon),
            all[at],
            &mut t,
            &list[..read.count],
            file,
        )?;
        at = read.end;
    }
    Ok(())
}

// Runs the cases on standard input.
pub fn run(rt: &(impl Input + Print)) -> io::Result<()>
    ensures { Unit {0} }
{
    let mut all = [0u8; 40960];
    let n = saying::read_full(&mut rt.reader(), &mut all)?;
    cases(rt, &all[..n], &mut [0u8; 4700], &mut [0u32; 4096])
}
