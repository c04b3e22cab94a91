#![tactic(auto)]
// Plays moves on a table file. Standard input has the length of the file in two bytes, the file, and the moves, five bytes each: 0 time, 1 input,
// 2 output, and a number in four bytes, all little-endian. Each is answered by a line at once, the start by the first.
use player::{Answer, Move, Moved};
use records::Pending;
use std::io;
use std::io::Read;
use table::Table;

// `done` with an input's transition, or with an output's step and letter; or `refused N`.
fn say_answer(rt: &impl Print, a: Answer) -> io::Result<()> {
    match a {
        Ok(done) => print!(rt; "done {} {}", done.first, done.second),
        Err(denial) => print!(rt; "refused {}", u16::from(denial)),
    }
}

// A line: the answer, the state, the time since the last input, the inputs so far, and what waits.
fn say_line(rt: &impl Print, m: Moved, list: &[Pending]) -> io::Result<()> {
    let c = m.config;
    say_answer(rt, m.answer)?;
    print!(rt; " state {} {} {}", c.state, c.timer, c.inputs)?;
    for p in list.iter().take(usize::from(c.waiting)) {
        print!(rt; " waits {} {} {}", p.step, p.letter, p.left)?;
    }
    println!(rt)
}

// The next move; what is cut off or of no kind ends the play, as the end of input does.
fn next(input: &mut impl Read) -> io::Result<Option<Move>> {
    let mut bytes = [0u8; 5];
    if saying::read_full(input, &mut bytes)? < 5 {
        return Ok(None);
    }
    let number = wire::four(&bytes, 1);
    Ok(match bytes[0] {
        0 => Some(Move::Time(number)),
        1 => Some(Move::Input((number % 65536) as u16)),
        2 => Some(Move::Output),
        _ => None,
    })
}

// The start, and the moves, at most a million.
fn play(rt: &impl Print, input: &mut impl Read, t: &Table) -> io::Result<()> {
    let mut list = [Pending::default(); 240];
    let mut moved = player::start(t, 240);
    say_line(rt, moved, &list)?;
    if moved.answer.is_err() {
        return Ok(());
    }
    for _ in 0..1000000 {
        let Some(m) = next(input)? else {
            return Ok(());
        };
        moved = player::play(moved.config, t, &mut list, m);
        say_line(rt, moved, &list)?;
    }
    Ok(())
}

fn main(rt: HostRuntime) -> io::Result<()> {
    let mut input = rt.reader();
    let mut head = [0u8; 2];
    saying::read_full(&mut input, &mut head)?;
    let mut file = [0u8; 65536];
    let size = usize::from(wire::two(&head, 0));
    let n = saying::read_full(&mut input, &mut file[..size])?;
    let read = table_file::read_table(&file[..n]);
    match read.answer {
        Err(r) => println!(rt; "{r}"),
        Ok(()) => play(&rt, &mut input, &read.table),
    }
}
