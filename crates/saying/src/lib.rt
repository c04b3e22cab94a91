#![tactic(auto)]
// What the programs read and print: a table file, verdicts. No contract can say what standard input gives and standard output takes:
// that is run, not proved. Every call is safe and ends, and read_full alone is lent what it could change; a place that a list lacks is printed as 0.
ghost use Rattle.std.specs.Prelude.{◌≡◌, ℕ, ◌≤◌, ◌<◌, length, take, IfOk, IfErr, get_or};
ghost use Rattle.std.specs.Io.KnownBytes.{Consumes, IsAtEnd};

use std::io;
use std::io::Read;
use table::{Refusal, Table};
use table_order::OnOrder;
use table_verdict::OnTable;

// Reads until buf is full or the input ends, and returns how many bytes it put at the start of buf: what the input gave, and where buf is not full
// all that it had. A failed read is an error: at the start of buf stands what the input gave before it, and none of that is lost on the way.
pub fn read_full<R: Read>(input: &mut R, buf: &mut [u8]) -> io::Result<usize>
    ensures room { IfOk result (λ n. n ≤ length buf.new) }
    ensures bytes { IfOk result (λ n. Consumes (R.remaining input.old) (R.remaining input.new) (take n buf.new)) }
    ensures end { IfOk result (λ n. n < length buf.new → IsAtEnd (R.remaining input.new)) }
    ensures error { IfErr result (λ _. (n : ℕ) × (n ≤ length buf.new) × Consumes (R.remaining input.old) (R.remaining input.new) (take n buf.new)) }
{
    let mut done = 0;
    // Each read says how far it came, so this is counted by hand.
    while done < buf.len() {
        let n = input.read(&mut buf[done..])?;
        if n == 0 {
            break;
        }
        done += n;
    }
    Ok(done)
}

// The element at i: a transition number, a stamp, a due time; past the last one `none`.
pub fn at<T: Copy>(list: &[T], i: usize, none: T) -> T
    ensures { result ≡ get_or list.now i none }
{
    list.get(i).copied().unwrap_or(none)
}

// The table file on standard input; what is none is said. Later bytes can't change the answer. A read error ends the program.
pub fn read_input(rt: &(impl Input + Print)) -> io::Result<Option<Table>>
    ensures { Unit {0} }
{
    let mut file = [0u8; 8192];
    let n = read_full(&mut rt.reader(), &mut file)?;
    let read = table_file::read_table(&file[..n]);
    if let Err(r) = read.answer {
        println!(rt; "{r}")?;
        return Ok(None);
    }
    Ok(Some(read.table))
}

// Step, transition in each trace, stamp. The second trace differs from the first in its last number only. A step that a list lacks has its line
// too, so here and below the steps are counted and the lists not zipped.
fn split_lines(
    rt: &impl Print,
    j: usize,
    n: usize,
    trace: &[u16],
    stamps: &[u32],
) -> io::Result<()> {
    for s in 0..n {
        let number = usize::from(at(trace, s, 0));
        let other = if s + 1 < n { number } else { j };
        println!(rt; "{} {number} {other} {}", s + 1, at(stamps, s, 0))?;
    }
    Ok(())
}

// Step, transition, late stamp, early stamp: the early word stands right after the late one.
fn turning_lines(rt: &impl Print, m: usize, trace: &[u16], stamps: &[u32]) -> io::Result<()> {
    let early = stamps.get(m..).unwrap_or(&[]);
    for s in 0..m {
        println!(rt;
            "{} {} {} {}",
            s + 1,
            at(trace, s, 0),
            at(stamps, s, 0),
            at(early, s, 0)
        )?;
    }
    Ok(())
}

// The verdict on a table, with the lines of what it shows.
pub fn on_table(
    rt: &impl Print,
    v: Result<OnTable, Refusal>,
    trace: &[u16],
    stamps: &[u32],
) -> io::Result<()>
    ensures { Unit {0} }
{
    match v {
        Err(r) => println!(rt; "{r}"),
        Ok(OnTable::Strict) => println!(rt; "strict"),
        Ok(OnTable::Split(i, j, n)) => {
            println!(rt; "split {i} {j}")?;
            split_lines(rt, j, n, trace, stamps)
        }
        Ok(OnTable::Turning(k, m)) => {
            println!(rt; "turning {k} {m}")?;
            turning_lines(rt, m, trace, stamps)
        }
    }
}

// Step, transition, stamp.
fn overtaken_lines(rt: &impl Print, m: usize, trace: &[u16], stamps: &[u32]) -> io::Result<()> {
    for s in 0..m {
        println!(rt; "{} {} {}", s + 1, at(trace, s, 0), at(stamps, s, 0))?;
    }
    Ok(())
}

// Whether a table keeps request order, with the lines of what is shown.
pub fn on_order(
    rt: &impl Print,
    v: Result<OnOrder, Refusal>,
    trace: &[u16],
    stamps: &[u32],
) -> io::Result<()>
    ensures { Unit {0} }
{
    match v {
        Err(r) => println!(rt; "{r}"),
        Ok(OnOrder::InOrder) => println!(rt; "in order"),
        Ok(OnOrder::Overtaken(k, m)) => {
            println!(rt; "overtaken {k} {m}")?;
            overtaken_lines(rt, m, trace, stamps)
        }
    }
}
