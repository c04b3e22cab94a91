// Verdicts on traces and on tables, and whether a table keeps request order.
ghost use Rattle.std.specs.Prelude.{◌<◌};

use crate::rest::say_rest;
use crate::text::{at_most, behind, narrow};
use saying::at;
use std::io;
use table::{Refusal, Table};
use table_order::OnOrder;
use table_verdict::OnTable;
use verdict::OnTrace;

fn say_on_trace(rt: &impl Print, v: Result<OnTrace, Refusal>) -> io::Result<()> {
    match v {
        Err(r) => print!(rt; "{r}"),
        Ok(OnTrace::Steady) => print!(rt; "steady"),
        Ok(OnTrace::Turning(k, m)) => print!(rt; "turning {k} {m}"),
    }
}

// The words that are shown.
fn say_stamps(rt: &impl Print, stamps: &[u32], n: usize) -> io::Result<()> {
    print!(rt; ",")?;
    for i in 0..n {
        print!(rt; " {}", at(stamps, i, 0))?;
    }
    Ok(())
}

// Two stamps a step; no case has more steps.
fn twice(n: usize) -> usize {
    if 600 < n { n } else { n * 2 }
}

// What a verdict on a trace of n steps answered and left.
fn say_judged(
    rt: &impl Print,
    v: Result<OnTrace, Refusal>,
    n: usize,
    stamps: &[u32],
) -> io::Result<()> {
    say_on_trace(rt, v)?;
    // A case is asked for, not its numbers.
    if let Ok(OnTrace::Turning(_, _)) = v {
        say_stamps(rt, stamps, twice(n))?;
        say_rest(rt, &[], 0, stamps, twice(n))
    } else {
        say_rest(rt, &[], 0, stamps, 0)
    }
}

// `judge`: places for stamps, number of steps, the trace.
pub(crate) fn judge_steps(rt: &impl Print, t: &Table, numbers: &[u32]) -> io::Result<()> {
    let mut steps = [0u16; 600];
    narrow(numbers, 2, &mut steps);
    let n = at_most(numbers, 1, 600);
    let mut stamps = [65535u32; 1100];
    let stamps = &mut stamps[..at_most(numbers, 0, 1100)];
    let v = verdict::judge_trace(t, &steps[..n], stamps);
    say_judged(rt, v, n, stamps)
}

// `steps`: number of steps, the trace; the verdict alone is shown.
pub(crate) fn judge_short(rt: &impl Print, t: &Table, numbers: &[u32]) -> io::Result<()> {
    let mut steps = [0u16; 600];
    narrow(numbers, 1, &mut steps);
    let n = at_most(numbers, 0, 600);
    say_on_trace(rt, verdict::judge_trace(t, &steps[..n], &mut [0u32; 1200]))?;
    println!(rt)
}

// The verdict on the trace of n steps 0, 1 again and again, 2.
fn judge_ended(t: &Table, n: usize) -> Result<OnTrace, Refusal>
    requires { (0 < n) × (n < 200) }
{
    let mut trace = [1u16; 200];
    trace[0] = 0;
    trace[n - 1] = 2;
    verdict::judge_trace(t, &trace[..n], &mut [0u32; 400])
}

// `least`: of these traces the least that is not steady; a trace without 2 has like delays throughout.
pub(crate) fn least_unsteady(rt: &impl Print, t: &Table) -> io::Result<()> {
    for n in 2..200 {
        let v = judge_ended(t, n);
        let Ok(OnTrace::Steady) = v else {
            print!(rt; "{n} steps, ")?;
            say_on_trace(rt, v)?;
            return println!(rt);
        };
    }
    Ok(())
}

// A step of m, counted from 1: its transition and its stamps in the late and in the early word.
fn say_turned(
    rt: &impl Print,
    step: usize,
    m: usize,
    trace: &[u16],
    stamps: &[u32],
) -> io::Result<()> {
    if step == 0 {
        return Ok(());
    }
    let i = step - 1;
    let early = at(behind(stamps, m), i, 0);
    print!(rt; ", {} at {} or {early}", at(trace, i, 0), at(stamps, i, 0))
}

// The steps of a split and its last stamp.
fn say_split(rt: &impl Print, n: usize, trace: &[u16], stamps: &[u32]) -> io::Result<()> {
    if n == 0 {
        return Ok(());
    }
    let i = n - 1;
    print!(rt;
        ", {n} steps, last {} at {}",
        at(trace, i, 0),
        at(stamps, i, 0)
    )
}

// What a verdict on a table answered and left.
fn say_whole(
    rt: &impl Print,
    v: Result<OnTable, Refusal>,
    trace: &[u16],
    stamps: &[u32],
) -> io::Result<()> {
    match v {
        Err(r) => {
            print!(rt; "{r}")?;
            say_rest(rt, trace, 0, stamps, 0)
        }
        Ok(OnTable::Strict) => {
            print!(rt; "strict")?;
            say_rest(rt, trace, 0, stamps, 0)
        }
        Ok(OnTable::Split(i, j, n)) => {
            print!(rt; "split {i} {j}")?;
            say_split(rt, n, trace, stamps)?;
            say_rest(rt, trace, n, stamps, n)
        }
        Ok(OnTable::Turning(k, m)) => {
            print!(rt; "turning {k} {m}")?;
            say_turned(rt, k, m, trace, stamps)?;
            say_turned(rt, m, m, trace, stamps)?;
            say_rest(rt, trace, m, stamps, twice(m))
        }
    }
}

// The transition at a step counted from 1.
fn at_step(trace: &[u16], step: usize) -> u16 {
    if step == 0 { 0 } else { at(trace, step - 1, 0) }
}

// What was answered about the order and left: transitions at K and M, the early word.
fn say_order(
    rt: &impl Print,
    v: Result<OnOrder, Refusal>,
    trace: &[u16],
    stamps: &[u32],
) -> io::Result<()> {
    match v {
        Err(r) => {
            print!(rt; "{r}")?;
            say_rest(rt, trace, 0, stamps, 0)
        }
        Ok(OnOrder::InOrder) => {
            print!(rt; "in order")?;
            say_rest(rt, trace, 0, stamps, 0)
        }
        Ok(OnOrder::Overtaken(k, m)) => {
            print!(rt;
                "overtaken {k} {m}, transitions {} {}",
                at_step(trace, k),
                at_step(trace, m)
            )?;
            say_stamps(rt, stamps, m)?;
            say_rest(rt, trace, m, stamps, m)
        }
    }
}

// `whole`: places for the trace, places for stamps.
pub(crate) fn judge_whole(rt: &impl Print, t: &Table, numbers: &[u32]) -> io::Result<()> {
    let mut trace = [65535u16; 300];
    let mut stamps = [65535u32; 600];
    let trace = &mut trace[..at_most(numbers, 0, 300)];
    let stamps = &mut stamps[..at_most(numbers, 1, 600)];
    let v = table_verdict::judge_table(t, trace, stamps);
    say_whole(rt, v, trace, stamps)
}

// `order`: the same. One function for both would take the call and its words as two more parameters, and be no plainer.
pub(crate) fn judge_order(rt: &impl Print, t: &Table, numbers: &[u32]) -> io::Result<()> {
    let mut trace = [65535u16; 300];
    let mut stamps = [65535u32; 600];
    let trace = &mut trace[..at_most(numbers, 0, 300)];
    let stamps = &mut stamps[..at_most(numbers, 1, 600)];
    let v = table_order::order_table(t, trace, stamps);
    say_order(rt, v, trace, stamps)
}
