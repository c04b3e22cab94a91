// The gaps of a word against the guards of a trace. Nothing here stores.
ghost use Rattle.std.specs.Prelude.{◌≡◌, ◌*◌, ◌<◌, length, get_or};
ghost use Rattle.model.specs.Stamps.{gap_of, gaps_from};
ghost use Rattle.table.specs.Refusal.{checked_fields};
ghost use Rattle.table.specs.Rows.{row_of, said, named};
ghost use Rattle.table.specs.Tests.{Tested};
ghost use Rattle.replay.specs.Guards.{Meets, guard_fields};
ghost use Rattle.replay.specs.Laid.{word_tests};
ghost use Rattle.replay.specs.Play.{gap_tests};

use crate::Guard;
use layout::Layout;
use table::{Refusal, Row};

// Ticks in 1/256 tick.
pub(crate) fn parts(ticks: u16) -> u32
    ensures { result ≡ ticks * 256 }
{
    u32::from(ticks) * 256
}

// From one stamp to the next, on a counter that wraps.
pub(crate) fn gap(before: u32, stamp: u32) -> u32
    ensures { result ≡ gap_of before stamp }
{
    stamp.wrapping_sub(before)
}

// Where a gap stands to a guard, early at most u, late more than v: no other place compares a gap with a guard.
pub fn test_guard(r: Row, gap: u32) -> Guard
    ensures { Meets result 256 (said r) gap }
{
    if gap <= parts(r.u) {
        return Guard::Early;
    }
    if parts(r.v) < gap {
        return Guard::Late;
    }
    Guard::Inside
}

// What a step's guard tells a call: nothing, or the refusal that names the step.
fn passed_on(g: Guard, step: usize) -> Result<(), Refusal>
    ensures { checked_fields result ≡ guard_fields g step }
{
    match g {
        Guard::Inside => Ok(()),
        Guard::Early => Err(Refusal::Early(step)),
        Guard::Late => Err(Refusal::Late(step)),
    }
}

// The transition of the step at i.
// Over any layout; `words::step` is total, on a slice.
fn step_row<T: Layout<u16>>(rows: &[Row], trace: &[T::Cell], i: usize) -> Row
    requires { i < length (T.list trace.now) }
    ensures { result ≡ row_of rows.now (get_or (T.list trace.now) i 0) }
{
    table::row_of(rows, usize::from(T::at(trace, i)))
}

// The refusal of the first step whose gap is outside its guard, if there is one.
fn first_outside<T: Layout<u16>, S: Layout<u32>>(
    rows: &[Row],
    trace: &[T::Cell],
    start: u32,
    stamps: &[S::Cell],
) -> Result<(), Refusal>
    requires { length (S.list stamps.now) ≡ length (T.list trace.now) }
    ensures { Tested (gap_tests 0 (named rows.now (T.list trace.now)) (gaps_from start (S.list stamps.now))) (checked_fields result) }
{
    let mut before = start;
    for i in 0..T::len(trace) {
        let stamp = S::at(stamps, i);
        let met = test_guard(step_row::<T>(rows, trace, i), gap(before, stamp));
        let Guard::Inside = met else {
            return passed_on(met, i + 1);
        };
        before = stamp;
    }
    Ok(())
}

// The lengths and the gaps of a word on transitions that nobody tested, with so many places for its order and its due times.
pub fn judge_word<T: Layout<u16>, S: Layout<u32>>(
    rows: &[Row],
    trace: &[T::Cell],
    start: u32,
    stamps: &[S::Cell],
    orders: usize,
    dues: usize,
) -> Result<(), Refusal>
    ensures { Tested
        (word_tests rows.now (T.list trace.now) start (S.list stamps.now) orders dues)
        (checked_fields result) }
{
    let n = T::len(trace);
    if 512 < n {
        return Err(Refusal::NoTrace);
    }
    if S::len(stamps) != n {
        return Err(Refusal::Uneven);
    }
    if orders < n || dues < n {
        return Err(Refusal::NoRoom);
    }
    first_outside::<T, S>(rows, trace, start, stamps)
}
