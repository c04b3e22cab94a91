#![tactic(auto)]
// Replay of a timed word on a trace.
ghost use Rattle.std.specs.Prelude.{◌≡◌, ◌+◌, ◌*◌, ◌%◌, ◌^◌};
ghost use Rattle.model.specs.Stamps.{gap_of};
ghost use Rattle.table.specs.Refusal.{checked_fields};
ghost use Rattle.table.specs.Rows.{row_of, machine_of};
ghost use Rattle.replay.specs.Laid.{WordRun, ListsRun};
ghost use Rattle.replay.specs.OnPlaces.{OnPlaces};
ghost use Rattle.replay.specs.Play.{ReplayOutcome};

pub use crate::gaps::judge_word;
use layout::{Fours, Layout, Plain, Twos};
use table::{Refusal, Row, Table};

pub mod gaps;
mod responses;

// Where a gap stands to the guard of its step.
#[derive(Clone, Copy, PartialEq, Eq)]
pub enum Guard {
    Inside,
    Early,
    Late,
}

// When a step arrives and when it is due, in 1/256 tick since the start.
#[derive(Clone, Copy)]
pub struct Moment {
    pub arrival: u32,
    pub due: u32,
}

// When a step of that transition arrives and when it is due, by the arrival and the stamp before it, on a counter that wraps.
pub fn timed(rows: &[Row], step: u16, arrival: u32, before: u32, stamp: u32) -> Moment
    ensures { (result.arrival ≡ (arrival + gap_of before stamp) % 2 ^ 32)
        × (result.due ≡ (result.arrival + (row_of rows.now step).d * 256) % 2 ^ 32) }
{
    let row = table::row_of(rows, usize::from(step));
    let arrives = arrival.wrapping_add(gaps::gap(before, stamp));
    Moment {
        arrival: arrives,
        due: arrives.wrapping_add(gaps::parts(row.d)),
    }
}

// One word on transitions that nobody tested, however its lists stand in memory: its steps laid out, or refused and nothing written.
pub fn play_word<T: Layout<u16>, S: Layout<u32>, O: Layout<u16>, D: Layout<u32>>(
    rows: &[Row],
    trace: &[T::Cell],
    start: u32,
    stamps: &[S::Cell],
    order: &mut [O::Cell],
    due: &mut [D::Cell],
) -> Result<(), Refusal>
    ensures run { WordRun rows.now (T.list trace.now) start (S.list stamps.now) (O.list order.old) (D.list due.old)
        (checked_fields result) (O.list order.new) (D.list due.new) }
    ensures order_rest { O.beside order.new ≡ O.beside order.old }
    ensures due_rest { D.beside due.new ≡ D.beside due.old }
{
    judge_word::<T, S>(rows, trace, start, stamps, O::len(order), D::len(due))?;
    responses::play::<T, S, O, D>(rows, trace, start, stamps, order, due);
    Ok(())
}

// The same within two byte buffers, of lists as the machine has them: a step number in two bytes, a due time in four.
pub fn play_word_bytes(
    rows: &[Row],
    trace: &[u16],
    start: u32,
    stamps: &[u32],
    order: &mut [u8],
    due: &mut [u8],
) -> Result<(), Refusal>
    ensures { OnPlaces
        (λ o₀ d₀ o d. WordRun rows.now trace.now start stamps.now o₀ d₀ (checked_fields result) o d)
        order.old due.old order.new due.new }
{
    play_word::<Plain, Plain, Twos, Fours>(rows, trace, start, stamps, order, due)
}

// The mark of a word: the step that its refusal names, or 0. As 16 bits show it: no word has more than 512 steps.
pub fn mark(r: Result<(), Refusal>) -> u16
    ensures { result ≡ (checked_fields r).first % 2 ^ 16 }
{
    match r {
        Ok(()) => 0,
        Err(x) => (x.place() % 65536) as u16,
    }
}

// After the tests of the table: the list a trace, the lengths, then the word, however the lists stand in memory.
pub fn replay_on<T: Layout<u16>, S: Layout<u32>, O: Layout<u16>, D: Layout<u32>>(
    rows: &[Row],
    trace: &[T::Cell],
    start: u32,
    stamps: &[S::Cell],
    order: &mut [O::Cell],
    due: &mut [D::Cell],
) -> Result<(), Refusal>
    ensures run { ListsRun rows.now (T.whole trace.now) (S.whole stamps.now)
        (T.list trace.now) start (S.list stamps.now) (O.list order.old) (D.list due.old)
        (checked_fields result) (O.list order.new) (D.list due.new) }
    ensures order_rest { O.beside order.new ≡ O.beside order.old }
    ensures due_rest { D.beside due.new ≡ D.beside due.old }
{
    if !T::is_whole(trace) || !trace::is_trace_on::<T>(rows, trace) {
        return Err(Refusal::NoTrace);
    }
    let n = T::len(trace);
    if !S::is_whole(stamps) || S::len(stamps) != n {
        return Err(Refusal::Uneven);
    }
    if O::len(order) < n || D::len(due) < n {
        return Err(Refusal::NoRoom);
    }
    play_word::<T, S, O, D>(rows, trace, start, stamps, order, due)
}

// Steps in response order, counted from 1, and beside each its due time in 1/256 tick since the start.
pub fn replay(
    t: &Table,
    trace: &[u16],
    start: u32,
    stamps: &[u32],
    order: &mut [u16],
    due: &mut [u32],
) -> Result<(), Refusal>
    ensures { ReplayOutcome
        (machine_of t.now) trace.now start stamps.now order.old due.old
        (checked_fields result) order.new due.new }
{
    table::check(t)?;
    replay_on::<Plain, Plain, Plain, Plain>(t.rows(), trace, start, stamps, order, due)
}
