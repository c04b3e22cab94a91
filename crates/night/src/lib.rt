#![tactic(auto)]
// A night of words for one trace in one call.
ghost use Rattle.std.specs.Prelude.{◌≡◌, ◌*◌, length};
ghost use Rattle.table.specs.Rows.{machine_of};
ghost use Rattle.night.specs.Night.{words_fields, Room, WordsRun, ListsWords, WordsOutcome};

use layout::{Layout, Plain};
use table::{Refusal, Row, Table};

// Every word in turn on its own places, its mark beside it.
fn play_all<T: Layout<u16>, S: Layout<u32>, O: Layout<u16>, D: Layout<u32>>(
    rows: &[Row],
    trace: &[T::Cell],
    starts: &[S::Cell],
    stamps: &[S::Cell],
    order: &mut [O::Cell],
    due: &mut [D::Cell],
    marks: &mut [O::Cell],
)
    requires { (length (S.list stamps.now) ≡ length (S.list starts.now) * length (T.list trace.now))
        × Room (length (S.list starts.now)) (length (T.list trace.now)) (O.list order.old) (D.list due.old) (O.list marks.old) }
    ensures run { WordsRun
        rows.now (T.list trace.now) (S.list starts.now) (S.list stamps.now) (length (S.list starts.now))
        (O.list order.old) (D.list due.old) (O.list marks.old) (O.list order.new) (D.list due.new) (O.list marks.new) }
    ensures order_rest { O.beside order.new ≡ O.beside order.old }
    ensures due_rest { D.beside due.new ≡ D.beside due.old }
    ensures marks_rest { O.beside marks.new ≡ O.beside marks.old }
{
    let n = T::len(trace);
    let words = S::len(starts);
    let mut at: usize = 0;
    for w in 0..words {
        let end = at + n;
        let start = S::at(starts, w);
        let played = replay::play_word::<T, S, O, D>(
            rows,
            trace,
            start,
            &stamps[at * S::SIZE..end * S::SIZE],
            &mut order[at * O::SIZE..end * O::SIZE],
            &mut due[at * D::SIZE..end * D::SIZE],
        );
        O::put(marks, w, replay::mark(played));
        at = end;
    }
}

// After the tests of the table: the list a trace, the lengths, then the words, however the lists stand in memory.
pub fn words_on<T: Layout<u16>, S: Layout<u32>, O: Layout<u16>, D: Layout<u32>>(
    rows: &[Row],
    trace: &[T::Cell],
    starts: &[S::Cell],
    stamps: &[S::Cell],
    order: &mut [O::Cell],
    due: &mut [D::Cell],
    marks: &mut [O::Cell],
) -> Result<usize, Refusal>
    ensures run { ListsWords rows.now (T.whole trace.now) (S.whole starts.now) (S.whole stamps.now)
        (T.list trace.now) (S.list starts.now) (S.list stamps.now) (O.list order.old) (D.list due.old) (O.list marks.old)
        (words_fields result) (O.list order.new) (D.list due.new) (O.list marks.new) }
    ensures order_rest { O.beside order.new ≡ O.beside order.old }
    ensures due_rest { D.beside due.new ≡ D.beside due.old }
    ensures marks_rest { O.beside marks.new ≡ O.beside marks.old }
{
    if !T::is_whole(trace) || !trace::is_trace_on::<T>(rows, trace) {
        return Err(Refusal::NoTrace);
    }
    let words = S::len(starts);
    if !S::is_whole(starts) || !S::is_whole(stamps) || 256 < words {
        return Err(Refusal::Uneven);
    }
    let all = words * T::len(trace);
    if S::len(stamps) != all {
        return Err(Refusal::Uneven);
    }
    if O::len(order) < all || D::len(due) < all || O::len(marks) < words {
        return Err(Refusal::NoRoom);
    }
    play_all::<T, S, O, D>(rows, trace, starts, stamps, order, due, marks);
    Ok(words)
}

// Up to 256 words, each played as by itself: a refused word keeps its own places, its mark names the step, and the rest is played.
pub fn replay_words(
    t: &Table,
    trace: &[u16],
    starts: &[u32],
    stamps: &[u32],
    order: &mut [u16],
    due: &mut [u32],
    marks: &mut [u16],
) -> Result<usize, Refusal>
    ensures { WordsOutcome
        (machine_of t.now) trace.now starts.now stamps.now
        order.old due.old marks.old
        (words_fields result) order.new due.new marks.new }
{
    table::check(t)?;
    words_on::<Plain, Plain, Plain, Plain>(t.rows(), trace, starts, stamps, order, due, marks)
}
