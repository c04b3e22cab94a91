// A call on bytes that answers for a whole table and may show a trace: the table as a file, transition numbers of two bytes, stamps of four.
ghost use Rattle.std.specs.Prelude.{◌≡◌, Result, Ok, Err, List, ℕ, IfSome, length};
ghost use Rattle.model.specs.Answers.{Fields, fields};
ghost use Rattle.model.specs.Table.{Machine, Valid};
ghost use Rattle.table.specs.declared.Refusal.{Refusal};
ghost use Rattle.table.specs.Refusal.{refused_fields};
ghost use Rattle.table.specs.Rows.{machine_of};
ghost use Rattle.table.specs.Tests.{Passes};
ghost use Rattle.places.specs.ShownBytes.{room_tests, made_for, Uses, ShownBytes, ShownOnFile};

use crate::put_back;
use table::{BLANK, Refusal, Table};

// What a search answered, and how many trace places and stamp places the answer uses.
#[derive(Clone, Copy)]
pub struct Searched<A> {
    pub answer: Result<A, Refusal>,
    pub steps: usize,
    pub stamps: usize,
}

// What is asked of a valid table, with 270 trace places and `STAMPS` stamp places to show a trace in.
pub trait Asked<const STAMPS: usize> {
    type Answer: Copy;

    ghost quiet: { Machine → Type 0 };

    ghost shows: { Machine → Fields → List ℕ → List ℕ → Type 0 };

    ghost said: { Result Self.Answer Refusal → Fields };

    // The answer that shows nothing, where one look at each transition tells it.
    fn at_sight(t: &Table) -> Option<Self::Answer>
        requires { Valid (machine_of t.now) }
        ensures { IfSome result (λ a. (said (Ok a) ≡ fields 0 0 0 0) × quiet (machine_of t.now)) };

    // The answer by the search.
    fn search(t: &Table, trace: &mut [u16], stamps: &mut [u32]) -> Searched<Self::Answer>
        requires valid { Valid (machine_of t.now) }
        requires places { (length trace.old ≡ 270) × (length stamps.old ≡ STAMPS) }
        ensures made { made_for (machine_of t.now) 270 STAMPS (quiet (machine_of t.now)) (shows (machine_of t.now))
            trace.old stamps.old (said result.answer) trace.new stamps.new }
        ensures uses { Uses (shows (machine_of t.now)) 270 STAMPS
            (said result.answer) result.steps result.stamps };

    ghost refused: { (r : Refusal) → said (Err r) ≡ refused_fields r };
}

// The places are cleared here: a table that is answered at sight doesn't pay for them.
fn search_on<const STAMPS: usize, Q: Asked<STAMPS>>(
    t: &Table,
    trace: &mut [u8],
    stamps: &mut [u8],
) -> Result<Q::Answer, Refusal>
    requires valid { Valid (machine_of t.now) }
    requires passes { Passes (room_tests 270 STAMPS trace.old stamps.old) }
    ensures { ShownBytes (room_tests 270 STAMPS trace.old stamps.old) (Q.quiet (machine_of t.now)) (Q.shows (machine_of t.now))
        trace.old stamps.old (Q.said result) trace.new stamps.new }
{
    let mut steps = [0u16; 270];
    let mut marks = [0u32; STAMPS];
    let found = Q::search(t, &mut steps, &mut marks);
    put_back(trace, &steps, found.steps);
    put_back(stamps, &marks, found.stamps);
    found.answer
}

// Tests the room; then one look at each transition mostly tells the answer, and else the search does.
fn show_on<const STAMPS: usize, Q: Asked<STAMPS>>(
    t: &Table,
    trace: &mut [u8],
    stamps: &mut [u8],
) -> Result<Q::Answer, Refusal>
    requires { Valid (machine_of t.now) }
    ensures { ShownBytes (room_tests 270 STAMPS trace.old stamps.old) (Q.quiet (machine_of t.now)) (Q.shows (machine_of t.now))
        trace.old stamps.old (Q.said result) trace.new stamps.new }
{
    if trace.len() / 2 < 270 || stamps.len() / 4 < STAMPS {
        return Err(Refusal::NoRoom);
    }
    if let Some(quiet) = Q::at_sight(t) {
        return Ok(quiet);
    }
    search_on::<STAMPS, Q>(t, trace, stamps)
}

// The answer on a table file.
pub fn show_file<const STAMPS: usize, Q: Asked<STAMPS>>(
    file: &[u8],
    trace: &mut [u8],
    stamps: &mut [u8],
) -> Result<Q::Answer, Refusal>
    ensures { ShownOnFile 270 STAMPS Q.quiet Q.shows file.now
        trace.old stamps.old (Q.said result) trace.new stamps.new }
{
    let mut t = Table {
        states: 1,
        initial: 0,
        count: 0,
        cells: [BLANK; 256],
    };
    table_file::read_into(file, &mut t)?;
    show_on::<STAMPS, Q>(&t, trace, stamps)
}
