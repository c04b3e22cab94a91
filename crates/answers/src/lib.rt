#![tactic(auto)]
// An answer as one number.
ghost use Rattle.std.specs.Prelude.{◌≡◌, Result, Ok, Err, refl};
ghost use Rattle.model.specs.Answers.{Fields, fields};
ghost use Rattle.table.specs.declared.Refusal.{Refusal};
ghost use Rattle.table.specs.Refusal.{refused_fields, checked_fields};
ghost use Rattle.table_file.specs.Write.{written_fields};
ghost use Rattle.verdict.specs.OnTrace.{trace_fields};
ghost use Rattle.table_verdict.specs.OnTable.{table_fields};
ghost use Rattle.table_order.specs.OnOrder.{order_fields};
ghost use Rattle.player.specs.Answer.{answer_fields};
ghost use Rattle.answers.specs.Packed.{packed};

use player::{Denial, Done};
use table::Refusal;
use table_order::OnOrder;
use table_verdict::OnTable;
use verdict::OnTrace;

// Four fields of 16 bits, the lowest first.
fn four(status: u16, first: usize, second: usize, steps: usize) -> u64
    ensures { result ≡ packed (fields status first second steps) }
{
    // A field has 16 bits, and there is no From of usize for u64.
    let a = (first % 65536) as u64;
    let b = (second % 65536) as u64;
    let c = (steps % 65536) as u64;
    u64::from(status) + (a + (b + c * 65536) * 65536) * 65536
}

fn refused(r: Refusal) -> u64
    ensures { result ≡ packed (refused_fields r) }
{
    four(u16::from(r), r.place(), 0, 0)
}

// What a call answers where it doesn't refuse.
pub trait Answer {
    ghost said: { Result Self Refusal → Fields };

    fn packed(self) -> u64
        ensures { result ≡ packed (said (Ok self)) };

    ghost refused: { (r : Refusal) → said (Err r) ≡ refused_fields r };
}

// The answer, or the refusal.
pub fn pack<A: Answer>(a: Result<A, Refusal>) -> u64
    ensures { result ≡ packed (A.said a) }
{
    match a {
        Ok(done) => done.packed(),
        Err(r) => refused(r),
    }
}

impl Answer for OnTable {
    ghost said = { table_fields };

    ghost refused = { λ r. refl };

    fn packed(self) -> u64 {
        match self {
            OnTable::Strict => four(0, 0, 0, 0),
            OnTable::Split(i, j, n) => four(256, i, j, n),
            OnTable::Turning(k, m) => four(257, k, m, m),
        }
    }
}

impl Answer for OnOrder {
    ghost said = { order_fields };

    ghost refused = { λ r. refl };

    fn packed(self) -> u64 {
        match self {
            OnOrder::InOrder => four(0, 0, 0, 0),
            OnOrder::Overtaken(k, m) => four(258, k, m, m),
        }
    }
}

// Nothing but that it was done: of a replay.
impl Answer for () {
    ghost said = { checked_fields };

    ghost refused = { λ r. refl };

    fn packed(self) -> u64 {
        four(0, 0, 0, 0)
    }
}

// How many: of words that were played, of bytes that were written.
impl Answer for usize {
    ghost said = { written_fields };

    ghost refused = { λ r. refl };

    fn packed(self) -> u64 {
        four(0, self, 0, 0)
    }
}

// n: the steps of the trace that was handed in.
pub fn on_trace(a: Result<OnTrace, Refusal>, n: usize) -> u64
    ensures { result ≡ packed (trace_fields n a) }
{
    match a {
        Ok(OnTrace::Steady) => four(0, 0, 0, 0),
        Ok(OnTrace::Turning(k, m)) => four(257, k, m, n),
        Err(r) => refused(r),
    }
}

// A player's answer; its own denials name no place.
pub fn played(a: player::Answer) -> u64
    ensures { result ≡ packed (answer_fields a) }
{
    match a {
        Ok(Done { first, second }) => four(0, usize::from(first), usize::from(second), 0),
        Err(Denial::Refused(r)) => refused(r),
        Err(denial) => four(u16::from(denial), 0, 0, 0),
    }
}
