// When each step responds, at the soonest and at the latest: numbers side by side, by which the search rules steps out.
ghost use Rattle.std.specs.Prelude.{◌≡◌, ◌+◌, ◌*◌, ◌^◌, ◌<◌, length};
ghost use Rattle.verdict.specs.Line.{along};
ghost use Rattle.verdict.specs.Times.{Latest};

use crate::line::Line;
use table::Row;

// A place for each step of the longest trace.
pub(crate) type Numbers = [u32; 512];

// The number of a step that arrives at u, in ticks: the time of its response, and the letter in the low byte.
pub(crate) fn early_number(s: Row, u: u32) -> u32
    requires { (u + s.d) * 256 + s.output < 2 ^ 32 }
    ensures { result ≡ (u + s.d) * 256 + s.output }
{
    (u + u32::from(s.d)) * 256 + u32::from(s.output)
}

// The latest time in 1/256 tick.
fn late_number(s: Row, late: u32) -> u32
    requires { late + s.d * 256 < 2 ^ 32 }
    ensures { result ≡ late + s.d * 256 }
{
    late + u32::from(s.d) * 256
}

// The latest time of each step, by the sums from the first step on.
pub(crate) fn fill(line: Line<'_>, late: &mut Numbers)
    ensures { Latest (along line.entry) late.new (length line.entry.trace.now) }
{
    let mut v: u32 = 0;
    for j in 0..line.len() {
        let s = line.step(j);
        v += words::late_gap(s);
        late[j] = late_number(s, v);
    }
}
