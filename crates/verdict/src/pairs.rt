// The least pair of steps that turns.
ghost use Rattle.std.specs.Prelude.{◌≤◌, ◌<◌, length};
ghost use Rattle.verdict.specs.Line.{along};
ghost use Rattle.verdict.specs.Pairs.{PartnerOf, PairOf, Passed};

use crate::line::Line;
use crate::sight::{Outlook, Sight};
use crate::{calm, quiet, times};

// The least step that turns with k; the sums over the steps after k are carried along.
fn partner_of(line: Line<'_>, k: usize) -> Option<usize>
    requires { k < length line.trace.now }
    ensures { PartnerOf (along line.entry) k result }
{
    let first = line.step(k);
    let mut u: u32 = 0;
    let mut late: u32 = 0;
    for m in k + 1..line.len() {
        let s = line.step(m);
        u += u32::from(s.u);
        late += words::late_gap(s);
        // The sum of u grows, so no later step turns either.
        if criterion::spent(first, u) {
            return None;
        }
        if criterion::crosses(first, s, u, late) {
            return Some(m);
        }
    }
    None
}

// The least k from `from` on that turns with a later step, and the least such step. Steps that the numbers rule out are not looked at.
fn pair_from(seen: Outlook<'_>, from: usize) -> Option<(usize, usize)>
    requires { (from ≤ length seen.line.trace.now) × Passed (along seen.line) from }
    ensures { PairOf (along seen.entry.line) result }
{
    // No block was looked at yet.
    let mut sight = Sight {
        block: 64,
        far: 512,
    };
    for k in from..seen.line.len() {
        sight = seen.sight_at(k, sight);
        // Two tests: of a `None` behind `&&` a proof is told nothing.
        if seen.may_turn(k, sight.far) {
            if let Some(m) = partner_of(seen.line, k) {
                return Some((k, m));
            }
        }
    }
    None
}

// The least pair of a trace. The first step that is not calm is looked at by itself: most traces that are not quiet are decided there. The latest times are asked for after it; past the last step stands the greatest number, which no step asks for.
fn pair_looked(line: Line<'_>) -> Option<(usize, usize)>
    ensures { PairOf (along line.entry) result }
{
    let mut early = [u32::MAX; 512];
    let mut lows = [u32::MAX; 64];
    let mut calm = [true; 512];
    let first = calm::look_back(line, &mut early, &mut lows, &mut calm);
    if line.len() <= first {
        return None;
    }
    if let Some(m) = partner_of(line, first) {
        return Some((first, m));
    }
    let mut late = [0; 512];
    times::fill(line, &mut late);
    let seen = Outlook {
        line,
        early: &early,
        late: &late,
        lows: &lows,
        calm: &calm,
    };
    pair_from(seen, first + 1)
}

// The least pair that turns.
pub(crate) fn least_pair(line: Line<'_>) -> Option<(usize, usize)>
    ensures { PairOf (along line.entry) result }
{
    if quiet::all_quiet(line) {
        None
    } else {
        pair_looked(line)
    }
}
