// How far a step has to look for one that it turns with: this only rules steps out.
ghost use Rattle.std.specs.Prelude.{◌≡◌, false, ℕ, ◌/◌, ◌≤◌, ◌<◌, length, get_or};
ghost use Rattle.verdict.specs.Line.{along};
ghost use Rattle.verdict.specs.Calm.{standing, Seen};
ghost use Rattle.verdict.specs.Times.{Numbered, Latest};
ghost use Rattle.verdict.specs.Marks.{Clear, Covers, mark_at};
ghost use Rattle.verdict.specs.Sight.{Far};

use crate::line::Line;
use crate::marks::Mark;
use crate::times::Numbers;

// The steps of a block look no further than `far`.
#[derive(Clone, Copy)]
pub(crate) struct Sight {
    pub block: usize,
    pub far: usize,
}

// The numbers of a line: of each step when it responds, at the soonest and at the latest, of each block the least from there on, and which steps are calm.
#[derive(Clone, Copy)]
pub(crate) struct Outlook<'a> {
    pub line: Line<'a>,
    pub early: &'a Numbers,
    pub late: &'a Numbers,
    pub lows: &'a [u32; 64],
    pub calm: &'a [bool; 512],
    ghost numbers: { Numbered (along line) early.now 0 },
    ghost times: { Latest (along line) late.now (length line.trace.now) },
    ghost seen: { Seen (standing early.now) (length line.trace.now) lows.now calm.now 0 },
}

// The first block from i on from which no number is below `time`.
// 64, the end, where there is none: it is a bound at once.
fn reach(lows: &[u32; 64], i: usize, time: u32) -> usize
    ensures { (result ≤ 64) × (result < 64 → time ≤ get_or lows.now result 0) }
{
    for r in i..64 {
        if time <= lows[r] {
            return r;
        }
    }
    64
}

impl Outlook<'_> {
    // What step k asks for.
    fn mark_at(self, k: usize) -> Mark
        requires { k < 512 }
        ensures { result ≡ mark_at self.entry.early.now self.entry.late.now k }
    {
        let e = self.early[k];
        Mark {
            time: e - e % 256,
            late: self.late[k],
            letter: e % 256,
        }
    }

    // What the steps of block i ask for together, but for the calm ones.
    fn mark_block(self, i: usize) -> Mark
        requires { i < 64 }
        ensures { (k : ℕ) → k / 8 ≡ i → get_or self.entry.calm.now k false ≡ false
            → Covers result (mark_at self.entry.early.now self.entry.late.now k) }
    {
        let mut all = Mark {
            time: 0,
            late: u32::MAX,
            letter: self.early[8 * i] % 256,
        };
        for k in 8 * i..8 * i + 8 {
            if !self.calm[k] {
                all = all.with(self.mark_at(k));
            }
        }
        all
    }

    // Whether a step from a up to b is what q asks for. The loop has no other way out, so that several steps are tested at once.
    fn any_between(self, q: Mark, a: usize, b: usize) -> bool
        requires { b ≤ 512 }
        ensures { result ≡ false → Clear self.entry.early.now self.entry.late.now q a b }
    {
        let mut any = false;
        for m in a..b {
            let e = self.early[m];
            let l = self.late[m];
            any |= (e < q.time) & (q.late <= l) & (e % 256 != q.letter);
        }
        any
    }

    // Beyond block i its steps look only if one there is what they ask for together, and within it only if one of it is.
    fn look_ahead(self, i: usize) -> Sight
        requires { i < 64 }
        ensures { (result.block ≡ i)
            × Far self.entry.early.now self.entry.late.now self.entry.calm.now (length self.entry.line.trace.now) result }
    {
        let all = self.mark_block(i);
        let near = 8 * (i + 1);
        let far = 8 * reach(self.lows, i + 1, all.time);
        if self.any_between(all, near, far) {
            Sight { block: i, far }
        } else if self.any_between(all, 8 * i, near) {
            Sight {
                block: i,
                far: near,
            }
        } else {
            Sight {
                block: i,
                far: 8 * i,
            }
        }
    }

    // The sight of step k's block, from the last one that was worked out; a calm step needs none.
    pub(crate) fn sight_at(self, k: usize, last: Sight) -> Sight
        requires { k < 512 }
        ensures { (get_or self.entry.calm.now k false ≡ false → result.block ≡ k / 8)
            × (Far self.entry.early.now self.entry.late.now self.entry.calm.now (length self.entry.line.trace.now) last
            → Far self.entry.early.now self.entry.late.now self.entry.calm.now (length self.entry.line.trace.now) result) }
    {
        if self.calm[k] || k / 8 == last.block {
            last
        } else {
            self.look_ahead(k / 8)
        }
    }

    // Whether step k may turn with one before `far`.
    pub(crate) fn may_turn(self, k: usize, far: usize) -> bool
        requires { (k < 512) × (far ≤ 512) }
        ensures { result ≡ false → get_or self.entry.calm.now k false ≡ false
            → Clear self.entry.early.now self.entry.late.now (mark_at self.entry.early.now self.entry.late.now k) k far }
    {
        !self.calm[k] && self.any_between(self.mark_at(k), k / 8 * 8, far)
    }
}
