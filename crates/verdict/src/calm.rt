// A look back from the last step: what is due soonest from each step on.
ghost use Rattle.std.specs.Prelude.{◌≡◌, true, false, ℕ, ◌-◌, ◌%◌, ◌≤◌, length};
ghost use Rattle.verdict.specs.Line.{along};
ghost use Rattle.verdict.specs.Calm.{Over, LookedBack};

use crate::line::Line;
use crate::times;
use crate::times::Numbers;

// Of the numbers from some step on, the least, and the least with another letter than that.
#[derive(Clone, Copy)]
pub(crate) struct Soon {
    pub first: u32,
    pub other: u32,
}

impl Soon {
    // With one number more.
    fn with(self, e: u32) -> Soon
        ensures { Over result e × ((x : ℕ) → Over self x → Over result x) }
    {
        if e % 256 == self.first % 256 {
            Soon {
                first: self.first.min(e),
                ..self
            }
        } else if e < self.first {
            Soon {
                first: e,
                other: self.first,
            }
        } else {
            Soon {
                other: self.other.min(e),
                ..self
            }
        }
    }

    // Whether nothing with another letter is due before e.
    fn after(self, e: u32) -> bool
        ensures { result ≡ true → (x : ℕ) → Over self x → (x % 256 ≡ e % 256 → ⊥) → e - e % 256 ≤ x }
    {
        let least = if self.first % 256 == e % 256 {
            self.other
        } else {
            self.first
        };
        e - e % 256 <= least
    }
}

// The first step that is not calm, with p before all others.
// The number of steps stands for none: the search goes on from it.
fn first_unless(still: bool, p: usize, first: usize) -> usize
    ensures { (still ≡ true → result ≡ first) × (still ≡ false → result ≡ p) }
{
    if still { first } else { p }
}

// The least number from each block of eight steps on, which steps are calm: no later one with another letter is due before them; and the first that is not.
pub(crate) fn look_back(
    line: Line<'_>,
    early: &mut Numbers,
    lows: &mut [u32; 64],
    calm: &mut [bool; 512],
) -> usize
    ensures { LookedBack (along line.entry) early.new lows.new calm.new result }
{
    let mut s = Soon {
        first: u32::MAX,
        other: u32::MAX,
    };
    let mut arrival: u32 = 2096640;
    let mut first = line.len();
    for p in (0..line.len()).rev() {
        let r = line.step(p);
        let e = times::early_number(r, arrival);
        arrival -= u32::from(r.u);
        early[p] = e;
        let still = s.after(e);
        calm[p] = still;
        first = first_unless(still, p, first);
        s = s.with(e);
        if p % 8 == 0 {
            lows[p / 8] = s.first;
        }
    }
    first
}
