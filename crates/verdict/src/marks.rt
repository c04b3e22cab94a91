// What a step asks of one that it turns with, in numbers.
ghost use Rattle.std.specs.Prelude.{◌≡◌, ℕ, ◌≤◌, ◌<◌};
ghost use Rattle.verdict.specs.Marks.{Covers};

// Due before `time` at the soonest, not before `late` at the latest, and with another letter.
#[derive(Clone, Copy)]
pub(crate) struct Mark {
    pub time: u32,
    pub late: u32,
    pub letter: u32,
}

// 256 is no letter.
fn common(a: u32, b: u32) -> u32
    ensures { (x : ℕ) → x < 256 → x ≡ result → (x ≡ a) × (x ≡ b) }
{
    if a == b { a } else { 256 }
}

impl Mark {
    // What either asks for, and perhaps more.
    pub(crate) fn with(self, q: Mark) -> Mark
        ensures { Covers result self × Covers result q }
    {
        Mark {
            time: self.time.max(q.time),
            late: self.late.min(q.late),
            letter: common(self.letter, q.letter),
        }
    }
}
