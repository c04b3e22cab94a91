// A quick test that most steady traces pass: each step against the next alone.
ghost use Rattle.std.specs.Prelude.{length};
ghost use Rattle.model.specs.Answers.{Tells};
ghost use Rattle.verdict.specs.Line.{along};
ghost use Rattle.verdict.specs.Pairs.{Quiet};

use crate::line::Line;

// Whether no step can be overtaken by the next one: then, by adding up, none can be overtaken by any.
pub(crate) fn all_quiet(line: Line<'_>) -> bool
    ensures { Tells result (Quiet (along line.entry) (length line.entry.trace.now)) }
{
    let mut before = line.step(0);
    for i in 1..line.len() {
        let s = line.step(i);
        if criterion::above(before, s, u32::from(s.u)) {
            return false;
        }
        before = s;
    }
    true
}
