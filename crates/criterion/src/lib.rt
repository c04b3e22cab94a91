#![tactic(auto)]
// The criterion of a pair, on rows: every search goes by these.
ghost use Rattle.std.specs.Prelude.{◌≡◌};
ghost use Rattle.model.specs.Answers.{Tells};
ghost use Rattle.model.specs.Criterion.{Above, Below, Crosses, Spent, slack};
ghost use Rattle.model.specs.Order.{Differ};
ghost use Rattle.table.specs.Rows.{said};
ghost use Rattle.criterion.specs.Goals.{Meets, Told, Possible};

use table::Row;

// What a search asks of two steps.
// An enum: two questions, each with laws of its own.
#[derive(Clone, Copy, Debug, PartialEq, Eq)]
pub enum Goal {
    Turns,
    Overtakes,
}

// U < D: whether m can respond before k, for the sum u of lower bounds after k up to m.
#[tactic(auto, unfolding(model::specs::Criterion::Above))]
pub fn above(k: Row, m: Row, u: u32) -> bool
    ensures { Tells result (Above (said k) (said m) u) }
{
    u64::from(u) + u64::from(m.d) < u64::from(k.d)
}

// D ≤ V: whether k can respond before m, for the sum of late gaps after k up to m, in 1/256 tick.
#[tactic(auto, unfolding(model::specs::Criterion::Below))]
fn below(k: Row, m: Row, late: u32) -> bool
    ensures { Tells result (Below (said k) (said m) late) }
{
    u64::from(k.d) * 256 <= u64::from(late) + u64::from(m.d) * 256
}

// Whether the two responses can be told apart. A letter that is kept without its row is compared where it is kept: `starts::kept`, and `verdict` where it rules steps out.
pub fn differ(k: Row, m: Row) -> bool
    ensures { Tells result (Differ (said k) (said m)) }
{
    k.output != m.output
}

// Unlike letters and U < D ≤ V: whether the pair turns.
pub fn crosses(k: Row, m: Row, u: u32, late: u32) -> bool
    ensures { Tells result (Crosses (said k) (said m) u late) }
{
    differ(k, m) && above(k, m, u) && below(k, m, late)
}

// Whether the pair is what is asked for.
pub fn meets(goal: Goal, k: Row, m: Row, u: u32, late: u32) -> bool
    ensures { Tells result (Meets goal (said k) (said m) u late) }
{
    match goal {
        Goal::Turns => crosses(k, m, u, late),
        Goal::Overtakes => above(k, m, u),
    }
}

// Whether the letters let the pair be what is asked for.
fn told(goal: Goal, k: Row, m: Row) -> bool
    ensures { Tells result (Told goal (said k) (said m)) }
{
    match goal {
        Goal::Turns => differ(k, m),
        Goal::Overtakes => true,
    }
}

// Whether the pair can be what is asked for if the walk between is short and late enough.
pub fn possible(goal: Goal, k: Row, m: Row) -> bool
    ensures { Tells result (Possible goal (said k) (said m)) }
{
    above(k, m, u32::from(m.u)) && told(goal, k, m)
}

// So much u that no later step is above k: every delay is at least 1.
#[tactic(auto, unfolding(model::specs::Criterion::Spent))]
pub fn spent(k: Row, u: u32) -> bool
    ensures { Tells result (Spent (said k) u) }
{
    u64::from(k.d) <= u64::from(u) + 1
}

// The greatest sum of lower bounds between k and m with which m is still above; 0 where there is none.
#[tactic(auto, unfolding(model::specs::Criterion::slack))]
pub fn most_before(k: Row, m: Row) -> usize
    ensures { result ≡ slack (said k) (said m) }
{
    let last = usize::from(m.d) + usize::from(m.u);
    usize::from(k.d).saturating_sub(last + 1)
}
