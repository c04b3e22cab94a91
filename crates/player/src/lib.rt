#![tactic(auto)]
// The bench player: a configuration by value, its waiting responses in a lent list of records, and the moves.
ghost use Rattle.std.specs.Prelude.{◌≡◌, Err, ◌≤◌, length};
ghost use Rattle.model.specs.Answers.{Tells};
ghost use Rattle.model.specs.Table.{Machine, Valid};
ghost use Rattle.table.specs.Rows.{machine_of};
ghost use Rattle.player.specs.declared.Denial.TheVariants.{Refused};
ghost use Rattle.player.specs.declared.Move.TheVariants.{Time, Input, Output};
ghost use Rattle.player.specs.Answer.{answer_fields};
ghost use Rattle.player.specs.Moves.{fresh, Whole, StartOutcome, PlayOutcome};
ghost use Rattle.player.specs.Steps.{config_after, answer_after, Stepped};

use records::Pending;
use table::{Refusal, Table};

mod open;

// A configuration: the state, the inputs so far, the responses that wait, the time since the last input in 1/256 tick.
#[derive(Clone, Copy, PartialEq, Eq, Default)]
pub struct Config {
    pub state: u16,
    pub inputs: u16,
    pub waiting: u16,
    pub timer: u32,
}

#[derive(Clone, Copy)]
pub enum Move {
    Time(u32),
    Input(u16),
    Output,
}

// What an accepted move tells: an input's transition, or an output's step and letter.
#[derive(Clone, Copy, PartialEq, Eq, Default)]
pub struct Done {
    pub first: u16,
    pub second: u16,
}

// Why a move is not made: as other calls refuse, or for a reason of the player's own.
#[derive(Clone, Copy, PartialEq, Eq)]
pub enum Denial {
    Refused(Refusal),
    Closed,
    Untimely,
    Split,
    Spent,
    Damaged,
}

pub type Answer = Result<Done, Denial>;

// What a move comes to: the next configuration with what is told of it.
type Next = Result<(Config, Done), Denial>;

impl From<Refusal> for Denial {
    ghost from_gives = { λ r d. d ≡ Refused r };

    fn from(r: Refusal) -> Denial {
        Denial::Refused(r)
    }
}

// A denial's number.
impl From<Denial> for u16 {
    ghost from_gives = { λ d n. n ≡ (answer_fields (Err d)).status };

    fn from(d: Denial) -> u16 {
        match d {
            Denial::Refused(r) => u16::from(r),
            Denial::Closed => 10,
            Denial::Untimely => 11,
            Denial::Split => 13,
            Denial::Spent => 14,
            Denial::Damaged => 15,
        }
    }
}

// The number of an answer: 0 of what is done, else that of its denial.
pub fn number(a: Answer) -> u16
    ensures { result ≡ (answer_fields a).status }
{
    match a {
        Ok(_) => 0,
        Err(denial) => u16::from(denial),
    }
}

// The next configuration, with the answer.
// A denied move hands back the configuration that it was given: no Result of both.
#[derive(Clone, Copy)]
pub struct Moved {
    pub config: Config,
    pub answer: Answer,
}

impl Moved {
    // What a move comes to; on a denial the configuration c is handed back.
    fn after(c: Config, next: Next) -> Moved
        ensures config { result.config ≡ config_after c next }
        ensures answer { result.answer ≡ answer_after next }
    {
        match next {
            Ok((config, done)) => Moved {
                config,
                answer: Ok(done),
            },
            Err(denial) => Moved {
                config: c,
                answer: Err(denial),
            },
        }
    }
}

// What a move hands back with a list by value.
// The list comes back denied or not: no Result of it.
#[derive(Clone, Copy)]
pub struct Held {
    pub moved: Moved,
    pub list: [Pending; 240],
}

impl Config {
    // Not damaged: the numbers within their ranges, and the records in order.
    fn whole(self, t: &Table, list: &[Pending]) -> bool
        ensures { Tells result (Whole (machine_of t.now) self list.now) }
    {
        let n = usize::from(self.waiting);
        self.state < t.states
            && self.timer <= 1048576
            && self.inputs <= 512
            && self.waiting <= 240
            && n <= list.len()
            && records::in_order(&list[..n], self.inputs)
    }

    // Time t passes, at most to the next due response; the timer stops counting at 4,096 ticks.
    fn time(mut self, list: &mut [Pending], parts: u32) -> Next
        requires { self.waiting ≤ length list.old }
        ensures { (m : Machine) → Stepped m self list.old (Time parts) result list.new }
    {
        let n = usize::from(self.waiting);
        if !records::none_before(&list[..n], parts) {
            return Err(Denial::Untimely);
        }
        records::age(list, n, parts);
        self.timer = self.timer.saturating_add(parts).min(1048576);
        Ok((self, Done::default()))
    }

    // An open transition takes the input, and its response waits: none is due, the table is not split, at most 512 inputs, at most 240 that wait.
    fn input(mut self, t: &Table, list: &mut [Pending], letter: u16) -> Next
        requires valid { Valid (machine_of t.now) }
        requires whole { Whole (machine_of t.now) self list.old }
        requires room { 240 ≤ length list.old }
        ensures { Stepped (machine_of t.now) self list.old (Input letter) result list.new }
    {
        let n = usize::from(self.waiting);
        let rows = t.rows();
        let Some(i) = open::first_open(rows, self.state, letter, self.timer) else {
            return Err(Denial::Closed);
        };
        if !records::none_before(&list[..n], 1) {
            return Err(Denial::Untimely);
        }
        if !open::unsplit(t) {
            return Err(Denial::Split);
        }
        let step = self.inputs + 1;
        if 512 < step {
            return Err(Denial::Spent);
        }
        if 240 <= self.waiting {
            return Err(Denial::Damaged);
        }
        let r = table::row_of(rows, i);
        self.state = r.to;
        self.inputs = step;
        self.waiting += 1;
        self.timer = 0;
        list[n] = Pending {
            step,
            letter: r.output,
            left: u32::from(r.d) * 256,
        };
        Ok((
            self,
            Done {
                // Nothing is cut off: that is proved, and TryFrom would ask what to do if it were.
                first: i as u16,
                second: 0,
            },
        ))
    }

    // The lowest step now due is issued.
    fn output(mut self, list: &mut [Pending]) -> Next
        requires { self.waiting ≤ length list.old }
        ensures { (m : Machine) → Stepped m self list.old Output result list.new }
    {
        let n = usize::from(self.waiting);
        let Some(at) = records::first_due(&list[..n]) else {
            return Err(Denial::Untimely);
        };
        let due = list[at];
        records::close(list, n, at);
        self.waiting -= 1;
        Ok((
            self,
            Done {
                first: due.step,
                second: due.letter,
            },
        ))
    }
}

// What a move comes to: the table, the configuration, the room, then the move.
fn step(c: Config, t: &Table, list: &mut [Pending], m: Move) -> Next
    ensures { PlayOutcome (machine_of t.now) c list.old m (answer_fields (answer_after result)) (config_after c result) list.new }
{
    table::check(t)?;
    if !c.whole(t, list) {
        return Err(Denial::Damaged);
    }
    if list.len() < 240 {
        return Err(Denial::from(Refusal::NoRoom));
    }
    match m {
        Move::Time(parts) => c.time(list, parts),
        Move::Input(letter) => c.input(t, list, letter),
        Move::Output => c.output(list),
    }
}

// The first configuration, with so many records lent: the initial state, timer 0, no inputs, none waiting.
fn begin(t: &Table, lent: usize) -> Next
    ensures { StartOutcome (machine_of t.now) lent (answer_fields (answer_after result)) (config_after (fresh 0) result) }
{
    table::check(t)?;
    if lent < 240 {
        return Err(Denial::from(Refusal::NoRoom));
    }
    if !open::unsplit(t) {
        return Err(Denial::Split);
    }
    Ok((
        Config {
            state: t.initial,
            ..Config::default()
        },
        Done::default(),
    ))
}

// The start, with so many records lent.
pub fn start(t: &Table, lent: usize) -> Moved
    ensures { StartOutcome (machine_of t.now) lent (answer_fields result.answer) result.config }
{
    Moved::after(Config::default(), begin(t, lent))
}

// One move on a lent list.
pub fn play(c: Config, t: &Table, list: &mut [Pending], m: Move) -> Moved
    ensures { PlayOutcome (machine_of t.now) c list.old m (answer_fields result.answer) result.config list.new }
{
    Moved::after(c, step(c, t, list, m))
}

// The same on a list by value, which is handed back.
pub fn play_held(c: Config, t: &Table, mut list: [Pending; 240], m: Move) -> Held
    ensures { PlayOutcome (machine_of t.now) c list m (answer_fields result.moved.answer) result.moved.config result.list }
{
    let moved = play(c, t, &mut list, m);
    Held { moved, list }
}
