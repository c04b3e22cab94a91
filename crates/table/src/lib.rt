#![tactic(auto)]
// The table value and its check.
ghost use Rattle.std.specs.Prelude.{Some, ◌≡◌, ◌≤◌, min, length, take};
ghost use Rattle.model.specs.Answers.{Tells};
ghost use Rattle.table.specs.Refusal.{refusal_number, refusal_place, refusal_text, checked_fields};
ghost use Rattle.table.specs.Rows.{row_of, transitions, machine_of};
ghost use Rattle.table.specs.Check.{head_fine};
ghost use Rattle.table.specs.Tests.{CheckOutcome};

use std::fmt;

pub mod fit;
pub mod ranges;
pub mod rows;
pub mod seen;

// Refusals of more calls than the player's, each with the place that it names.
#[derive(Clone, Copy, PartialEq, Eq)]
pub enum Refusal {
    Cut(usize),
    Misplaced(usize),
    Full(usize),
    OutOfRange(usize),
    Repeated(usize),
    NoTrace,
    Uneven,
    NoRoom,
    Early(usize),
    Late(usize),
}

// A refusal's number.
impl From<Refusal> for u16 {
    ghost from_gives = { λ r n. n ≡ refusal_number r };

    fn from(r: Refusal) -> u16 {
        match r {
            Refusal::Cut(_) => 1,
            Refusal::Misplaced(_) => 2,
            Refusal::Full(_) => 3,
            Refusal::OutOfRange(_) => 4,
            Refusal::Repeated(_) => 5,
            Refusal::NoTrace => 6,
            Refusal::Uneven => 7,
            Refusal::NoRoom => 8,
            Refusal::Early(_) => 9,
            Refusal::Late(_) => 12,
        }
    }
}

impl Refusal {
    // The place that it names.
    pub fn place(self) -> usize
        ensures { result ≡ refusal_place self }
    {
        match self {
            Refusal::NoTrace | Refusal::Uneven | Refusal::NoRoom => 0,
            Refusal::Cut(at) | Refusal::Misplaced(at) | Refusal::Full(at) => at,
            Refusal::OutOfRange(at) | Refusal::Repeated(at) => at,
            Refusal::Early(step) | Refusal::Late(step) => step,
        }
    }
}

// As the programs print it.
impl fmt::Display for Refusal {
    ghost output = { λ r. Some (refusal_text r) };

    fn fmt<W: fmt::Write>(&self, f: &mut fmt::Formatter<W>) -> fmt::Result {
        write!(f, "refused {} at {}", u16::from(*self), self.place())
    }
}

// A transition on its own.
#[derive(Clone, Copy, PartialEq, Eq)]
pub struct Row {
    pub from: u16,
    pub input: u16,
    pub output: u16,
    pub to: u16,
    pub u: u16,
    pub v: u16,
    pub d: u16,
}

// Places for 256 transitions.
pub type Cells = [Row; 256];

// What stands where no transition does.
pub const BLANK: Row = Row {
    from: 0,
    input: 0,
    output: 0,
    to: 0,
    u: 0,
    v: 0,
    d: 0,
};

// A table: what stands in the cells behind the first `count` is never looked at.
#[derive(Clone, Copy)]
pub struct Table {
    pub states: u16,
    pub initial: u16,
    pub count: usize,
    pub cells: Cells,
}

impl Table {
    // Its transitions; of a count above 256 those that stand in the cells.
    pub fn rows(&self) -> &[Row]
        ensures is { result.now ≡ take self.now.count self.now.cells }
        ensures number { length result.now ≡ min self.now.count 256 }
        ensures held { self.now.count ≤ 256 → transitions result.now ≡ (machine_of self.now).transitions }
    {
        &self.cells[..self.count.min(256)]
    }
}

// The transition at i; past the last one stands nothing.
pub fn row_of(rows: &[Row], i: usize) -> Row
    ensures { result ≡ row_of rows.now i }
{
    if i < rows.len() { rows[i] } else { BLANK }
}

// 1 to 32 states, the initial one among them.
// Its contract is an equation: of && under one the goals stay open.
pub fn head_fine(states: u16, initial: u16) -> bool
    ensures { result ≡ head_fine states initial }
{
    if states < 1 || 32 < states {
        return false;
    }
    initial < states
}

// The check of a table: 3, then 4, then 5, at place 0.
pub fn check(t: &Table) -> Result<(), Refusal>
    ensures { CheckOutcome (machine_of t.now) (checked_fields result) }
{
    if 256 < t.count {
        return Err(Refusal::Full(0));
    }
    let rows = t.rows();
    if !head_fine(t.states, t.initial) || !ranges::all_in_range(rows, t.states) {
        return Err(Refusal::OutOfRange(0));
    }
    if !ranges::all_unlike(rows) {
        return Err(Refusal::Repeated(0));
    }
    Ok(())
}
