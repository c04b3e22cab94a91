// A trace on rows that the searches may go along.
ghost use Rattle.std.specs.Prelude.{◌≡◌, ◌≤◌, ◌<◌, All, length, slice_index};
ghost use Rattle.model.specs.Table.{InRange};
ghost use Rattle.table.specs.Rows.{row_of, named};

use table::Row;

// 1 to 512 steps, each the number of one of the rows, every number of each within its range: the facts are the type's.
#[derive(Clone, Copy)]
pub(crate) struct Line<'a> {
    pub rows: &'a [Row],
    pub trace: &'a [u16],
    ghost some: { 1 ≤ length trace.now },
    ghost few: { length trace.now ≤ 512 },
    ghost known: { All (λ i. i < length rows.now) trace.now },
    ghost ranged: { All (λ s. InRange 32 s) (named rows.now trace.now) },
}

impl Line<'_> {
    // How many steps it has.
    pub(crate) fn len(self) -> usize
        ensures { result ≡ length self.entry.trace.now }
    {
        self.trace.len()
    }

    // The transition of the step at i.
    #[tactic(auto, unfolding(table::specs::Rows::row_of))]
    pub(crate) fn step(self, i: usize) -> Row
        requires { i < length self.trace.now }
        ensures { result ≡ row_of self.entry.rows.now (slice_index self.entry.trace.now i) }
    {
        self.rows[usize::from(self.trace[i])]
    }
}
