// The table of what is kept, a row for each sum of lower bounds and the end's delay, an entry for each state: filled row by row.
// An entry's two numbers stand in one, so that the table and the sums of the walk that is shown can share their room.
// The letters stand beside them: an array of entries would take a byte more for each, and one type round both arrays a kilobyte more in all
// (then no other array shares its room): either is more stack than a verdict may take.
ghost use Rattle.std.specs.Prelude.{◌≡◌, ◌+◌, ◌*◌, ◌<◌, ◌≤◌, length, set};
ghost use Rattle.table.specs.Rows.{transitions};
ghost use Rattle.starts.specs.Rows.{both, cell, Blank, EndsFrom, Filled, Making};

use crate::kept::{Entry, ended, joined};
use table::fit::Fit;

// The entry in a row at a state.
pub(crate) fn entry(numbers: &[u32], letters: &[u8], row: usize, state: u16) -> Entry
    requires { (length letters.now ≡ length numbers.now) × (row * 32 + state < length numbers.now) }
    ensures { result ≡ cell numbers.now letters.now row state }
{
    let at = row * 32 + usize::from(state);
    let x = numbers[at];
    Entry {
        first: (x % 65536) as u16,
        letter: letters[at],
        second: (x / 65536) as u16,
    }
}

fn put(numbers: &mut [u32], letters: &mut [u8], row: usize, state: u16, e: Entry)
    requires { (length letters.old ≡ length numbers.old) × (row * 32 + state < length numbers.old) }
    ensures { (numbers.new ≡ set numbers.old (row * 32 + state) (both e))
        × (letters.new ≡ set letters.old (row * 32 + state) e.letter) }
{
    let at = row * 32 + usize::from(state);
    numbers[at] = u32::from(e.first) + u32::from(e.second) * 65536;
    letters[at] = e.letter;
}

// Row b with what transition i adds to it.
fn improve(fit: Fit<'_>, numbers: &mut [u32], letters: &mut [u8], b: usize, i: usize)
    requires { (i < length fit.rows.now) × Making (transitions fit.rows.now) numbers.old letters.old b i }
    ensures { Making (transitions fit.entry.rows.now) numbers.new letters.new b (i + 1) }
{
    let t = fit.rows[i];
    let u = usize::from(t.u);
    if b < u {
        return;
    }
    let a = entry(numbers, letters, b, t.from);
    // Nothing is above the cap.
    if 61440 <= a.second {
        return;
    }
    let n = entry(numbers, letters, b - u, t.to);
    let e = ended(joined(a, n, words::late_gap(t)), t, b - u);
    put(numbers, letters, b, t.from, e);
}

// Every transition for row b.
fn sweep(fit: Fit<'_>, numbers: &mut [u32], letters: &mut [u8], b: usize)
    requires { Making (transitions fit.rows.now) numbers.old letters.old b 0 }
    ensures { Filled (transitions fit.entry.rows.now) numbers.new letters.new (b + 1) }
{
    for i in 0..fit.rows.len() {
        improve(fit, numbers, letters, b, i);
    }
}

// The first row in which a walk can end, at most n: the rows before it keep nothing.
fn first_row(fit: Fit<'_>, n: usize) -> usize
    ensures { EndsFrom (transitions fit.entry.rows.now) (length fit.entry.rows.now) n result }
{
    let mut low = n;
    for &t in fit.rows {
        low = low.min(usize::from(t.u) + usize::from(t.d));
    }
    low
}

// The first n rows, where nothing was.
pub(crate) fn fill(fit: Fit<'_>, numbers: &mut [u32], letters: &mut [u8], n: usize)
    requires { (length letters.old ≡ length numbers.old) × Blank numbers.old 0 × (n * 32 ≤ length numbers.old) }
    ensures { Filled (transitions fit.entry.rows.now) numbers.new letters.new n }
{
    for b in first_row(fit, n)..n {
        sweep(fit, numbers, letters, b);
    }
}
