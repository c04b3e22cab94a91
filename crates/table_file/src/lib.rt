#![tactic(auto)]
// The file of a table: its reader and its writer.
ghost use Rattle.table.specs.Refusal.{checked_fields};
ghost use Rattle.table.specs.Rows.{machine_of};
ghost use Rattle.table_file.specs.File.{ReadOutcome, FileOutcome, IntoOutcome, read_file};
ghost use Rattle.table_file.specs.Write.{written_fields, WriteOutcome};

use table::{BLANK, Refusal, Table};

mod reader;
mod writer;

// A refused file is the bare table, as the rules say: a Result would have none.
#[derive(Clone, Copy)]
pub struct Reading {
    pub answer: Result<(), Refusal>,
    pub table: Table,
}

// A table without its transitions, which are counted.
#[derive(Clone, Copy)]
pub struct Head {
    pub states: u16,
    pub initial: u16,
    pub count: usize,
}

// What a file is: its numbers, or the number and the offset of its first refusal.
pub fn check_file(file: &[u8]) -> Result<Head, Refusal>
    ensures { FileOutcome (read_file file.now) result }
{
    reader::scan(file)
}

// The same, and its numbers and its transitions stored in a lent table. The whole file is tested first: a refusal stores nothing.
pub fn read_into(file: &[u8], t: &mut Table) -> Result<(), Refusal>
    ensures { IntoOutcome (read_file file.now) t.old result t.new }
{
    let head = reader::scan(file)?;
    t.states = head.states;
    t.initial = head.initial;
    t.count = head.count;
    reader::take_rows(file, head.count, &mut t.cells);
    Ok(())
}

// The table of a file, or the number and the offset of its first refusal with the table of one state and no transitions.
pub fn read_table(file: &[u8]) -> Reading
    ensures { ReadOutcome (read_file file.now) (checked_fields result.answer) result.table }
{
    let mut table = Table {
        states: 1,
        initial: 0,
        count: 0,
        cells: [BLANK; 256],
    };
    let answer = read_into(file, &mut table);
    Reading { answer, table }
}

// The file of a table, checked first: its bytes, the places after them as they were. A refusal writes nothing.
pub fn write_table(t: &Table, out: &mut [u8]) -> Result<usize, Refusal>
    ensures { WriteOutcome (machine_of t.now) out.old (written_fields result) out.new }
{
    table::check(t)?;
    let rows = t.rows();
    let n = rows.len();
    let size = 12 + n * 18;
    if out.len() < size {
        return Err(Refusal::NoRoom);
    }
    writer::put_head(out, t.states, t.initial);
    writer::put_rows(rows, out);
    writer::put_end(out, 8 + n * 18);
    Ok(size)
}
