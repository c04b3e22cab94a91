// The writer: head, transitions, end.
ghost use Rattle.std.specs.Prelude.{◌≡◌, ◌+◌, ◌*◌, ◌≤◌, ◌<◌, length};
ghost use Rattle.wire.specs.Bytes.{bytes, placed};
ghost use Rattle.table.specs.Rows.{row_at, said, flat, transitions};
ghost use Rattle.table_file.specs.File.{head_numbers, row_numbers, end_numbers};

use table::Row;

pub(crate) fn put_head(out: &mut [u8], states: u16, initial: u16)
    ensures { out.new ≡ placed out.old 0 (bytes 2 (head_numbers states initial)) }
{
    let record = [6u16, 1, states, initial];
    wire::put(out, 0, &record);
}

fn put_row_record(r: Row, out: &mut [u8], at: usize)
    ensures { out.new ≡ placed out.old at (bytes 2 (row_numbers (said r))) }
{
    let record = [16u16, 2, r.from, r.input, r.output, r.to, r.u, r.v, r.d];
    wire::put(out, at, &record);
}

pub(crate) fn put_end(out: &mut [u8], at: usize)
    ensures { out.new ≡ placed out.old at (bytes 2 end_numbers) }
{
    let record = [2u16, 3];
    wire::put(out, at, &record);
}

// The records of the transitions, behind the head.
pub(crate) fn put_rows(rows: &[Row], out: &mut [u8])
    requires { 8 + length rows.now * 18 ≤ length out.old }
    ensures { out.new ≡ placed out.old 8 (bytes 2 (flat row_numbers (transitions rows.now))) }
{
    for (i, &r) in rows.iter().enumerate() {
        put_row_record(r, out, 8 + i * 18);
    }
}
