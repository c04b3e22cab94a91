#![tactic(auto)]
// The calls on byte buffers: the table as a file, transition and step numbers of two bytes, stamps and due times of four.
ghost use Rattle.table.specs.Refusal.{checked_fields};
ghost use Rattle.table_file.specs.Write.{written_fields};
ghost use Rattle.on_bytes.specs.Replays.{ReplayBytesOutcome};
ghost use Rattle.on_bytes.specs.Rewrites.{RewriteBytesOutcome};

use layout::{Fours, Twos};
use table::{BLANK, Refusal, Table};

// Reads a table file and writes it.
pub fn rewrite_bytes(file: &[u8], out: &mut [u8]) -> Result<usize, Refusal>
    ensures { RewriteBytesOutcome file.now out.old (written_fields result) out.new }
{
    table_file::check_file(file)?;
    if out.len() < file.len() {
        return Err(Refusal::NoRoom);
    }
    // What a table that was read is written as is its file.
    let n = file.len();
    out[..n].copy_from_slice(file);
    Ok(n)
}

// Replay with the table as a file and every list in bytes.
pub fn replay_bytes(
    file: &[u8],
    trace: &[u8],
    start: u32,
    stamps: &[u8],
    order: &mut [u8],
    due: &mut [u8],
) -> Result<(), Refusal>
    ensures { ReplayBytesOutcome
        file.now trace.now start stamps.now order.old due.old
        (checked_fields result) order.new due.new }
{
    let mut t = Table {
        states: 1,
        initial: 0,
        count: 0,
        cells: [BLANK; 256],
    };
    table_file::read_into(file, &mut t)?;
    replay::replay_on::<Twos, Fours, Twos, Fours>(t.rows(), trace, start, stamps, order, due)
}
