#![tactic(auto)]
// The calls on byte buffers: a night of words. Start stamps, stamps and due times take places of four bytes, steps and marks places of two.
ghost use Rattle.night.specs.Night.{words_fields};
ghost use Rattle.night_bytes.specs.NightBytes.{WordsBytesOutcome};

use layout::{Fours, Twos};
use table::{BLANK, Refusal, Table};

// Up to 256 words with the table as a file and every list in bytes, each played as by itself.
pub fn replay_words_bytes(
    file: &[u8],
    trace: &[u8],
    starts: &[u8],
    stamps: &[u8],
    order: &mut [u8],
    due: &mut [u8],
    marks: &mut [u8],
) -> Result<usize, Refusal>
    ensures { WordsBytesOutcome
        file.now trace.now starts.now stamps.now
        order.old due.old marks.old
        (words_fields result) order.new due.new marks.new }
{
    let mut t = Table {
        states: 1,
        initial: 0,
        count: 0,
        cells: [BLANK; 256],
    };
    table_file::read_into(file, &mut t)?;
    let rows = t.rows();
    night::words_on::<Twos, Fours, Twos, Fours>(rows, trace, starts, stamps, order, due, marks)
}
