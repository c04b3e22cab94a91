#![tactic(auto)]
// The bench player in bytes: the table as a file, a configuration of ten bytes, records of eight.
ghost use Rattle.player.specs.Answer.{answer_fields};
ghost use Rattle.player_bytes.specs.Plays.{StartBytesOutcome, PlayBytesOutcome};

use player::{Answer, Move};
use table::{BLANK, Table};

mod held;
mod plays;

// The start on a table file.
pub fn start_bytes(file: &[u8], config: &mut [u8], waiting: &mut [u8]) -> Answer
    ensures { StartBytesOutcome file.now config.old waiting.old (answer_fields result)
        config.new waiting.new }
{
    let mut t = Table {
        states: 1,
        initial: 0,
        count: 0,
        cells: [BLANK; 256],
    };
    table_file::read_into(file, &mut t)?;
    plays::start_on(&t, config, waiting.len() / 8)
}

// A move on a table file.
pub fn play_bytes(file: &[u8], config: &mut [u8], waiting: &mut [u8], m: Move) -> Answer
    ensures { PlayBytesOutcome file.now config.old waiting.old m (answer_fields result)
        config.new waiting.new }
{
    let mut t = Table {
        states: 1,
        initial: 0,
        count: 0,
        cells: [BLANK; 256],
    };
    table_file::read_into(file, &mut t)?;
    plays::play_on(&t, config, waiting, m)
}
