// The moves on a table that was read.
ghost use Rattle.model.specs.Table.{Valid};
ghost use Rattle.table.specs.Rows.{machine_of};
ghost use Rattle.player.specs.Answer.{answer_fields};
ghost use Rattle.player_bytes.specs.Plays.{StartOnMachine, PlayOnMachine};

use crate::held;
use player::{Answer, Denial, Move};
use table::{Refusal, Table};

// The start with so many records lent.
pub(crate) fn start_on(t: &Table, config: &mut [u8], lent: usize) -> Answer
    requires { Valid (machine_of t.now) }
    ensures { StartOnMachine (machine_of t.now) config.old lent (answer_fields result) config.new }
{
    if config.len() < 10 {
        return Err(Denial::from(Refusal::NoRoom));
    }
    let moved = player::start(t, lent);
    let done = moved.answer?;
    held::put_config(config, moved.config);
    Ok(done)
}

// Decodes what is lent, makes the move, and writes back what it left; a refusal writes nothing.
pub(crate) fn play_on(t: &Table, config: &mut [u8], waiting: &mut [u8], m: Move) -> Answer
    requires { Valid (machine_of t.now) }
    ensures { PlayOnMachine (machine_of t.now) config.old waiting.old m (answer_fields result)
        config.new waiting.new }
{
    if config.len() < 10 {
        return Err(Denial::Damaged);
    }
    let c = held::config_in(config);
    let mut list = held::records_in(waiting);
    let lent = (waiting.len() / 8).min(240);
    let moved = player::play(c, t, &mut list[..lent], m);
    let done = moved.answer?;
    held::put_config(config, moved.config);
    held::put_records(waiting, &list);
    Ok(done)
}
