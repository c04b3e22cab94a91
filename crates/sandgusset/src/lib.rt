#![tactic(auto)]
// What a C host links (include/sandgusset.h): the byte calls, each answer packed into one number.
ghost use Rattle.sandgusset.specs.Exports.{JudgeAnswer, OrderAnswer, JudgeTraceAnswer, ReplayAnswer, WordsAnswer, RewriteAnswer};
ghost use Rattle.sandgusset.specs.Exports.{PlayerStartAnswer, PlayerAnswer};
ghost use Rattle.player.specs.declared.Move.TheVariants.{Time, Input, Output};

use player::Move;

// The verdict on a table file.
#[unsafe(no_mangle)]
pub extern "C" fn sandgusset_judge(file: &[u8], trace: &mut [u8], stamps: &mut [u8]) -> u64
    ensures { JudgeAnswer file.now trace.old stamps.old result trace.new stamps.new }
{
    let a = verdict_bytes::judge_table_bytes(file, trace, stamps);
    answers::pack(a)
}

// Whether a table file keeps request order.
#[unsafe(no_mangle)]
pub extern "C" fn sandgusset_order(file: &[u8], trace: &mut [u8], stamps: &mut [u8]) -> u64
    ensures { OrderAnswer file.now trace.old stamps.old result trace.new stamps.new }
{
    let a = order_bytes::order_table_bytes(file, trace, stamps);
    answers::pack(a)
}

// The verdict on a trace.
#[unsafe(no_mangle)]
pub extern "C" fn sandgusset_judge_trace(file: &[u8], trace: &[u8], stamps: &mut [u8]) -> u64
    ensures { JudgeTraceAnswer file.now trace.now stamps.old result stamps.new }
{
    let a = trace_bytes::judge_trace_bytes(file, trace, stamps);
    answers::on_trace(a, trace.len() / 2)
}

// Replay of a timed word on a trace.
#[unsafe(no_mangle)]
pub extern "C" fn sandgusset_replay(
    file: &[u8],
    trace: &[u8],
    start: u32,
    stamps: &[u8],
    order: &mut [u8],
    due: &mut [u8],
) -> u64
    ensures { ReplayAnswer file.now trace.now start stamps.now order.old due.old
        result order.new due.new }
{
    let a = on_bytes::replay_bytes(file, trace, start, stamps, order, due);
    answers::pack(a)
}

// Replay of up to 256 timed words on one trace.
#[unsafe(no_mangle)]
pub extern "C" fn sandgusset_replay_words(
    file: &[u8],
    trace: &[u8],
    starts: &[u8],
    stamps: &[u8],
    order: &mut [u8],
    due: &mut [u8],
    marks: &mut [u8],
) -> u64
    ensures { WordsAnswer file.now trace.now starts.now stamps.now
        order.old due.old marks.old result order.new due.new marks.new }
{
    let a = night_bytes::replay_words_bytes(file, trace, starts, stamps, order, due, marks);
    answers::pack(a)
}

// Reads a table file and writes it.
#[unsafe(no_mangle)]
pub extern "C" fn sandgusset_rewrite(file: &[u8], out: &mut [u8]) -> u64
    ensures { RewriteAnswer file.now out.old result out.new }
{
    let a = on_bytes::rewrite_bytes(file, out);
    answers::pack(a)
}

// Starts the player on a table file.
#[unsafe(no_mangle)]
pub extern "C" fn sandgusset_player_start(file: &[u8], config: &mut [u8], waiting: &mut [u8]) -> u64
    ensures { PlayerStartAnswer file.now config.old waiting.old result config.new waiting.new }
{
    let a = player_bytes::start_bytes(file, config, waiting);
    answers::played(a)
}

// Lets time pass.
#[unsafe(no_mangle)]
pub extern "C" fn sandgusset_player_time(
    file: &[u8],
    config: &mut [u8],
    waiting: &mut [u8],
    parts: u32,
) -> u64
    ensures { PlayerAnswer file.now config.old waiting.old (Time parts) result config.new waiting.new }
{
    let a = player_bytes::play_bytes(file, config, waiting, Move::Time(parts));
    answers::played(a)
}

// An input now.
#[unsafe(no_mangle)]
pub extern "C" fn sandgusset_player_input(
    file: &[u8],
    config: &mut [u8],
    waiting: &mut [u8],
    letter: u16,
) -> u64
    ensures { PlayerAnswer file.now config.old waiting.old (Input letter) result config.new waiting.new }
{
    let a = player_bytes::play_bytes(file, config, waiting, Move::Input(letter));
    answers::played(a)
}

// Issues the response that is due now.
#[unsafe(no_mangle)]
pub extern "C" fn sandgusset_player_output(
    file: &[u8],
    config: &mut [u8],
    waiting: &mut [u8],
) -> u64
    ensures { PlayerAnswer file.now config.old waiting.old Output result config.new waiting.new }
{
    let a = player_bytes::play_bytes(file, config, waiting, Move::Output);
    answers::played(a)
}
