#![tactic(auto)]
// Judges the table file on standard input, and prints the verdict in the room that it always needs.
use std::io;

fn main(rt: HostRuntime) -> io::Result<()> {
    let Some(t) = saying::read_input(&rt)? else {
        return Ok(());
    };
    let mut trace = [0u16; 270];
    let mut stamps = [0u32; 540];
    let v = table_verdict::judge_table(&t, &mut trace, &mut stamps);
    saying::on_table(&rt, v, &trace, &stamps)
}
