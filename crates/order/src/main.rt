#![tactic(auto)]
// Prints whether the table file on standard input keeps request order, in the room that the answer always needs.
use std::io;

fn main(rt: HostRuntime) -> io::Result<()> {
    let Some(t) = saying::read_input(&rt)? else {
        return Ok(());
    };
    let mut trace = [0u16; 270];
    let mut stamps = [0u32; 270];
    let v = table_order::order_table(&t, &mut trace, &mut stamps);
    saying::on_order(&rt, v, &trace, &stamps)
}
