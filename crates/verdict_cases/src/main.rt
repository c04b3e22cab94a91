#![tactic(auto)]
// Table-verdict cases, run: each answer with the steps that it names, and whether the rest of the lent memory is as it was lent.
use std::io;

fn main(rt: HostRuntime) -> io::Result<()> {
    scripts::run(&rt)
}
