#![tactic(auto)]
// Cases of replay, of a trace's verdict and of a night, run: each answer, what the call leaves in the lent memory, and whether
// the rest is as it was lent.
use std::io;

fn main(rt: HostRuntime) -> io::Result<()> {
    scripts::run(&rt)
}
