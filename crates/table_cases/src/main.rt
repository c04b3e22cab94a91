#![tactic(auto)]
// Reader cases, run: what each file is answered, and whether writing gives it back.
use std::io;

fn main(rt: HostRuntime) -> io::Result<()> {
    scripts::run(&rt)
}
