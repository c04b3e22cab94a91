#![tactic(auto)]
// Request-order cases, run: each answer with the transitions at K and M and the early word, and whether the rest of the lent memory is as it was lent.
use std::io;

fn main(rt: HostRuntime) -> io::Result<()> {
    scripts::run(&rt)
}
