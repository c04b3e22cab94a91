// Whether a transition was met before: nearly always one place of a small array tells.
ghost use Rattle.std.specs.Prelude.{◌≡◌};
ghost use Rattle.table.specs.Rows.{said};
ghost use Rattle.table.specs.Seen.{mix_of, key_of, place_of, suspect, noted};

use crate::Row;

// Four numbers mixed, by few products; nothing wraps.
pub fn mixed(a: u32, b: u32, c: u32, d: u16) -> u64
    ensures { result ≡ mix_of a b c d }
{
    u64::from(a) * 332816339
        + u64::from(b) * 510510511
        + u64::from(c) * 479001599
        + u64::from(d) * 2654435769
}

// The seven numbers mixed.
pub(crate) fn key(r: Row) -> u64
    ensures { result ≡ key_of (said r) }
{
    mixed(
        u32::from(r.from) + u32::from(r.input) * 65536,
        u32::from(r.output) + u32::from(r.to) * 65536,
        u32::from(r.u) + u32::from(r.v) * 65536,
        r.d,
    )
}

// Its place among so many: few rows are told apart in few places, which are sooner cleared.
fn place(size: usize, key: u64) -> usize
    ensures { result ≡ place_of size key }
{
    // The place is below 2,048: nothing is cut off.
    if size < 2048 {
        return (key / 4194304 % 256) as usize;
    }
    (key / 4194304 % 2048) as usize
}

// Whether its place leaves it open that a transition with this key was met; then it is marked. All places are 0 before the first.
// Its contract is an equation: of && under one the goals stay open.
pub fn mark(seen: &mut [u8], key: u64) -> bool
    ensures { (result ≡ suspect seen.old key) × (seen.new ≡ noted seen.old key) }
{
    let k = place(seen.len(), key);
    if seen.len() <= k {
        return false;
    }
    let m = (key / 8589934592 % 128 + 1) as u8;
    let x = seen[k];
    if x == 0 {
        seen[k] = m;
        return false;
    }
    seen[k] = 255;
    if x == m {
        return true;
    }
    x == 255
}
