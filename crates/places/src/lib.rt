#![tactic(auto)]
// Lists in bytes: what a call on values is handed, and what it gives back. Every function is total.
ghost use Rattle.std.specs.Prelude.{◌≡◌, take};
ghost use Rattle.wire.specs.Bytes.{bytes_by, placed};
ghost use Rattle.places.specs.Places.{DecodedBy};

use wire::Number;

pub mod shown;

// The numbers of W bytes that a call is handed, and how many: none where a byte is left over or they have no room.
pub fn numbers_in<const W: usize, N: Number<W>>(b: &[u8], out: &mut [N]) -> usize
    ensures { DecodedBy N.number W b.now out.old result out.new }
{
    let n = b.len() / W;
    let rest = b.len() % W;
    if 0 < rest || out.len() < n {
        return 0;
    }
    wire::take(b, out);
    n
}

// The first n numbers written back, W bytes each.
pub fn put_back<const W: usize, N: Number<W>>(out: &mut [u8], vals: &[N], n: usize)
    ensures { out.new ≡ placed out.old 0 (bytes_by N.digits (take n vals.now)) }
{
    let k = wire::lesser(n, vals.len());
    wire::put(out, 0, &vals[..k]);
}
