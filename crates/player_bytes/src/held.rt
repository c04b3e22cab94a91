// A configuration and its records out of bytes and back.
ghost use Rattle.std.specs.Prelude.{◌≡◌, ◌++◌, ◌≤◌, length, drop};
ghost use Rattle.wire.specs.Bytes.{placed};
ghost use Rattle.player_bytes.specs.Records.{config_in, config_bytes, record_at, record_bytes, records_to, records_bytes};

use player::Config;
use records::Pending;

// What the bytes of a configuration say.
pub(crate) fn config_in(b: &[u8]) -> Config
    ensures { result ≡ config_in b.now }
{
    Config {
        state: wire::two(b, 0),
        inputs: wire::two(b, 2),
        waiting: wire::two(b, 4),
        timer: wire::four(b, 6),
    }
}

// The configuration in the first ten bytes.
pub(crate) fn put_config(out: &mut [u8], c: Config)
    requires { 10 ≤ length out.old }
    ensures { out.new ≡ config_bytes c ++ drop 10 out.old }
{
    wire::put(out, 0, &[c.state, c.inputs, c.waiting]);
    wire::put(out, 6, &[c.timer]);
}

// The record at k.
fn record_at(b: &[u8], k: usize) -> Pending
    requires { k ≤ 1920 }
    ensures { result ≡ record_at b.now k }
{
    Pending {
        step: wire::two(b, k),
        letter: wire::two(b, k + 2),
        left: wire::four(b, k + 4),
    }
}

// The first 240 records; what is past the end reads as zeros.
pub(crate) fn records_in(b: &[u8]) -> [Pending; 240]
    ensures { result ≡ records_to 240 b.now }
{
    let mut list = [Pending::default(); 240];
    for i in 0..240 {
        list[i] = record_at(b, i * 8);
    }
    list
}

// The record in the eight bytes at k.
fn put_record(out: &mut [u8], k: usize, p: Pending)
    requires k_bound { k ≤ 1912 }
    requires in_bounds { 1920 ≤ length out.old }
    ensures { out.new ≡ placed out.old k (record_bytes p) }
{
    wire::put(out, k, &[p.step, p.letter]);
    wire::put(out, k + 4, &[p.left]);
}

// The records in the first 1,920 bytes.
pub(crate) fn put_records(out: &mut [u8], list: &[Pending; 240])
    requires { 1920 ≤ length out.old }
    ensures { out.new ≡ records_bytes list.now ++ drop 1920 out.old }
{
    // With the length fixed at 1,920 the compiler leaves out a test at each record.
    let held = &mut out[..1920];
    for (i, &p) in list.iter().enumerate() {
        put_record(held, i * 8, p);
    }
}
