// The reader: record by record; of each it tests four bytes left, its kind, its length, its numbers.
ghost use Rattle.std.specs.Prelude.{◌≡◌, ◌+◌, ◌*◌, ◌≤◌, length, drop};
ghost use Rattle.table.specs.Rows.{said, put_all};
ghost use Rattle.table.specs.Check.{has, same};
ghost use Rattle.table.specs.Seen.{key_of};
ghost use Rattle.table_file.specs.File.{row_in, frame_in, opened_in, head_in, finish_of};
ghost use Rattle.table_file.specs.Records.{record_at, recorded, Next, Admitted, RowsOutcome, Kept, TakenOutcome, Scanned};

use crate::Head;
use table::ranges::in_range;
use table::rows::put_row;
use table::seen::{mark, mixed};
use table::{Cells, Refusal, Row, head_fine};

// The head's two numbers from its body.
fn opened(body: &[u8]) -> Result<(u16, u16), Refusal>
    ensures { result ≡ opened_in body.now }
{
    let states = wire::two(body, 0);
    let initial = wire::two(body, 2);
    if head_fine(states, initial) {
        Ok((states, initial))
    } else {
        Err(Refusal::OutOfRange(0))
    }
}

// The first record must be a head.
fn head(file: &[u8]) -> Result<(u16, u16), Refusal>
    ensures { result ≡ head_in file.now }
{
    if file.len() < 4 {
        return Err(Refusal::Cut(0));
    }
    if wire::two(file, 2) != 1 {
        return Err(Refusal::Misplaced(0));
    }
    if wire::two(file, 0) != 6 || file.len() < 8 {
        return Err(Refusal::Cut(0));
    }
    opened(&file[4..8])
}

// A transition's seven numbers from its body.
fn fields(body: &[u8]) -> Row
    ensures { result ≡ row_in body.now }
{
    Row {
        from: wire::two(body, 0),
        input: wire::two(body, 2),
        output: wire::two(body, 4),
        to: wire::two(body, 6),
        u: wire::two(body, 8),
        v: wire::two(body, 10),
        d: wire::two(body, 12),
    }
}

// The record at an offset after the head: a transition, or the end.
fn frame(file: &[u8], at: usize) -> Result<Option<Row>, Refusal>
    requires { at ≤ length file.now }
    ensures { result ≡ frame_in at (drop at file.now) }
{
    if file.len() - at < 4 {
        return Err(Refusal::Cut(at));
    }
    let kind = wire::two(file, at + 2);
    let size = wire::two(file, at);
    if kind == 2 {
        if size != 16 || file.len() - at < 18 {
            return Err(Refusal::Cut(at));
        }
        return Ok(Some(fields(&file[at + 4..at + 18])));
    }
    if kind != 3 {
        return Err(Refusal::Misplaced(at));
    }
    if size == 2 {
        return Ok(None);
    }
    Err(Refusal::Cut(at))
}

// The end record must be the last of the file.
fn finish(file: &[u8], at: usize) -> Result<(), Refusal>
    requires { at + 4 ≤ length file.now }
    ensures { result ≡ finish_of at (drop at file.now) }
{
    if 4 < file.len() - at {
        return Err(Refusal::Misplaced(at + 4));
    }
    Ok(())
}

// The transition in record i.
fn record_at(file: &[u8], i: usize) -> Row
    requires { 8 + i * 18 + 18 ≤ length file.now }
    ensures { result ≡ record_at file.now i }
{
    let at = 8 + i * 18;
    fields(&file[at + 4..at + 18])
}

// Whether two bodies hold one transition, by few and wide reads. A ladder: the first that differs tells, and slices would be compared by a call.
fn same_body(a: &[u8], b: &[u8]) -> bool
    ensures { result ≡ same (said (row_in a.now)) (said (row_in b.now)) }
{
    if wire::four(a, 0) != wire::four(b, 0) {
        return false;
    }
    if wire::four(a, 4) != wire::four(b, 4) {
        return false;
    }
    if wire::four(a, 8) != wire::four(b, 8) {
        return false;
    }
    if wire::two(a, 12) != wire::two(b, 12) {
        return false;
    }
    true
}

// Whether the transition in record n is in one before it. A loop: the goals of a chain that captures the file stay open.
fn has_record(file: &[u8], n: usize) -> bool
    requires { 8 + n * 18 + 18 ≤ length file.now }
    ensures { result ≡ has (said (record_at file.now n)) (recorded file.now n) }
{
    let own = &file[8 + n * 18 + 4..8 + n * 18 + 18];
    for i in 0..n {
        let at = 8 + i * 18;
        if same_body(&file[at + 4..at + 18], own) {
            return true;
        }
    }
    false
}

// The key of the transition in a body, by few and wide reads.
fn key_in(body: &[u8]) -> u64
    ensures { result ≡ key_of (said (row_in body.now)) }
{
    mixed(
        wire::four(body, 0),
        wire::four(body, 4),
        wire::four(body, 8),
        wire::two(body, 12),
    )
}

// 3, 4, 5 of the transition in record n. Marks tell it from nearly all before it; what they leave open the file tells.
fn admit(
    file: &[u8],
    seen: &mut [u8],
    states: u16,
    n: usize,
    at: usize,
    t: Row,
) -> Result<(), Refusal>
    requires { Next file.now seen.old n at t }
    ensures { Admitted file.now states at n t result seen.new }
{
    if 256 <= n {
        return Err(Refusal::Full(at));
    }
    if !in_range(states, t) {
        return Err(Refusal::OutOfRange(at));
    }
    if mark(seen, key_in(&file[at + 4..at + 18])) && has_record(file, n) {
        return Err(Refusal::Repeated(at));
    }
    Ok(())
}

// The record at an offset, after n transitions: whether it is one more. Matched on in the loop itself, the transition would be carried from turn to turn.
fn take_record(
    file: &[u8],
    seen: &mut [u8],
    states: u16,
    n: usize,
    at: usize,
) -> Result<bool, Refusal>
    requires { Kept file.now seen.old states n at }
    ensures { TakenOutcome states file.now seen.new n at result }
{
    let Some(t) = frame(file, at)? else {
        finish(file, at)?;
        return Ok(false);
    };
    admit(file, seen, states, n, at, t)?;
    Ok(true)
}

// The records after the head, by marks. What a record says ends the loop, so its number is counted by hand.
fn rows_by(file: &[u8], states: u16, seen: &mut [u8]) -> Result<usize, Refusal>
    requires { (8 ≤ length file.now) × (256 ≤ length seen.old) }
    ensures { RowsOutcome states file.now result }
{
    let mut at: usize = 8;
    let mut n: usize = 0;
    // A record tells whether there is one more: no range.
    while take_record(file, seen, states, n, at)? {
        n += 1;
        at += 18;
    }
    Ok(n)
}

// The same, with marks as many as they need: 300 bytes have no more than 16 transitions.
fn check_rows(file: &[u8], states: u16) -> Result<usize, Refusal>
    requires { 8 ≤ length file.now }
    ensures { RowsOutcome states file.now result }
{
    if file.len() <= 300 {
        rows_by(file, states, &mut [0u8; 256])
    } else {
        rows_by(file, states, &mut [0u8; 2048])
    }
}

// The whole file tested, nothing stored.
pub(crate) fn scan(file: &[u8]) -> Result<Head, Refusal>
    ensures { Scanned file.now result }
{
    let (states, initial) = head(file)?;
    let count = check_rows(file, states)?;
    Ok(Head {
        states,
        initial,
        count,
    })
}

// The transitions in the first n records, stored.
pub(crate) fn take_rows(file: &[u8], n: usize, cells: &mut Cells)
    requires { (n ≤ 256) × (8 + n * 18 ≤ length file.now) }
    ensures { cells.new ≡ put_all cells.old (recorded file.now n) }
{
    for i in 0..n {
        put_row(cells, i, record_at(file, i));
    }
}
