// A file that is read and written back, and a table as a value.
use crate::text::{at_most, narrow, part, word_at};
use std::io;
use table::Table;

// Writes the table that was read, and compares with the file.
fn say_back(rt: &impl Print, t: &Table, file: &[u8]) -> io::Result<()> {
    let mut out = [0xa5u8; 4700];
    match table_file::write_table(t, &mut out) {
        Err(r) => println!(rt; "{r}"),
        Ok(n) => {
            let alike = if part(&out, 0, n) == file {
                "alike"
            } else {
                "UNLIKE"
            };
            println!(rt; "read, {n} bytes written back {alike}")
        }
    }
}

// `file`: its length in bytes, a place, how many numbers, and these of two bytes each, stored from that place on over the file before.
pub(crate) fn read_file(rt: &impl Print, numbers: &[u32], file: &mut [u8]) -> io::Result<()> {
    let mut values = [0u16; 4096];
    narrow(numbers, 3, &mut values);
    let n = at_most(numbers, 2, 4096);
    // There is no From of u32 for usize.
    wire::put(file, word_at(numbers, 1) as usize, &values[..n]);
    let size = word_at(numbers, 0) as usize;
    if file.len() < size {
        return Ok(());
    }
    let file = &file[..size];
    let read = table_file::read_table(file);
    match read.answer {
        Err(r) => println!(rt; "{r}"),
        Ok(()) => say_back(rt, &read.table, file),
    }
}

// `check`: the table as a value.
pub(crate) fn check_value(rt: &impl Print, t: &Table) -> io::Result<()> {
    match table::check(t) {
        Err(r) => println!(rt; "{r}"),
        Ok(()) => println!(rt; "sound"),
    }
}
