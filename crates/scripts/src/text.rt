// Words and numbers in text, and numbers in lists. A place that a list lacks counts as 0.
ghost use Rattle.std.specs.Prelude.{◌≤◌};

// How many numbers were read, and where the next word begins.
#[derive(Clone, Copy)]
pub(crate) struct Read {
    pub(crate) count: usize,
    pub(crate) end: usize,
}

// The place after the first mark from a place on, or the end.
pub(crate) fn past(all: &[u8], from: usize, mark: u8) -> usize {
    for i in from..all.len() {
        if all[i] == mark {
            return i + 1;
        }
    }
    all.len()
}

// The text from a place to another, or nothing.
pub(crate) fn part(all: &[u8], from: usize, end: usize) -> &[u8] {
    all.get(from..end).unwrap_or(&[])
}

fn digit(c: u8) -> Option<u32> {
    match c {
        b'0'..=b'9' => Some(u32::from(c - b'0')),
        _ => None,
    }
}

// The numbers from a place on, each with a space or a new line behind it, up to the next letter. A number counts by its low 32 bits; what has
// no place in `out` is dropped.
pub(crate) fn numbers(all: &[u8], from: usize, out: &mut [u32]) -> Read {
    let mut count = 0;
    let mut open: Option<u32> = None;
    for i in from..all.len() {
        let c = all[i];
        if 64 < c {
            return Read { count, end: i };
        }
        if let Some(d) = digit(c) {
            open = Some(open.unwrap_or(0).wrapping_mul(10).wrapping_add(d));
        } else {
            if let Some(x) = open
                && count < out.len()
            {
                out[count] = x;
                count += 1;
            }
            open = None;
        }
    }
    Read {
        count,
        end: all.len(),
    }
}

// The number at i.
pub(crate) fn word_at(numbers: &[u32], i: usize) -> u32 {
    saying::at(numbers, i, 0)
}

fn low(x: u32) -> u16 {
    (x % 65536) as u16
}

// The low 16 bits of the number at i, or what stands in its stead.
pub(crate) fn short_at(numbers: &[u32], i: usize, none: u16) -> u16 {
    low(saying::at(numbers, i, u32::from(none)))
}

// The numbers from a place on, as far as they go, over the first of a list.
pub(crate) fn narrow(numbers: &[u32], from: usize, out: &mut [u16]) {
    for (x, &n) in out.iter_mut().zip(behind(numbers, from)) {
        *x = low(n);
    }
}

// The number at i, or the most that it may be.
pub(crate) fn at_most(numbers: &[u32], i: usize, most: usize) -> usize
    ensures { result ≤ most }
{
    // There is no From of u32 for usize.
    (word_at(numbers, i) as usize).min(most)
}

// What stands from a place on, or nothing.
pub(crate) fn behind<T>(list: &[T], from: usize) -> &[T] {
    list.get(from..).unwrap_or(&[])
}

// The first n numbers, or all.
pub(crate) fn front(numbers: &[u32], n: usize) -> &[u32] {
    numbers.get(..n).unwrap_or(numbers)
}
