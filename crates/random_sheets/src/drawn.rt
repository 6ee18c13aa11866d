// Random sheets: signals in the rows from 60 on, and the sheet's bytes. The times are ordinary (changes up to date 12), far (changes near
// M) or long (changes up to date 330, at most of the dates; those of the second signal at most at every second date, so that pulses of it
// stand apart).
use crate::rows::{dates, store, words};
use random_formulas::cells::{BYTES, Cells, DATES, FIRST, LAST, SHIFT, TEXT, roll, set};
use random_formulas::texts::{cleared, write, write_bytes};

fn times(cells: &mut Cells, dates: u64, first: u64, last: u64, shift: u64) {
    cells[DATES] = dates;
    cells[FIRST] = first;
    cells[LAST] = last;
    cells[SHIFT] = shift;
}

pub fn ordinary_times(cells: &mut Cells) {
    times(cells, 96, 1, 12, 0);
}

// The signals change at columns 89 to 100; M is one of the columns 100 to 103.
pub fn far_times(cells: &mut Cells) {
    let m = roll(cells, 4) % 4 + 100;
    times(cells, 192, 89, 100, 1073741823 - m);
}

pub fn long_times(cells: &mut Cells) {
    times(cells, 416, 1, 330, 0);
}

// What was drawn for a column, 12 where no signal changes.
fn kept_or(drawn: u64, k: u64, first: u64, last: u64) -> u64 {
    if k < first || last < k { 12 } else { drawn }
}

// The same of a row at long times: those of row 61 change at most of the even dates.
fn spaced(drawn: u64, row: usize, k: usize) -> u64 {
    if row != 61 {
        drawn
    } else if k % 2 == 0 && drawn < 10 {
        0
    } else {
        12
    }
}

// The value at a column, v having stood before.
fn value_at(drawn: u64, last: u64, v: bool) -> bool {
    if last == 330 {
        (drawn < 7) != v
    } else if drawn < 4 {
        drawn % 2 == 1
    } else {
        v
    }
}

// The value after it.
fn value_after(drawn: u64, last: u64, v: bool) -> bool {
    if last != 330 && drawn < 4 {
        drawn / 2 == 1
    } else {
        v
    }
}

// The values at a column and after it, v having stood before; the value after it.
fn tick(cells: &mut Cells, row: usize, k: usize, v: bool) -> bool {
    let r = roll(cells, 12);
    let last = cells[LAST];
    let kept = kept_or(r, k as u64, cells[FIRST], last);
    let drawn = if last == 330 {
        spaced(kept, row, k)
    } else {
        kept
    };
    let after = value_after(drawn, last, v);
    store(cells, row, k % 416 * 2 + 831, value_at(drawn, last, v));
    store(cells, row, k % 416 * 2, after);
    after
}

fn signal(cells: &mut Cells, row: usize) {
    let mut v = roll(cells, 2) == 0;
    store(cells, row, 0, v);
    let end = dates(cells);
    for k in 1..end {
        v = tick(cells, row, k, v);
    }
}

// Random values for the three signals.
pub fn signals(cells: &mut Cells) {
    signal(cells, 60);
    signal(cells, 61);
    signal(cells, 62);
}

// The name, zeros, the word count and the words.
fn entry(cells: &mut Cells, i: usize) {
    write(cells, (i % 16) as u8 + 97);
    write_bytes(cells, b"\x00\x00\x00\x00\x00\x00\x00\x00\x00");
    let start = (cells[BYTES] % 4096) as usize;
    words(cells, i % 4 + 60);
    let end = (cells[BYTES] % 4096) as usize;
    set(
        cells,
        TEXT + (start + 4094) % 4096,
        ((end + 4096 - start) % 4096 / 4) as u64,
    );
}

// Writes the sheet of the first `many` signals.
pub fn sheet(cells: &mut Cells, many: usize) {
    cleared(cells);
    write_bytes(cells, b"SGL\x01\x00\x00\x00");
    cells[TEXT + 5] = (many % 4) as u64;
    for i in 0..many {
        entry(cells, i);
    }
}
