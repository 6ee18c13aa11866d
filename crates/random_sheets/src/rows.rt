// Signals as rows: the value at every moment of at most 416 columns. Moment 2k is the gap, and moment 2k-1 the instant, of column k.
// A column is a date; those from 88 on, the far part, may be dates that are later by a shift, nothing changing from column 84 to 88.
// Rows 60 to 63 hold the sheet's signals.
use random_formulas::cells::{Cells, DATES, ROWS, SHIFT, TEXT, at, set};
use random_formulas::texts::write_some;

fn cell(row: usize, moment: usize) -> usize {
    ROWS + row % 64 * 832 + moment % 832
}

// The value of a row at a moment, as a number and as a bit.
pub fn bit(cells: &Cells, row: usize, moment: usize) -> u64 {
    at(cells, cell(row, moment)) % 2
}

pub fn up(cells: &Cells, row: usize, moment: usize) -> bool {
    bit(cells, row, moment) == 1
}

pub fn store(cells: &mut Cells, row: usize, moment: usize, value: bool) {
    set(cells, cell(row, moment), u64::from(value));
}

// How many columns the rows have.
pub fn dates(cells: &Cells) -> usize {
    (cells[DATES] % 417) as usize
}

// The date of a column.
pub fn date_of(cells: &Cells, column: usize) -> u64 {
    let k = (column % 416) as u64;
    if k < 88 {
        k
    } else {
        k + cells[SHIFT] % 1073741824
    }
}

// A word of a date and the values at it and after it, 0 when both are the value before.
fn word_of(date: u64, before: u64, now: u64, after: u64) -> u64 {
    if now == before && after == before {
        0
    } else {
        date % 4294967296 * 4 + now % 2 * 2 + after % 2
    }
}

// The word of column k, 0 when nothing changes there.
fn change(cells: &Cells, row: usize, column: usize) -> u64 {
    let gap = column % 416 * 2 + 830;
    word_of(
        date_of(cells, column),
        bit(cells, row, gap),
        bit(cells, row, gap + 1),
        bit(cells, row, gap + 2),
    )
}

// So many words, one or none.
fn word(cells: &mut Cells, w: u64, some: u64) {
    for b in ((w % 4294967296) as u32).to_le_bytes() {
        write_some(cells, u64::from(b), some);
    }
}

// Writes the words of a row's list.
pub fn words(cells: &mut Cells, row: usize) {
    let end = dates(cells);
    word(cells, bit(cells, row, 0), 1);
    for k in 1..end {
        let w = change(cells, row, k);
        word(cells, w, u64::from(w != 0));
    }
}

fn byte(cells: &Cells, i: usize, j: usize) -> u8 {
    (at(cells, TEXT + i % 256 * 4 + j % 4) % 256) as u8
}

// The i-th of the words written.
pub fn word_at(cells: &Cells, i: usize) -> u64 {
    u64::from(u32::from_le_bytes([
        byte(cells, i, 0),
        byte(cells, i, 1),
        byte(cells, i, 2),
        byte(cells, i, 3),
    ]))
}

// How many words of a row's list are dated after so many quarters of a tick, the first word counted as 0.
fn words_after(cells: &Cells, row: usize, quarters: u64) -> usize {
    (1..dates(cells))
        .filter(|k| quarters < change(cells, row, *k))
        .count()
}

// 5 when the row's list has over 256 words, 6 when it changes after M, else 0.
pub fn row_fault(cells: &Cells, row: usize) -> u64 {
    if 255 < words_after(cells, row, 0) {
        5
    } else if 0 < words_after(cells, row, 4294967295) {
        6
    } else {
        0
    }
}
