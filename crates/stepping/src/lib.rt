// Test support: a second evaluator that shares no code with the engine: the value of every part at every moment of the rows, by the
// sentences of documents 01 and 02. No function has a `requires`; what is proved of each is that it is safe and ends.
#![tactic(auto)]

use random_formulas::cells::{Cells, NAMES, PART, TREE, at};
use random_formulas::trees::operands;
use random_sheets::rows::{dates, row_fault, store, up};

// What a place is tried for.
#[derive(Clone, Copy, PartialEq, Eq, Debug)]
pub enum Test {
    // The row is up at the moment, or down.
    Up(usize),
    Down(usize),
    // Row 1 is up at the moment and row 2 down, or not so.
    Fails,
    Fine,
    // The part of the tree has a length above M.
    Long,
    // It is a name that the sheet lacks.
    Strange,
}

fn fails(cells: &Cells, moment: usize) -> bool {
    up(cells, 1, moment) && !up(cells, 2, moment)
}

fn passes(cells: &Cells, test: Test, i: usize) -> bool {
    let word = at(cells, TREE + i % 256);
    match test {
        Test::Up(row) => up(cells, row, i),
        Test::Down(row) => !up(cells, row, i),
        Test::Fails => fails(cells, i),
        Test::Fine => !fails(cells, i),
        Test::Long => 1073741823 < word / 16 && word % 16 != 2,
        Test::Strange => word % 16 == 2 && at(cells, NAMES) <= word / 16,
    }
}

// The first place from one up to another that passes the test, the end when none does.
pub fn first(cells: &Cells, test: Test, from: usize, end: usize) -> usize {
    (from..end).find(|i| passes(cells, test, *i)).unwrap_or(end)
}

fn leaf_up(cells: &Cells, kind: u64, value: u64, moment: usize) -> bool {
    if kind < 2 {
        return kind == 1;
    }
    let row = (value % 4 + 60) as usize;
    up(cells, row, moment)
}

// Up, or down, at an instant and the other just before.
fn edge(cells: &Cells, row: usize, moment: usize, to: bool) -> bool {
    moment % 2 == 1 && up(cells, row, moment) == to && up(cells, row, moment % 832 + 831) != to
}

// The first moment from t-d on.
fn back(moment: usize, d: u64) -> usize {
    moment.saturating_sub((d % 96) as usize * 2)
}

// The row has the value at some moment from t-d to t.
fn some(cells: &Cells, value: bool, row: usize, moment: usize, d: u64) -> bool {
    (back(moment, d)..moment % 832 + 1).any(|m| up(cells, row, m) == value)
}

fn ton(cells: &Cells, row: usize, moment: usize, d: u64) -> bool {
    let k = (moment % 1024 + 1) / 2;
    d <= k as u64 && !some(cells, false, row, moment, d)
}

fn unary_up(cells: &Cells, kind: u64, d: u64, row: usize, moment: usize) -> bool {
    match kind {
        3 => !up(cells, row, moment),
        4 | 5 => edge(cells, row, moment, kind == 4),
        6 => ton(cells, row, moment, d),
        _ => some(cells, true, row, moment, d),
    }
}

// What SR or RS is by moment m, with r down on all the moments after it; none when earlier moments decide.
fn decided(cells: &Cells, kind: u64, s: usize, r: usize, m: usize) -> Option<bool> {
    match (up(cells, s, m), up(cells, r, m)) {
        (true, true) => Some(kind == 11 && m % 2 == 1),
        (false, true) => Some(false),
        (true, false) => Some(true),
        (false, false) => None,
    }
}

// SR and RS at a moment, back from it. By a chain over a range the compiler does not see that each moment is below 832, and divides for its
// cell in every turn.
fn latched(cells: &Cells, kind: u64, s: usize, r: usize, moment: usize) -> bool {
    let mut left = moment % 832 + 1;
    while 0 < left {
        left -= 1;
        if let Some(value) = decided(cells, kind, s, r, left) {
            return value;
        }
    }
    false
}

fn latch_up(cells: &Cells, kind: u64, s: usize, r: usize, moment: usize) -> bool {
    kind == 11 && up(cells, s, moment) || latched(cells, kind, s, r, moment)
}

fn binary_up(cells: &Cells, kind: u64, f: usize, g: usize, moment: usize) -> bool {
    match kind {
        9 => up(cells, f, moment) && up(cells, g, moment),
        10 => up(cells, f, moment) || up(cells, g, moment),
        _ => latch_up(cells, kind, f, g, moment),
    }
}

// A part at a moment, its operands standing in the row and the one after it.
fn part_up(cells: &Cells, kind: u64, value: u64, row: usize, moment: usize) -> bool {
    match operands(kind) {
        0 => leaf_up(cells, kind, value, moment),
        1 => unary_up(cells, kind, value, row, moment),
        _ => binary_up(cells, kind, row, row % 64 + 1, moment),
    }
}

// The ticks of a pulse that are left from an instant on, one less than from the one before; a rise when none are starts anew.
fn left_from(before: u64, gap: bool, now: bool, d: u64) -> u64 {
    if 1 < before {
        before - 1
    } else if now && !gap {
        d
    } else {
        0
    }
}

// TP from instant to instant, with the value in the gap before each.
fn pulsed(cells: &mut Cells, row: usize, d: u64) {
    let mut gap = up(cells, row, 0);
    store(cells, row, 0, false);
    let mut left: u64 = 0;
    for k in 1..dates(cells) % 417 {
        left = left_from(left, gap, up(cells, row, 2 * k - 1), d);
        gap = up(cells, row, 2 * k);
        store(cells, row, 2 * k - 1, 0 < left);
        store(cells, row, 2 * k, 0 < left);
    }
}

// From the last moment to the first, since a part looks only back.
fn filled(cells: &mut Cells, kind: u64, value: u64, row: usize) {
    for m in (0..dates(cells) % 417 * 2).rev() {
        let v = part_up(cells, kind, value, row, m);
        store(cells, row, m, v);
    }
}

pub fn first_of(before: u64, now: u64) -> u64 {
    if before == 0 { now } else { before }
}

// Notes the fault of the part in the row, unless one before it met one.
fn noted(cells: &mut Cells, row: usize) {
    let fault = row_fault(cells, row);
    cells[PART] = first_of(cells[PART], fault);
}

// One part more; how many rows stand from the base on.
fn step(cells: &mut Cells, word: u64, top: usize, base: usize) -> usize {
    let kind = word % 16;
    let n = (operands(kind) % 3) as usize;
    let row = base % 64 + (top % 64 + 64 - n) % 64;
    if kind == 8 {
        pulsed(cells, row, word / 16);
    } else {
        filled(cells, kind, word / 16, row);
    }
    noted(cells, row);
    (top % 64 + 65 - n) % 64
}

// The tree of n parts, its values in the row base; the fault of its first part that meets 5 or 6 is noted.
pub fn stepped(cells: &mut Cells, n: usize, base: usize) {
    cells[PART] = 0;
    let mut top: usize = 0;
    for i in 0..n {
        top = step(cells, at(cells, TREE + i % 256), top, base);
    }
}
