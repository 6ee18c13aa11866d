// Random trees: a tree is its parts, operands before operators, each kind + 16 * value. Kinds: 0 and 1 the constants, 2 a name,
// 3 !, 4 ^, 5 ~, 6 TON, 7 TOF, 8 TP, 9 ., 10 +, 11 SR, 12 RS. The value is the name's number or the length.
use crate::cells::{Cells, Draw, NAMES, SEED, SIZES, at, drawn, set};

pub fn operands(kind: u64) -> u64 {
    match kind {
        0..=2 => 0,
        3..=8 => 1,
        _ => 2,
    }
}

fn part(seed: u64, kind: u64, value: u64) -> Draw {
    Draw {
        seed,
        value: kind % 16 + 16 * (value % 4294967296),
    }
}

fn leaf(seed: u64, names: u64) -> Draw {
    let k = drawn(seed, 14);
    if k.value < 2 {
        return k;
    }
    let strange = drawn(k.seed, 200);
    if strange.value == 0 {
        return part(strange.seed, 2, 3);
    }
    let name = drawn(strange.seed, names);
    part(name.seed, 2, name.value)
}

fn unary(seed: u64) -> Draw {
    let d = drawn(seed, 6);
    let kind = d.value % 6 + 3;
    if kind < 6 {
        return part(d.seed, kind, 0);
    }
    let long = drawn(d.seed, 200);
    if long.value == 0 {
        return part(long.seed, kind, 1073741824);
    }
    let length = drawn(long.seed, 5);
    part(length.seed, kind, length.value)
}

fn binary(seed: u64) -> Draw {
    let d = drawn(seed, 4);
    part(d.seed, d.value % 4 + 9, 0)
}

// The next part, with so many trees waiting for their operator.
fn next_part(seed: u64, names: u64, waiting: u64, full: bool) -> Draw {
    if waiting == 0 {
        return leaf(seed, names);
    }
    if full {
        return binary(seed);
    }
    let k = drawn(seed, 10);
    match k.value {
        0..=2 => unary(k.seed),
        6.. if 1 < waiting => binary(k.seed),
        _ => leaf(k.seed, names),
    }
}

fn waiting_after(waiting: u64, word: u64) -> u64 {
    let n = operands(word % 16) % 3;
    (waiting % 64 + 129 - n) % 128
}

// A random tree of at least so many parts from a place on, and how many it has.
pub fn grow(cells: &mut Cells, from: usize, least: usize) -> usize {
    let names = cells[NAMES];
    let mut waiting: u64 = 0;
    for n in 0..120 {
        let full = least <= n;
        if full && waiting == 1 {
            return n;
        }
        let next = next_part(cells[SEED], names, waiting, full);
        cells[SEED] = next.seed;
        set(cells, from % 4096 + n, next.value);
        waiting = waiting_after(waiting, next.value);
    }
    120
}

fn size(cells: &Cells, i: usize) -> u64 {
    at(cells, SIZES + i % 256)
}

// Where the left operand of the part at i ends; its right operand ends just before i.
pub fn left_of(cells: &Cells, i: usize) -> usize {
    let right = (size(cells, i % 256 + 255) % 256) as usize;
    (i % 256 + 511 - right) % 256
}

fn size_at(cells: &Cells, word: u64, i: usize) -> u64 {
    let n = operands(word % 16);
    if n == 0 {
        return 1;
    }
    let right = size(cells, i % 256 + 255) % 256 + 1;
    if n == 1 {
        return right;
    }
    right + size(cells, left_of(cells, i)) % 256
}

// How many parts each part of the tree from a place on has, itself counted.
pub fn measure(cells: &mut Cells, from: usize, n: usize) {
    for i in 0..n {
        let size = size_at(cells, at(cells, from % 4096 + i % 256), i);
        set(cells, SIZES + i % 256, size);
    }
}
