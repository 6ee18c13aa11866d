// Random formulas with their fault number, and spoiled sheets.
use random_formulas::cells::{BYTES, Cells, DEEPEST, Draw, SEED, TEXT, TREE, drawn, roll, set};
use random_formulas::texts::{write_some, written};
use random_formulas::trees::grow;
use stepping::{Test, first};

// How many parts at least: mostly few.
fn least(seed: u64) -> Draw {
    let many = drawn(seed, 25);
    if many.value == 0 {
        let d = drawn(many.seed, 20);
        return Draw {
            seed: d.seed,
            value: d.value % 20 + 18,
        };
    }
    let d = drawn(many.seed, 11);
    Draw {
        seed: d.seed,
        value: d.value % 11 + 1,
    }
}

// A tree, how many parts it has.
pub fn tree(cells: &mut Cells) -> usize {
    let parts = least(cells[SEED]);
    cells[SEED] = parts.seed;
    grow(cells, TREE, parts.value as usize)
}

fn tree_fault_of(bytes: u64, long: bool, n: usize, depth: u64, strange: bool) -> u64 {
    if 1024 < bytes {
        10
    } else if long {
        8
    } else if 32 < n || 16 < depth {
        12
    } else if strange {
        13
    } else {
        0
    }
}

fn tree_fault(cells: &Cells, n: usize) -> u64 {
    tree_fault_of(
        cells[BYTES],
        first(cells, Test::Long, 0, n) < n,
        n,
        cells[DEEPEST],
        first(cells, Test::Strange, 0, n) < n,
    )
}

// The byte that no formula ends with, of the drawn number; how many of it.
fn stray(r: u64) -> u64 {
    match r {
        2 => 43,
        3 => 41,
        _ => 32,
    }
}

fn strays(r: u64) -> u64 {
    u64::from(2 <= r && r <= 4)
}

fn spoiled_bytes(r: u64, n: u64) -> u64 {
    if r < 2 { r * 1025 } else { n }
}

fn spoiled_fault(r: u64, fault: u64) -> u64 {
    match r {
        0 | 1 => 10,
        2..=4 => 11,
        _ => fault,
    }
}

// Writes the tree, and spoils some texts; the fault.
pub fn text(cells: &mut Cells, n: usize) -> u64 {
    written(cells, TREE, n);
    let fault = tree_fault(cells, n);
    let r = roll(cells, 250);
    write_some(cells, stray(r), strays(r));
    cells[BYTES] = spoiled_bytes(r, cells[BYTES]);
    spoiled_fault(r, fault)
}

// A sheet fault, most times none.
pub fn sheet_fault(r: u64) -> u64 {
    if r < 4 { r + 14 } else { 0 }
}

// The place of the version, of the first name and of the first word; of another fault one that nothing reads.
fn spoiled_place(fault: u64) -> usize {
    match fault {
        14 => TEXT + 3,
        16 => TEXT + 7,
        17 => TEXT + 17,
        _ => 31,
    }
}

fn spoiled_byte(fault: u64) -> u64 {
    if fault == 16 { 65 } else { 2 }
}

fn more_bytes(fault: u64) -> u64 {
    u64::from(fault == 15)
}

// Spoils the sheet written so that it has the fault: by a byte more, or by another in its place: version 2, the name A, the first word 2.
pub fn spoil(cells: &mut Cells, fault: u64) {
    write_some(cells, 0, more_bytes(fault));
    set(cells, spoiled_place(fault), spoiled_byte(fault));
}
