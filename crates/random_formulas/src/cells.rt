// The cells, one array of numbers: their places by name, elements that are 0 past the end, and random numbers.
pub const SEED: usize = 0;
// The number of tasks left, of bytes written, the depth of the part being written and the greatest so far.
pub const TASKS: usize = 1;

pub const BYTES: usize = 2;

pub const DEPTH: usize = 3;

pub const DEEPEST: usize = 4;
// How many signals the sheet has.
pub const NAMES: usize = 5;
// Where the tree being written begins.
pub const START: usize = 6;
// How many dates a row has.
pub const DATES: usize = 7;
// How many bytes the sheet and three formulas have.
pub const LENGTHS: usize = 8;
// By how much the dates of a row's far part are later than their columns.
pub const SHIFT: usize = 12;
// The first column at which signals change, and the last.
pub const FIRST: usize = 13;

pub const LAST: usize = 14;
// 5 or 6 of the first part stepped that meets one, else 0.
pub const PART: usize = 15;
// For the program's own numbers, 16 to 63.
pub const NOTES: usize = 16;

pub const TALLY: usize = 32;
// A tree of at most 256 parts, and how many parts each of its parts has.
pub const TREE: usize = 256;

pub const SIZES: usize = 512;
// For the program's own trees, 768 to 1279.
pub const TREES: usize = 768;

pub const TASK: usize = 1280;
// The bytes written, at most 4,096.
pub const TEXT: usize = 2048;
// 64 rows of 832 moments.
pub const ROWS: usize = 8192;
// The bytes of the sheet and of three formulas, 4,096 each.
pub const SLOTS: usize = 61440;

pub type Cells = [u64; 77824];

pub fn whole() -> Cells {
    [0; 77824]
}

pub fn at(cells: &Cells, i: usize) -> u64 {
    cells.get(i).copied().unwrap_or(0)
}

pub fn set(cells: &mut Cells, i: usize, v: u64) {
    if let Some(cell) = cells.get_mut(i) {
        *cell = v;
    }
}

// So many more of a kind.
pub fn count(cells: &mut Cells, i: usize, more: u64) {
    let n = at(cells, i) % 1000000000;
    set(cells, i, n + more % 16);
}

// A seed, and what was drawn when it came.
#[derive(Clone, Copy)]
pub struct Draw {
    pub seed: u64,
    pub value: u64,
}

// A random number below n, 0 for 0, of the seed after the one given.
pub fn drawn(seed: u64, n: u64) -> Draw {
    let next = seed % 2147483647 * 48271 % 2147483647;
    Draw {
        seed: next,
        value: (next / 16).checked_rem(n).unwrap_or(0),
    }
}

// A random number below n, 0 for 0; the seed moves on.
pub fn roll(cells: &mut Cells, n: u64) -> u64 {
    let d = drawn(cells[SEED], n);
    cells[SEED] = d.seed;
    d.value
}
