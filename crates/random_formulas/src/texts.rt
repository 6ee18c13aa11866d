// A tree's text, in brackets where the grouping needs them and here and there without need. A task is a byte to write, the end of an
// operand of ! ^ ~ (256), or a part (1,024 + 4 * place + 0, 1, 2 for an operand that may be a sum, a product, a factor).
use crate::cells::{BYTES, Cells, DEEPEST, DEPTH, START, TASK, TASKS, TEXT, at, roll, set};
use crate::trees::{left_of, measure};
use fields::{byte_at, part};

// One task more, none for 0.
fn push(cells: &mut Cells, task: u64) {
    let n = cells[TASKS] % 512;
    set(cells, TASK + n as usize, task);
    cells[TASKS] = n + task.min(1);
}

fn pop(cells: &mut Cells) -> u64 {
    let n = (cells[TASKS] % 1024 + 511) % 512;
    cells[TASKS] = n;
    at(cells, TASK + n as usize)
}

// So many bytes more, one or none.
pub fn write_some(cells: &mut Cells, b: u64, some: u64) {
    let n = cells[BYTES] % 4096;
    set(cells, TEXT + n as usize, b);
    cells[BYTES] = n + some % 2;
}

// One byte more.
pub fn write(cells: &mut Cells, b: u8) {
    write_some(cells, u64::from(b), 1);
}

pub fn write_bytes(cells: &mut Cells, s: &[u8]) {
    for b in s {
        write(cells, *b);
    }
}

// The part here, so much deeper, counts for the greatest depth; its operands are so much deeper again.
fn deepen(cells: &mut Cells, outer: u64, inner: u64) {
    let here = cells[DEPTH] % 4096 + outer % 2;
    cells[DEEPEST] = cells[DEEPEST].max(here);
    cells[DEPTH] = here + inner % 2;
}

// The bytes that begin a part of a kind: of a timer and a latch all up to the bracket.
fn write_sign(cells: &mut Cells, kind: u64) {
    let k = (kind % 13) as usize;
    let width = usize::from(byte_at(b"\x01\x01\x00\x01\x01\x01\x04\x04\x03\x00\x00\x03\x03", k));
    write_bytes(
        cells,
        part(
            b"0   1       !   ^   ~   TON(TOF(TP(         SR( RS( ",
            k * 4,
            k * 4 + width,
        ),
    );
}

// Where the bytes of a name, or of a length and its comma, stand among them all, and how many they are.
fn value_from(kind: u64, value: u64) -> usize {
    if kind == 2 {
        (value % 16) as usize
    } else if value < 10 {
        16 + 2 * value as usize
    } else {
        36
    }
}

fn value_width(kind: u64, value: u64) -> usize {
    match kind {
        2 => 1,
        6..=8 if value < 10 => 2,
        6..=8 => 11,
        _ => 0,
    }
}

fn write_value(cells: &mut Cells, kind: u64, value: u64) {
    let from = value_from(kind, value) % 64;
    let to = from + value_width(kind, value) % 64;
    write_bytes(
        cells,
        part(b"abcdefghijklmnop0,1,2,3,4,5,6,7,8,9,1073741824,", from, to),
    );
}

// The task of a part.
fn part_task(place: usize, level: u64) -> u64 {
    1024 + 4 * (place % 256) as u64 + level % 4
}

// The tasks of a part's operands, the last to be done first, 0 for none. The right operand ends just before i; that of a chain is a level
// up, and the operator stands between the two.
fn tasks_of(kind: u64, left: usize, i: usize) -> [u64; 4] {
    let right = i % 256 + 255;
    match kind {
        0..=2 => [0; 4],
        3..=5 => [256, part_task(right, 2), 0, 0],
        6..=8 => [41, part_task(right, 0), 0, 0],
        9 => [part_task(right, 2), 46, part_task(left, 1), 0],
        10 => [part_task(right, 1), 43, part_task(left, 0), 0],
        _ => [41, part_task(right, 0), 44, part_task(left, 0)],
    }
}

fn level_of(kind: u64) -> u64 {
    match kind {
        9 => 1,
        10 => 0,
        _ => 2,
    }
}

// How much deeper the operands of a kind stand.
fn inner(kind: u64) -> u64 {
    match kind {
        0..=2 | 9 | 10 => 0,
        _ => 1,
    }
}

// How many brackets are opened: one where the grouping needs it or it is drawn.
fn brackets(drawn: u64, has: u64, level: u64) -> u64 {
    u64::from(drawn == 0 || has < level)
}

fn word_of(cells: &Cells, i: usize) -> u64 {
    let from = (cells[START] % 4096) as usize;
    at(cells, from + i % 256)
}

// The bytes that begin a part, in so many brackets.
fn begun(cells: &mut Cells, open: u64, kind: u64, value: u64) {
    write_some(cells, 40, open);
    push(cells, open % 2 * 41);
    deepen(cells, open, inner(kind));
    write_sign(cells, kind);
    write_value(cells, kind, value);
}

fn placed(cells: &mut Cells, i: usize, level: u64) {
    let word = word_of(cells, i);
    let open = brackets(roll(cells, 12), level_of(word % 16), level);
    begun(cells, open, word % 16, word / 16);
    let left = left_of(cells, i);
    for task in tasks_of(word % 16, left, i) {
        push(cells, task);
    }
}

// The depth after a task that is no part.
fn depth_after(n: u64, task: u64) -> u64 {
    if task < 256 && task != 41 {
        n
    } else {
        (n % 4096).saturating_sub(1)
    }
}

fn task(cells: &mut Cells, task: u64) {
    if task < 1024 {
        write_some(cells, task, u64::from(task < 256));
        cells[DEPTH] = depth_after(cells[DEPTH], task);
        return;
    }
    placed(cells, ((task - 1024) / 4 % 256) as usize, task % 4);
}

pub fn cleared(cells: &mut Cells) {
    cells[TASKS] = 0;
    cells[BYTES] = 0;
    cells[DEPTH] = 0;
    cells[DEEPEST] = 0;
}

fn tasks(cells: &mut Cells) {
    for _ in 0..4096 {
        if cells[TASKS] == 0 {
            return;
        }
        let next = pop(cells);
        task(cells, next);
    }
}

// The task of the last of n parts, none of none.
fn last_task(n: usize) -> u64 {
    if n == 0 { 0 } else { part_task(n - 1, 0) }
}

// Writes the tree of n parts from a place on; the cells then have the number of bytes and the greatest depth.
pub fn written(cells: &mut Cells, from: usize, n: usize) {
    cleared(cells);
    cells[START] = (from % 4096) as u64;
    measure(cells, from, n);
    push(cells, last_task(n));
    tasks(cells);
}
