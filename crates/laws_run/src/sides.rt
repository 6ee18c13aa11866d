// The two sides of a law in the place of a leaf, and the tree around it, as formulas 1, 2 and 3.
// A side is the text of the law table with a letter for a formula and words for a length. The notes hold the two lengths; with these in
// the place of the words a side is a formula, and the formula reader gives its parts.
use fields::{byte_at, part};
use random_calls::kept;
use random_formulas::cells::{Cells, NOTES, TREE, TREES, at, roll, set};
use random_formulas::texts::written;
use random_formulas::trees::{grow, operands};
use signals::Written;
use slices::len_before;

// The letters' trees: 32 words each, the number of parts first.
const LETTERS: usize = 1024;

fn letter_at(q: usize) -> usize {
    LETTERS + q % 6 * 32
}

fn letters_drawn(cells: &mut Cells) {
    for q in 0..6 {
        let least = roll(cells, 3) % 3 + 1;
        let n = grow(cells, letter_at(q) % 2048 + 1, least as usize);
        set(cells, letter_at(q), n as u64);
    }
}

// Puts a part after n parts; how many then.
fn put(cells: &mut Cells, n: usize, word: u64) -> usize {
    let to = n % 256;
    set(cells, TREE + to, word);
    to + 1
}

// Puts so many parts from a place on after n parts; how many then.
fn put_tree(cells: &mut Cells, n: usize, from: usize, parts: usize) -> usize {
    let mut to = n;
    for i in 0..parts {
        to = put(cells, to, at(cells, from % 4096 + i % 256));
    }
    to
}

// The length that the words at the start of a text stand for: the larger, the smaller, d+e, e, d.
fn length(first: u8, second: u8, fifth: u8, d: u64, e: u64) -> u64 {
    match (first, second, fifth) {
        (b't', _, b'l') => d.max(e),
        (b't', _, _) => d.min(e),
        (_, b'+', _) => d % 8 + e % 8,
        (b'e', _, _) => e,
        _ => d,
    }
}

// Where a byte stands: in no length's words, at their start, or in their rest.
#[derive(Clone, Copy, PartialEq, Eq, Debug)]
enum State {
    Outside,
    Start,
    Rest,
}

// Where the byte stands that comes after a byte and the one before it.
fn after(state: State, before: u8, b: u8) -> State {
    match (state, before, b) {
        (_, _, b',') => State::Outside,
        (State::Start | State::Rest, _, _) => State::Rest,
        (State::Outside, b'N' | b'F', b'(') => State::Start,
        _ => State::Outside,
    }
}

// How many bytes a byte gives: none of the rest of a length's words.
fn width(state: State, b: u8) -> usize {
    usize::from(state != State::Rest || b == b',')
}

// The byte at i of a side, or the length that begins there.
fn sign(side: &[u8], i: usize, state: State, d: u64, e: u64) -> u8 {
    let k = i % 65536;
    let b = byte_at(side, k);
    let long = length(b, byte_at(side, k + 1), byte_at(side, k + 4), d, e) % 10;
    if state == State::Start {
        b'0' + long as u8
    } else {
        b
    }
}

// A side with lengths for their words; how many bytes.
fn with_lengths(side: &[u8], d: u64, e: u64, out: &mut [u8; 64]) -> usize {
    let mut n: usize = 0;
    let mut state = State::Outside;
    let mut before: u8 = 0;
    for (i, b) in side.iter().enumerate() {
        out[n % 64] = sign(side, i, state, d, e);
        n = n % 64 + width(state, *b) % 2;
        state = after(state, before, *b);
        before = *b;
    }
    n
}

// A name's letter has a tree; another part is one itself, put here.
const ONE: usize = 1279;

fn from_of(name: bool, letter: usize) -> usize {
    if name { letter % 2048 + 1 } else { ONE }
}

fn many_of(name: bool, parts: u64) -> usize {
    if name { (parts % 32) as usize } else { 1 }
}

// A part, or a letter's tree; a name's place stands from 256 on in its code word.
fn put_part(cells: &mut Cells, n: usize, text: &[u8], word: u64) -> usize {
    let name = word % 16 == 2;
    let letter = letter_at(len_before(b"fghsrp", byte_at(text, (word / 256) as usize)));
    let parts = at(cells, letter);
    cells[ONE] = word;
    put_tree(cells, n, from_of(name, letter), many_of(name, parts))
}

fn put_parts(cells: &mut Cells, n: usize, text: &[u8], code: &[u64; 32], count: usize) -> usize {
    let mut to = n;
    for word in code.iter().take(count) {
        to = put_part(cells, to, text, *word);
    }
    to
}

// Puts the parts of a formula of so many bytes after n parts; how many then.
fn put_formula(cells: &mut Cells, n: usize, side: &[u8; 64], bytes: usize) -> usize {
    let text = part(side, 0, bytes);
    let mut code = [0u64; 32];
    match formulas::read(text, &mut code) {
        Written::Count(count) => put_parts(cells, n, text, &code, count),
        Written::Refused(_) => n,
    }
}

fn put_side(cells: &mut Cells, n: usize, side: &[u8]) -> usize {
    let mut text = [0u8; 64];
    let d = cells[NOTES];
    let e = cells[NOTES + 1];
    let bytes = with_lengths(side, d, e, &mut text);
    put_formula(cells, n, &text, bytes)
}

// The tree around with the side in place of the leaf, as a formula.
fn side_written(cells: &mut Cells, slot: usize, n: usize, leaf: usize, side: &[u8]) {
    let at = leaf % 256;
    let before = put_tree(cells, 0, TREES, at);
    let with = put_side(cells, before, side);
    let parts = put_tree(cells, with, TREES + at + 1, (n % 256 + 511 - at) % 256);
    written(cells, TREE, parts);
    kept(cells, slot);
}

// The last leaf up to a random place; the first part is one.
fn leaf_of(cells: &mut Cells, n: usize) -> usize {
    let last = (roll(cells, n as u64) % 256) as usize;
    (0..last + 1)
        .rev()
        .find(|i| operands(at(cells, TREES + i % 256) % 16) == 0)
        .unwrap_or(0)
}

// Draws the letters and the tree around; how many parts it has.
fn around_drawn(cells: &mut Cells) -> usize {
    letters_drawn(cells);
    let least = roll(cells, 6) % 6 + 1;
    grow(cells, TREES, least as usize)
}

fn lengths_drawn(cells: &mut Cells) {
    let drawn = roll(cells, 25);
    cells[NOTES] = drawn / 5;
    cells[NOTES + 1] = drawn % 5;
}

// Draws the letters, the tree around, its leaf and the lengths, and writes the three formulas.
pub fn sides(cells: &mut Cells, from: &[u8], to: &[u8]) {
    let n = around_drawn(cells);
    let leaf = leaf_of(cells, n);
    lengths_drawn(cells);
    side_written(cells, 1, n, leaf, from);
    side_written(cells, 2, n, leaf, to);
    written(cells, TREES, n);
    kept(cells, 3);
}
