// The notation of a case's arguments. A space ends an argument, a comma a piece of it; the bytes of all arguments stand in one space.
// A piece is a text in quotes, a number (b: of 8 bits, h: of 16, else of 32, low byte first), or @, the bytes that are kept, and @n, the
// first n of them. v*n is n times v, v+s*n are n numbers that rise by s. Every other byte, as in -, stands for nothing.
#![tactic(auto)]

use fields::{byte_at, part};

// What a piece is.
#[derive(Clone, Copy, PartialEq, Eq, Debug)]
enum Kind {
    Nothing,
    // A text that has not ended, from its first byte on, and one that has, from its first byte up to its end.
    Open(usize),
    Text(usize, usize),
    // Numbers of one, two and four bytes.
    Byte,
    Half,
    Word,
    // All that is kept, and the first bytes of it.
    Kept,
    First,
}

// Which number of a piece is being read.
#[derive(Clone, Copy, PartialEq, Eq, Debug)]
enum Field {
    Value,
    Rise,
    Count,
}

// What is read of a piece: its kind; value, rise and count, and which of them is being read; then how many bytes stand in the space, and
// how many arguments have ended.
#[derive(Clone, Copy, PartialEq, Eq, Debug)]
struct Piece {
    kind: Kind,
    value: u64,
    rise: u64,
    count: u64,
    field: Field,
    bytes: usize,
    ended: usize,
}

fn fresh(bytes: usize, ended: usize) -> Piece {
    Piece {
        kind: Kind::Nothing,
        value: 0,
        rise: 0,
        count: 1,
        field: Field::Value,
        bytes,
        ended,
    }
}

fn of_kind(p: Piece, kind: Kind) -> Piece {
    Piece { kind, ..p }
}

fn with(n: u64, b: u8) -> u64 {
    n % 1000000000 * 10 + u64::from(b % 16)
}

// One digit more of the number being read.
fn digit(p: Piece, b: u8) -> Piece {
    let kind = match p.kind {
        Kind::Nothing => Kind::Word,
        Kind::Kept => Kind::First,
        kind => kind,
    };
    match p.field {
        Field::Value => Piece {
            kind,
            value: with(p.value, b),
            ..p
        },
        Field::Rise => Piece {
            kind,
            rise: with(p.rise, b),
            ..p
        },
        Field::Count => Piece {
            kind,
            count: with(p.count, b),
            ..p
        },
    }
}

// The piece after a byte that does not end it; a text ends at the next quote.
fn moved(p: Piece, b: u8, i: usize) -> Piece {
    match (p.kind, b) {
        (Kind::Open(from), b'"') => of_kind(p, Kind::Text(from, i)),
        (Kind::Open(_), _) => p,
        (_, b'"') => of_kind(p, Kind::Open(i.saturating_add(1))),
        (_, b'0'..=b'9') => digit(p, b),
        (_, b'b') => of_kind(p, Kind::Byte),
        (_, b'h') => of_kind(p, Kind::Half),
        (_, b'@') => of_kind(p, Kind::Kept),
        (_, b'+') => Piece {
            field: Field::Rise,
            ..p
        },
        (_, b'*') => Piece {
            field: Field::Count,
            count: 0,
            ..p
        },
        _ => p,
    }
}

// The bytes of all arguments, and where these begin and end.
pub type Space = [u8; 65536];

pub type Ends = [usize; 16];

pub type Words = [u32; 16384];

// Puts bytes at a place, those for which the space has room; the place after all of them. Places go round at twice the space.
fn put_all(space: &mut Space, at: usize, bytes: &[u8]) -> usize {
    let mut to = at;
    for b in bytes {
        let here = to % 131072;
        if let Some(place) = space.get_mut(here) {
            *place = *b;
        }
        to = here + 1;
    }
    to
}

fn put_times(space: &mut Space, at: usize, bytes: &[u8], count: u64) -> usize {
    let mut to = at;
    for _ in 0..count {
        to = put_all(space, to, bytes);
    }
    to
}

// Puts the numbers of a piece, each of so many bytes, at most eight.
fn put_run(space: &mut Space, p: Piece, width: usize) -> usize {
    let mut to = p.bytes;
    let mut value = p.value;
    for _ in 0..p.count {
        to = put_all(space, to, part(&value.to_le_bytes(), 0, width));
        value = value.wrapping_add(p.rise);
    }
    to
}

// Puts the piece into the space; how many bytes stand there then.
fn put_piece(p: Piece, text: &[u8], kept: &[u8], space: &mut Space) -> usize {
    match p.kind {
        Kind::Text(from, to) => put_times(space, p.bytes, part(text, from, to), p.count),
        Kind::Byte => put_run(space, p, 1),
        Kind::Half => put_run(space, p, 2),
        Kind::Word => put_run(space, p, 4),
        Kind::Kept => put_all(space, p.bytes, kept),
        Kind::First => put_all(space, p.bytes, part(kept, 0, p.value as usize)),
        Kind::Nothing | Kind::Open(_) => p.bytes,
    }
}

fn set(ends: &mut Ends, i: usize, v: usize) {
    if let Some(end) = ends.get_mut(i) {
        *end = v;
    }
}

// The next argument begins at a multiple of 4.
fn next_argument(bytes: usize) -> usize {
    (bytes % 131072).next_multiple_of(4)
}

// The piece after a comma, or after a space, which ends the argument too; the end of the argument is set anew where it has more pieces.
fn ended(p: Piece, b: u8, text: &[u8], kept: &[u8], space: &mut Space, ends: &mut Ends) -> Piece {
    let k = p.ended % 64;
    let bytes = put_piece(p, text, kept, space);
    let next = next_argument(bytes);
    set(ends, 2 * k + 1, bytes);
    set(ends, 2 * k + 2, next);
    if b == b',' {
        fresh(bytes, k)
    } else {
        fresh(next, k + 1)
    }
}

// A space or a comma ends a piece, unless it stands in a text.
fn ends_piece(kind: Kind, b: u8) -> bool {
    match kind {
        Kind::Open(_) => false,
        _ => b == b' ' || b == b',',
    }
}

// The arguments of a text, in the space: where the i-th begins, at 2i, and where it ends, at 2i + 1, counted from 0.
pub fn arguments(text: &[u8], kept: &[u8], space: &mut Space, ends: &mut Ends) {
    let mut p = fresh(0, 0);
    for (i, b) in text.iter().chain(b" ").enumerate() {
        p = if ends_piece(p.kind, *b) {
            ended(p, *b, text, kept, space, ends)
        } else {
            moved(p, *b, i)
        };
    }
}

fn end_at(ends: &Ends, i: usize) -> usize {
    ends.get(i).copied().unwrap_or(0)
}

// The i-th argument, counted from 0.
pub fn argument<'a>(space: &'a [u8], ends: &Ends, i: usize) -> &'a [u8] {
    let k = i % 64 * 2;
    part(space, end_at(ends, k), end_at(ends, k + 1))
}

// The i-th argument as words, of all the words of the space.
pub fn list<'a>(words: &'a [u32], ends: &Ends, i: usize) -> &'a [u32] {
    let k = i % 64 * 2;
    words
        .get(end_at(ends, k) / 4..end_at(ends, k + 1) / 4)
        .unwrap_or(words)
}

// How many bytes the first argument has, those that the space lacks counted.
pub fn length(ends: &Ends) -> usize {
    end_at(ends, 1)
}

// The first word, 0 of none.
pub fn head(list: &[u32]) -> u32 {
    list.first().copied().unwrap_or(0)
}

// The first word of bytes, the low byte first; bytes that they lack are 0.
fn word(bytes: &[u8]) -> u32 {
    u32::from_le_bytes([
        byte_at(bytes, 0),
        byte_at(bytes, 1),
        byte_at(bytes, 2),
        byte_at(bytes, 3),
    ])
}

// The i-th argument as one number.
pub fn number(space: &[u8], ends: &Ends, i: usize) -> u32 {
    word(argument(space, ends, i))
}

// The words of the space.
pub fn words(space: &Space) -> Words {
    let mut list = [0u32; 16384];
    for (w, bytes) in list.iter_mut().zip(space.chunks_exact(4)) {
        *w = word(bytes);
    }
    list
}

// Copies bytes to the start of others.
pub fn copied(bytes: &[u8], to: &mut Space) {
    put_all(to, 0, bytes);
}

// The k-th of names, with commas between them; none past the last.
pub fn name(names: &[u8], k: usize) -> &[u8] {
    names.split(|b| *b == b',').nth(k).unwrap_or(&[])
}
