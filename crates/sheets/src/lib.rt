// Checking a sheet, front to back.
#![tactic(auto)]

ghost use Rattle.std.specs.Prelude.{◌≡◌, ◌+◌, ◌≤◌, length, drop};
ghost use Rattle.slices.specs.Bytes.{low32};
ghost use Rattle.format.specs.Names.{among};
ghost use Rattle.format.specs.Reading.{sheet_words_fault, signal_fault, front_fault, sheet_fault, signals_from, names};
ghost use Rattle.format.specs.Walk.{Whole};

use finding::{FIRST_AT, WORD_BYTES, WORD_COUNT_AT, WORDS_AT};
use format::Place;

// The mark is the three letters SGL.
pub const MARK: [u8; 3] = *b"SGL";

pub const VERSION: usize = 1;

// A sheet has at most so many signals, and a signal so many words.
pub const MOST_SIGNALS: usize = 32;

const MOST_WORDS: usize = signals::WORDS;

// Where on a sheet the version and the count of signals stand.
pub const VERSION_AT: usize = 3;

pub const COUNT_AT: usize = 5;

// The word whose four bytes begin at a place.
fn word_at(s: &[u8], at: usize) -> u32
    requires { at + 4 ≤ length s.now }
    ensures { result ≡ low32 (drop at s.now) }
{
    u32::from_le_bytes([s[at], s[at + 1], s[at + 2], s[at + 3]])
}

// The fault of the n words of a signal, which begin these bytes: each is judged before the next is read. Those that are whole are judged
// without a test of the length for each. A word changes nothing where it is that of its date and twice the value before. (Written so, and
// not by the remainder, the word is one load.)
fn words_fault(bytes: &[u8], n: usize) -> u32
    ensures { result ≡ sheet_words_fault n bytes.now }
{
    let whole = bytes.len() / WORD_BYTES;
    if whole == 0 {
        return 15;
    }
    let mut before = word_at(bytes, 0);
    if 1 < before {
        return 17;
    }
    for i in 1..n.min(whole) {
        let word = word_at(bytes, WORD_BYTES * i);
        if word / 4 <= before / 4 || word == 4 * (word / 4) + 3 * (before % 2) {
            return 17;
        }
        before = word;
    }
    if whole < n { 15 } else { 0 }
}

// The name is one of the first `count` signals'.
fn known(sheet: &[u8], count: usize, name: &[u8]) -> bool
    requires { (7 ≤ length sheet.now) × Whole count (drop 7 sheet.now) }
    ensures { result ≡ among name.now (names (signals_from count (drop 7 sheet.now))) }
{
    matches!(finding::find(sheet, count, name), Place::At { .. })
}

// The fault of the signal that starts at a place, after the first `count` signals.
fn signal_fault(sheet: &[u8], at: usize, count: usize) -> u32
    requires in_bounds { (7 ≤ length sheet.now) × Whole count (drop 7 sheet.now) }
    requires at_in_bounds { at ≤ length sheet.now }
    ensures { result ≡ signal_fault (names (signals_from count (drop 7 sheet.now))) (drop at sheet.now) }
{
    let left = sheet.len() - at;
    if left < WORD_COUNT_AT {
        return 15;
    }
    let field = &sheet[at..at + WORD_COUNT_AT];
    if !name_fields::field_fits(field) || known(sheet, count, name_fields::name_in(field)) {
        return 16;
    }
    if left < WORDS_AT {
        return 15;
    }
    let words = slices::read16(sheet, at + WORD_COUNT_AT);
    if words == 0 || MOST_WORDS < words {
        return 17;
    }
    words_fault(&sheet[at + WORDS_AT..], words)
}

// The fault of mark, version and count.
fn front_fault(sheet: &[u8]) -> u32
    ensures { result ≡ front_fault sheet.now }
{
    if sheet.len() < COUNT_AT
        || !name_fields::alike(&sheet[..VERSION_AT], &MARK)
        || slices::read16(sheet, VERSION_AT) != VERSION
    {
        return 14;
    }
    if sheet.len() < FIRST_AT || MOST_SIGNALS < slices::read16(sheet, COUNT_AT) {
        return 15;
    }
    0
}

// The fault of a sheet, read front to back, 0 for an accepted one.
pub fn sheet_fault(sheet: &[u8]) -> u32
    ensures { result ≡ sheet_fault sheet.now }
{
    let front = front_fault(sheet);
    if front != 0 {
        return front;
    }
    let count = slices::read16(sheet, COUNT_AT);
    let mut at = FIRST_AT;
    for i in 0..count {
        let fault = signal_fault(sheet, at, i);
        if fault != 0 {
            return fault;
        }
        at += finding::signal_size(&sheet[at..]);
    }
    if at == sheet.len() { 0 } else { 15 }
}
