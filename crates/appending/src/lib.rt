// Writing sheets: begin and append.
#![tactic(auto)]

ghost use Rattle.std.specs.Prelude.{◌≡◌, ◌+◌, ◌*◌, ◌≤◌, length};
ghost use Rattle.slices.specs.Slices.{placed};
ghost use Rattle.slices.specs.Bytes.{bytes16, bytes32, word_bytes};
ghost use Rattle.format.specs.Names.{padded};
ghost use Rattle.format.specs.Reading.{entry};
ghost use Rattle.format.specs.Writing.{entry_bytes};
ghost use Rattle.format.specs.Calls.{append_fault};
ghost use Rattle.appending.specs.Calls.{CallOfBegin, CallOfAppend};

use finding::{FIRST_AT, WORD_BYTES, WORD_COUNT_AT, WORDS_AT};
use sheets::{COUNT_AT, MARK, MOST_SIGNALS, VERSION, VERSION_AT};
use signals::Written;

// Writes a 16-bit number, low byte first.
fn put16(out: &mut [u8], at: usize, n: usize)
    requires { at + 2 ≤ length out.old }
    ensures { out.new ≡ placed out.old at (bytes16 n) }
{
    out[at..at + 2].copy_from_slice(&n.to_le_bytes()[..2]);
}

// Writes a 32-bit word, low byte first.
fn put32(out: &mut [u8], at: usize, word: u32)
    requires { at + 4 ≤ length out.old }
    ensures { out.new ≡ placed out.old at (bytes32 word) }
{
    out[at..at + WORD_BYTES].copy_from_slice(&word.to_le_bytes());
}

// Writes the words of a list.
fn put_words(out: &mut [u8], at: usize, list: &[u32])
    requires { at + 4 * length list.now ≤ length out.old }
    ensures { out.new ≡ placed out.old at (word_bytes list.now) }
{
    for (i, word) in list.iter().enumerate() {
        put32(out, at + WORD_BYTES * i, *word);
    }
}

// Writes a name, padded with zero bytes.
fn put_name(out: &mut [u8], at: usize, name: &[u8])
    requires { (at + 8 ≤ length out.old) × (length name.now ≤ 8) }
    ensures { out.new ≡ placed out.old at (padded name.now) }
{
    slices::put(out, at, name);
    out[at + name.len()..at + WORD_COUNT_AT].fill(0);
}

// Writes a signal: its name, its word count, its words.
fn put_signal(out: &mut [u8], at: usize, name: &[u8], list: &[u32])
    requires { (at + 10 + 4 * length list.now ≤ length out.old) × (length name.now ≤ 8) }
    ensures { out.new ≡ placed out.old at (entry_bytes (entry name.now list.now)) }
{
    put_name(out, at, name);
    put16(out, at + WORD_COUNT_AT, list.len());
    put_words(out, at + WORDS_AT, list);
}

// Begins a sheet: writes the empty one.
pub fn begin(out: &mut [u8]) -> Written
    ensures { CallOfBegin out.old result out.new }
{
    if out.len() < FIRST_AT {
        return Written::Refused(7);
    }
    slices::put(out, 0, &MARK);
    put16(out, VERSION_AT, VERSION);
    put16(out, COUNT_AT, 0);
    Written::Count(FIRST_AT)
}

// The fault of appending to a sheet when the output has `room` bytes: sheet, 16, list, 15, 7. A lookup gives the sheet's and 16 for a
// malformed name; a name that it finds is repeated, and one that it does not find is 13.
fn append_fault(sheet: &[u8], name: &[u8], list: &[u32], room: usize) -> u32
    ensures { result ≡ append_fault sheet.now name.now list.now room }
{
    match lookups::lookup_fault(sheet, name) {
        0 => return 16,
        13 => {}
        fault => return fault,
    }
    let bad = lists::list_fault(list);
    if bad != 0 {
        return bad;
    }
    if MOST_SIGNALS <= slices::read16(sheet, COUNT_AT) {
        return 15;
    }
    if room < sheet.len() + (WORDS_AT + WORD_BYTES * list.len()) {
        7
    } else {
        0
    }
}

// Appends a signal: writes the sheet with it.
pub fn append(sheet: &[u8], name: &[u8], list: &[u32], out: &mut [u8]) -> Written
    ensures { CallOfAppend sheet.now name.now list.now out.old result out.new }
{
    let fault = append_fault(sheet, name, list, out.len());
    if fault != 0 {
        return Written::Refused(fault);
    }
    let count = slices::read16(sheet, COUNT_AT);
    let end = sheet.len();
    slices::put(out, 0, &sheet[..COUNT_AT]);
    put16(out, COUNT_AT, count + 1);
    slices::put(out, FIRST_AT, &sheet[FIRST_AT..]);
    put_signal(out, end, name, list);
    Written::Count(end + (WORDS_AT + WORD_BYTES * list.len()))
}
