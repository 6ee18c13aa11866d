// Test support: the engine's calls on the sheet and formulas of four slots of 4,096 bytes: slot 0 the sheet, 1 to 3 the formulas.
#![tactic(auto)]

ghost use Rattle.std.specs.Prelude.{◌≡◌, length};

use fields::part;
use random_formulas::cells::{BYTES, Cells, LENGTHS, SLOTS, TEXT, at, set};
use signals::{End, Verdict, WORDS, Written};

// Puts the bytes written into a slot.
pub fn kept(cells: &mut Cells, slot: usize) {
    let n = (cells[BYTES] % 4097) as usize;
    set(cells, LENGTHS + slot % 4, n as u64);
    let start = SLOTS + slot % 4 * 4096;
    cells.copy_within(TEXT..TEXT + n, start);
}

fn length(cells: &Cells, slot: usize) -> usize {
    (at(cells, LENGTHS + slot % 4) % 4097) as usize
}

// The bytes of a slot.
fn held(cells: &Cells, slot: usize) -> [u8; 4096] {
    let n = length(cells, slot) % 4097;
    let start = SLOTS + slot % 4 * 4096;
    let mut bytes = [0u8; 4096];
    for (b, cell) in bytes.iter_mut().zip(&cells[start..start + n]) {
        *b = (*cell % 256) as u8;
    }
    bytes
}

// A word count, or 1,000 + the fault.
fn written_number(answer: Written) -> u64 {
    match answer {
        Written::Count(n) => n as u64,
        Written::Refused(fault) => u64::from(fault) + 1000,
    }
}

// 4 * k + 1 where the instant k is the last to fail, 4 * k + 2 where the gap before it is, 3 where the run never ends.
fn end_number(end: End) -> u64 {
    match end {
        End::At(k) => u64::from(k) % 1073741824 * 4 + 1,
        End::Before(k) => u64::from(k) % 1073741824 * 4 + 2,
        End::Never => 3,
    }
}

fn failing(first: u64, end: End) -> u64 {
    end_number(end) % 4294967296 * 4294967296 + first % 4294967296
}

// 0 for holds, else 4 * k + 1 for at, 4 * k + 2 for after, with 2^32 times the number of the end; 4 * n + 3 for refused.
fn verdict_number(answer: Verdict) -> u64 {
    match answer {
        Verdict::Holds => 0,
        Verdict::FailsAt(k, end) => failing(u64::from(k) * 4 + 1, end),
        Verdict::FailsAfter(k, end) => failing(u64::from(k) * 4 + 2, end),
        Verdict::Refused(fault) => u64::from(fault) * 4 + 3,
    }
}

// The formula call.
pub fn call(cells: &Cells, f: usize, work: &mut [u32], out: &mut [u32]) -> u64 {
    let sheet = held(cells, 0);
    let text = held(cells, f);
    written_number(evaluation::evaluate(
        part(&sheet, 0, length(cells, 0)),
        part(&text, 0, length(cells, f)),
        work,
        out,
    ))
}

// The claim of two formulas.
pub fn claim(cells: &Cells, f: usize, g: usize, work: &mut [u32]) -> u64 {
    let sheet = held(cells, 0);
    let first = held(cells, f);
    let second = held(cells, g);
    verdict_number(evaluation::claim(
        part(&sheet, 0, length(cells, 0)),
        part(&first, 0, length(cells, f)),
        part(&second, 0, length(cells, g)),
        work,
    ))
}

// The old word at a place of the output.
pub fn old(i: usize) -> u32 {
    (i % 256) as u32 + 7000
}

// An output of old words.
pub fn old_words() -> [u32; WORDS]
    ensures { 256 ≡ length result }
{
    std::array::from_fn(old)
}
