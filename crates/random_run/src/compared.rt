// A random sheet and two random formulas: each call, and the claim, against the second evaluator.
// The tally: 0 mismatches, 1 to 18 formulas refused so, 20 formulas answered, 21 to 24 claims that hold, fail at, fail after, are
// refused, 25 those with no failing run, 26 to 28 those whose run ends at an instant, before one, never. The notes: the sheet's fault,
// F's, G's, 18 where the work area is short; 5 or 6 that F's parts meet, and G's, 4 further on.
use crate::made::{sheet_fault, spoil, text, tree};
use evaluation::WORK_WORDS;
use random_calls::{call, claim, kept, old, old_words};
use random_formulas::cells::{BYTES, Cells, NAMES, NOTES, PART, TALLY, at, count, roll, set};
use random_formulas::texts::cleared;
use random_sheets::drawn::{far_times, long_times, ordinary_times, sheet, signals};
use random_sheets::rows::{date_of, dates, word_at, words};
use signals::WORDS;
use stepping::{Test, first, first_of, stepped};

fn expected_word(cells: &Cells, count: usize, i: usize) -> u64 {
    if i < count {
        word_at(cells, i)
    } else {
        u64::from(old(i))
    }
}

// The output is the words written, so many, then the old ones.
fn same_output(cells: &Cells, out: &[u32], count: usize) -> bool {
    out.iter().enumerate().all(|(i, word)| u64::from(*word) == expected_word(cells, count, i))
}

// How many mismatches: none where all is the same.
fn wrong(number: bool, output: bool) -> u64 {
    u64::from(!(number && output))
}

// Counts the kind, and the mismatches.
fn tell(cells: &mut Cells, kind: u64, mismatches: u64) {
    count(cells, TALLY + (kind % 32) as usize, 1);
    count(cells, TALLY, mismatches);
}

// Writes the list of a row; how many words.
fn list(cells: &mut Cells, row: usize) -> usize {
    cleared(cells);
    words(cells, row);
    (cells[BYTES] / 4) as usize
}

fn note(cells: &Cells, k: usize) -> u64 {
    at(cells, NOTES + k % 4)
}

fn note_of_parts(cells: &Cells, k: usize) -> u64 {
    at(cells, NOTES + 4 + k % 4)
}

// What a call of F, or a claim of F to G, meets before its output: the sheet's fault, F's, G's, 18, then F's parts, then G's.
fn fault_of(cells: &Cells, f: usize, g: usize) -> u64 {
    let texts = first_of(note(cells, f), note(cells, g));
    let parts = first_of(note_of_parts(cells, f), note_of_parts(cells, g));
    let early = first_of(note(cells, 0), texts);
    first_of(early, first_of(note(cells, 3), parts)) % 20
}

// The fault of a call with no fault before its output, its list having so many words.
fn room_fault(n: usize, room: usize) -> u64 {
    if room < n { 7 } else { 0 }
}

// Where a call has no fault, a; else b.
fn sound(fault: u64, a: u64, b: u64) -> u64 {
    if fault == 0 { a } else { b }
}

fn judge_call(cells: &mut Cells, f: usize, answer: u64, out: &[u32]) {
    let n = list(cells, f);
    let fault = first_of(fault_of(cells, f, f), room_fault(n, out.len())) % 20;
    let words = n as u64;
    let same = same_output(cells, out, sound(fault, words, 0) as usize);
    let mismatches = wrong(answer == sound(fault, words, fault + 1000), same);
    tell(cells, sound(fault, 20, fault), mismatches);
}

fn call_in(cells: &mut Cells, f: usize, work: &mut [u32], out: &mut [u32]) {
    let answer = call(cells, f, work, out);
    judge_call(cells, f, answer, out);
}

// With room for every list, at times for two words.
fn room_of(r: u64) -> usize {
    if r == 0 { 2 } else { WORDS }
}

// One formula call.
fn formula_call(cells: &mut Cells, f: usize, work: &mut [u32]) {
    let mut out = old_words();
    let room = room_of(roll(cells, 20)) % 257;
    call_in(cells, f, work, &mut out[0..room]);
}

// The verdict of the first failing moment, the end being none, and how its run ends.
fn verdict_of(fault: u64, moment: usize, end: usize, date: u64, run: u64) -> u64 {
    if fault != 0 {
        fault % 20 * 4 + 3
    } else if moment == end {
        0
    } else {
        run % 4294967296 * 4294967296 + date % 1073741824 * 4 + 2 - (moment % 2) as u64
    }
}

fn date_at(cells: &Cells, moment: usize) -> u64 {
    date_of(cells, moment / 2 + moment % 2) % 1073741824
}

// How the run ends that goes on at a moment: by the first moment from there on that does not fail.
fn run_from(cells: &Cells, moment: usize, end: usize) -> u64 {
    let fine = first(cells, Test::Fine, moment, end);
    if fine == end {
        3
    } else {
        date_at(cells, fine) % 1073741824 * 4 + 1 + (fine % 2) as u64
    }
}

// The verdict expected, moment by moment, up to the last column's gap.
fn expected_verdict(cells: &Cells) -> u64 {
    let end = (dates(cells) % 417 * 2 + 831) % 832;
    let moment = first(cells, Test::Fails, 0, end);
    let run = run_from(cells, moment, end);
    verdict_of(
        fault_of(cells, 1, 2),
        moment,
        end,
        date_at(cells, moment),
        run,
    )
}

fn judge_claim(cells: &mut Cells, answer: u64) {
    let verdict = expected_verdict(cells);
    tell(cells, verdict % 4 + 21, wrong(answer == verdict, true));
    tell(cells, verdict / 4294967296 % 4 + 25, 0);
}

fn calls(cells: &mut Cells, work: &mut [u32]) {
    formula_call(cells, 1, work);
    formula_call(cells, 2, work);
    let answer = claim(cells, 1, 2, work);
    judge_claim(cells, answer);
}

// With a whole work area, at times with one word less.
fn with_work(cells: &mut Cells) {
    let mut work = [0u32; WORK_WORDS];
    let short = roll(cells, 50) == 0;
    cells[NOTES + 3] = u64::from(short) * 18;
    let enough = WORK_WORDS - usize::from(short);
    calls(cells, &mut work[0..enough]);
}

// A formula in its slot and, if it has no fault, its values in the row of that number.
fn formula(cells: &mut Cells, f: usize) {
    let n = tree(cells);
    let fault = text(cells, n);
    kept(cells, f);
    stepped(cells, sound(fault, n as u64, 0) as usize, f);
    let part = cells[PART];
    set(cells, NOTES + f % 4, fault);
    set(cells, NOTES + 4 + f % 4, part);
}

// Mostly ordinary times, at times far ones, now and then long ones.
fn times_drawn(cells: &mut Cells) {
    let r = roll(cells, 100);
    if r < 2 {
        long_times(cells);
    } else if r < 20 {
        far_times(cells);
    } else {
        ordinary_times(cells);
    }
}

// The sheet in its slot.
fn sheet_drawn(cells: &mut Cells) {
    times_drawn(cells);
    signals(cells);
    let many = roll(cells, 3) % 3 + 1;
    let fault = sheet_fault(roll(cells, 200));
    cells[NAMES] = many;
    cells[NOTES] = fault;
    sheet(cells, many as usize);
    spoil(cells, fault);
    kept(cells, 0);
}

pub fn round(cells: &mut Cells) {
    sheet_drawn(cells);
    formula(cells, 1);
    formula(cells, 2);
    with_work(cells);
}
