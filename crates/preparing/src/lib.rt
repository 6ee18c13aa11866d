// A formula read for a sheet: its code words, with the places of its names on the sheet.
#![tactic(auto)]

ghost use Rattle.std.specs.Prelude.{◌≡◌, ◌&&◌, map, ◌++◌, ◌≤◌, length, take, drop};
ghost use Rattle.machine.specs.Machine.{placed_name, placed_word, word_found, all_found};
ghost use Rattle.preparing.specs.Preparing.{PreparesFor, JudgesAndPrepares};

use format::Place;
use marks::kind;
use signals::Written;

// The code word of a name whose words stand at a place; of no words where it is refused.
fn name_at(place: Place) -> u64
    ensures { result ≡ placed_name place }
{
    match place {
        Place::At { start, count } => {
            let first = (start % 4294967296) as u64;
            let words = (count / 4 % 512) as u64;
            (first * 512 + words) * 16 + kind::NAME
        }
        Place::Refused(_) => kind::NAME,
    }
}

// The code word of a text with the place of its name on the sheet, if it is one.
fn placed(sheet: &[u8], text: &[u8], code: u64) -> u64
    ensures { result ≡ placed_word sheet.now text.now code }
{
    if code % 16 == kind::NAME {
        let name = code_words::name_in(text, code);
        return name_at(lookups::locate_judged(sheet, name));
    }
    code
}

// The names before are found, and so is that of this code word, if it is one.
#[tactic(auto, unfolding(machine::specs::Machine::word_found))]
fn found(before: bool, word: u64) -> bool
    ensures { result ≡ (before && word_found word) }
{
    before && !(word % 16 == kind::NAME && word / 16 % 512 == 0)
}

// The places of the names put into the first code words; whether all are found.
fn place_names(sheet: &[u8], text: &[u8], codes: &mut [u64], n: usize) -> bool
    requires { n ≤ length codes.old }
    ensures { (codes.new ≡ map (placed_word sheet.now text.now) (take n codes.old)
        ++ drop n codes.old)
        × (result ≡ all_found (map (placed_word sheet.now text.now) (take n codes.old))) }
{
    let mut all = true;
    for code in &mut codes[..n] {
        *code = placed(sheet, text, *code);
        all = found(all, *code);
    }
    all
}

// A formula read for a sheet that need not be judged: 10, 11, 8, 12, 13, or how many code words stand for its parts. On a sheet that is
// refused a name is sought among the whole signals at its front, and one whose signal has no words, or 512, counts as missing too.
pub fn prepare(sheet: &[u8], text: &[u8], codes: &mut [u64; 32]) -> Written
    ensures { PreparesFor sheet.now text.now codes.old result codes.new }
{
    match formulas::read(text, codes) {
        Written::Count(n) => {
            if place_names(sheet, text, codes, n) {
                Written::Count(n)
            } else {
                Written::Refused(13)
            }
        }
        Written::Refused(fault) => Written::Refused(fault),
    }
}

// The same after the sheet's faults, which leave the code words as they were.
pub fn judge_and_prepare(sheet: &[u8], text: &[u8], codes: &mut [u64; 32]) -> Written
    ensures { JudgesAndPrepares sheet.now text.now codes.old result codes.new }
{
    let fault = sheets::sheet_fault(sheet);
    if fault == 0 {
        return prepare(sheet, text, codes);
    }
    Written::Refused(fault)
}
